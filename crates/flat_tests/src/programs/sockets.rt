//! Lookups, ports, and the limits of a receive queue.
use super::{same, same_list};
use flat_model::{Addr, LookupKey};
use flat_plain::{Pcb, Waiting, best, exact, fits, next_port, receivers, score};

const HERE: u32 = 0x0a00_0001;

const LOOPBACK: u32 = 0x7f00_0001;

const OTHER: Addr = Addr {
    ip: 0x0a00_0002,
    port: 5000,
};

const OTHER_PORT: Addr = Addr {
    port: 5001,
    ..OTHER
};

const OTHER_HOST: Addr = Addr { ip: HERE, ..OTHER };

/// A packet to port 7.
const PACKET: LookupKey = LookupKey {
    local: Some(HERE),
    port: Some(7),
    peer: Some(OTHER),
};

const FROM_ZERO: LookupKey = LookupKey {
    peer: Some(Addr { ip: 0, port: 0 }),
    ..PACKET
};

const TO_ZERO: LookupKey = LookupKey {
    port: Some(0),
    ..PACKET
};

/// Only a port.
const PORT: LookupKey = LookupKey {
    local: None,
    port: Some(7),
    peer: None,
};

const NOTHING: LookupKey = LookupKey { port: None, ..PORT };

/// A socket's local address, its local port, and its peer.
type Set = (Option<u32>, Option<u16>, Option<Addr>);

/// The lookup key, the fields that a socket has set, and the number of wildcards.
static SCORES: [(LookupKey, Set, Option<u32>); 17] = [
    (PACKET, (Some(HERE), Some(7), Some(OTHER)), Some(0)),
    (PACKET, (None, Some(7), Some(OTHER)), Some(1)),
    (PACKET, (Some(HERE), Some(7), None), Some(1)),
    (PACKET, (None, Some(7), None), Some(2)),
    (PACKET, (Some(LOOPBACK), Some(7), None), None),
    (PACKET, (None, Some(7), Some(OTHER_PORT)), None),
    (PACKET, (None, Some(7), Some(OTHER_HOST)), None),
    (PACKET, (None, Some(8), None), None),
    (PACKET, (None, None, None), None),
    // A field that the socket has set and the key hasn't also counts as a wildcard.
    (PORT, (None, Some(7), None), Some(0)),
    (PORT, (Some(HERE), Some(7), None), Some(1)),
    (PORT, (Some(HERE), Some(7), Some(OTHER)), Some(2)),
    (NOTHING, (None, None, None), None),
    // 0.0.0.0 and port 0 in a packet are set, and are no wildcards.
    (FROM_ZERO, (None, Some(7), None), Some(2)),
    (FROM_ZERO, (None, Some(7), Some(OTHER)), None),
    (TO_ZERO, (None, None, None), None),
    (TO_ZERO, (None, Some(7), None), None),
];

const UNBOUND: Pcb = Pcb {
    fd: 3,
    local: None,
    port: None,
    peer: None,
    reuse_port: false,
};

/// A socket with port 7.
const YOUNG: Pcb = Pcb {
    port: Some(7),
    ..UNBOUND
};

const OLD: Pcb = Pcb { fd: 9, ..YOUNG };

const BOUND: Pcb = Pcb {
    fd: 5,
    local: Some(HERE),
    ..YOUNG
};

const CONNECTED: Pcb = Pcb {
    fd: 4,
    peer: Some(OTHER),
    ..BOUND
};

/// The control block that a packet finds with the fewest wildcards, and the one without a wildcard. The youngest is
/// first, whatever its descriptor.
static BEST: [(&[Pcb], Option<Pcb>, Option<Pcb>); 7] = [
    (&[YOUNG, OLD], Some(YOUNG), None),
    (&[OLD, YOUNG], Some(OLD), None),
    (&[YOUNG, BOUND, OLD], Some(BOUND), None),
    (
        &[YOUNG, BOUND, OLD, CONNECTED],
        Some(CONNECTED),
        Some(CONNECTED),
    ),
    (
        &[YOUNG, BOUND, CONNECTED, OLD],
        Some(CONNECTED),
        Some(CONNECTED),
    ),
    (&[YOUNG, BOUND], Some(BOUND), None),
    (&[], None, None),
];

/// A and B share their port, and C doesn't.
const A: Pcb = Pcb {
    fd: 6,
    reuse_port: true,
    ..YOUNG
};

const B: Pcb = Pcb { fd: 3, ..A };

const C: Pcb = Pcb { fd: 5, ..YOUNG };

const ELSEWHERE: Pcb = Pcb {
    fd: 8,
    local: Some(LOOPBACK),
    ..YOUNG
};

/// The control blocks that receive a broadcast.
static MATCHES: [(&[Pcb], &[Pcb]); 5] = [
    (&[A, B, C], &[A, B, C]),
    (&[A, C, B], &[A, C]),
    (&[C, A, B], &[C]),
    (&[ELSEWHERE, A], &[A]),
    (&[ELSEWHERE], &[]),
];

const FIRST: Pcb = Pcb {
    port: Some(1024),
    ..UNBOUND
};

const SECOND: Pcb = Pcb {
    port: Some(1025),
    ..UNBOUND
};

const THIRD: Pcb = Pcb {
    port: Some(1026),
    ..UNBOUND
};

const LAST: Pcb = Pcb {
    port: Some(5000),
    ..UNBOUND
};

const FIRST_HERE: Pcb = Pcb {
    local: Some(HERE),
    ..FIRST
};

/// The sockets, the port that was chosen last, the local address, and the next port.
static PORTS: [(&[Pcb], Option<u16>, Option<u32>, u16); 9] = [
    (&[], None, None, 1024),
    (&[], Some(1024), None, 1025),
    (&[], Some(5000), None, 1024),
    (&[FIRST, THIRD], None, None, 1025),
    (&[THIRD, SECOND], Some(1024), None, 1027),
    (&[FIRST, LAST], Some(4999), None, 1025),
    // Another local address on both sides leaves the port free.
    (&[FIRST_HERE], None, Some(LOOPBACK), 1024),
    (&[FIRST_HERE], None, Some(HERE), 1025),
    (&[FIRST_HERE], None, None, 1025),
];

/// A datagram of one byte is in one mbuf, and its sender's address in another.
const SMALL: Waiting = Waiting {
    len: 1,
    mbufs: 2,
    references: 0,
};

const LARGE: Waiting = Waiting {
    len: 9216,
    mbufs: 1,
    references: 0,
};

const DEEP: Waiting = Waiting {
    len: 0,
    mbufs: 6,
    references: 40,
};

const DEEPER: Waiting = Waiting { mbufs: 20, ..DEEP };

/// The limit of a queue or 0, the queue, the length of one more datagram, its memory, and whether it fits. Without a
/// limit these are 41,600 bytes, including 16 for each address, and 83,200 bytes of memory.
static FITS: [(u16, &[Waiting], u16, u32, bool); 17] = [
    (0, &[SMALL; 324], 1, 128, true),
    (0, &[SMALL; 325], 0, 128, false),
    (0, &[], 41_584, 128, true),
    (0, &[], 41_585, 128, false),
    (0, &[LARGE; 4], 4656, 128, true),
    (0, &[LARGE; 4], 4657, 128, false),
    (0, &[DEEP], 496, 1 << 20, true),
    (0, &[DEEP], 497, 128, false),
    (0, &[DEEPER], 0, 128, false),
    (512, &[SMALL; 3], 1, 128, true),
    (512, &[SMALL; 4], 0, 128, false),
    (512, &[], 496, 896, true),
    (512, &[], 497, 896, false),
    (512, &[], 1, 897, false),
    (1152, &[], 1000, 2176, true),
    (1151, &[], 1000, 2176, false),
    (65_535, &[], 65_507, 128, true),
];

#[test]
fn scores(rt: HostRuntime) {
    for (row, (key, (local, port, peer), wanted)) in SCORES.iter().enumerate() {
        let pcb = Pcb {
            local: *local,
            port: *port,
            peer: *peer,
            ..UNBOUND
        };
        same(&rt, row, &score(*key, pcb), wanted);
    }
}

#[test]
fn the_best(rt: HostRuntime) {
    for (row, (pcbs, most, all)) in BEST.iter().enumerate() {
        same(&rt, row, &best(PACKET, pcbs), most);
        same(&rt, row, &exact(PACKET, pcbs), all);
    }
}

#[test]
fn which_sockets_match(rt: HostRuntime) {
    for (row, (pcbs, wanted)) in MATCHES.iter().enumerate() {
        same_list(&rt, row, receivers(rt.alloc(), PACKET, pcbs), wanted);
    }
}

#[test]
fn circle(rt: HostRuntime) {
    for (row, (pcbs, last, local, port)) in PORTS.iter().enumerate() {
        if let Some(last) = *last {
            assert!(rt; 1024 <= last && last <= 5000);
        }
        same(&rt, row, &next_port(pcbs, *last, *local), &Some(*port));
    }
}

#[test]
fn limits(rt: HostRuntime) {
    for (row, (limit, queue, n, memory, wanted)) in FITS.iter().enumerate() {
        assert!(rt; queue.len() <= 325);
        same(&rt, row, &fits(*limit, queue, *n, *memory), wanted);
    }
}
