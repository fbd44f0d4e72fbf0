//! A host on an Ethernet at which the frames of a capture arrive, one after another. It has no sockets, so what it does
//! with a packet is what its link and its ICMP do. Other packets go to the judge's own stack, which has sockets.
use byteorder::{BigEndian, ByteOrder};
use ether_host::{EtherFault, EtherHost, Link, Mac, Tallies};
use flat_ether::ETHER_BROADCAST;
use flat_model::{Addr, Config};
use std::alloc::Global;

/// Bytes of an Ethernet header, and of the longest frame that arrives.
const HEADER: usize = 14;

const LONGEST: usize = 65_549;

/// The type of a frame with an ARP packet (RFC 826), and the operation of a reply.
const ARP: u16 = 0x0806;

const ARP_REPLY: u16 = 2;

/// Bytes of an ICMP error with the front of a datagram, after a header of 20 bytes.
const ICMP_ERROR: usize = 56;

/// Half a second, in nanoseconds, and the number of ticks after which each unfinished datagram has expired.
const TICK: u64 = 500_000_000;

const MOST_TICKS: u64 = 61;

/// What the host does with a frame.
#[derive(Clone, Copy)]
pub(crate) enum Linked {
    /// The stack gets the packet. `reported`: the host sends "port unreachable" if no socket takes its datagram.
    Packet { reported: bool },
    /// Nothing: the host sent the frame itself, or it's for another one.
    Elsewhere,
    /// The link drops a packet for the host, because the frame goes to another hardware address.
    OtherMac,
    /// The link drops a packet for the host, because the frame doesn't have the type of IPv4.
    OtherType,
    /// The link drops a packet with addresses that can't come from it.
    Martian,
    /// It replies to an echo request.
    Echo,
    /// It notes an ICMP error for a datagram that it sent.
    Error,
    /// It replies to an ARP request for its address.
    Answered,
    /// It learns a hardware address from an ARP reply.
    Learned,
    /// Another host has its address.
    Conflict,
    /// It ignores an ARP packet that isn't for Ethernet and IPv4, or is from an address that no other host can have.
    BadArp,
}

/// Returns the hardware address at the front of some bytes.
fn mac_at(bytes: &[u8]) -> Option<Mac> {
    if bytes.len() < 6 {
        return None;
    }
    Some(Mac {
        high: BigEndian::read_u16(bytes),
        low: BigEndian::read_u32(&bytes[2..]),
    })
}

/// Returns the address at the front of some bytes.
fn address_at(bytes: &[u8]) -> Option<u32> {
    if bytes.len() < 4 {
        return None;
    }
    Some(BigEndian::read_u32(bytes))
}

/// Returns the part of some bytes from an offset.
fn after(bytes: &[u8], at: usize) -> &[u8] {
    bytes.get(at..).unwrap_or_default()
}

/// Returns the type of a frame, or the operation of the ARP packet in it: the number at an offset, or 0.
fn number_at(bytes: &[u8], at: usize) -> u16 {
    let part = after(bytes, at);
    if part.len() < 2 {
        return 0;
    }
    BigEndian::read_u16(part)
}

/// Returns a hardware address if one host can have it.
fn of_host(mac: Option<Mac>) -> Option<Mac> {
    match mac {
        Some(mac) if mac.is_host() => Some(mac),
        _ => None,
    }
}

/// Returns the hardware address of a host that a word writes, as 02:00:00:00:00:01.
pub(crate) fn mac_of(word: &[u8]) -> Option<Mac> {
    if word.len() != 17 {
        return None;
    }
    let mut octets = [0; 6];
    for at in 0..6usize {
        if at > 0 && word.get(3 * at - 1) != Some(&b':') {
            return None;
        }
        if hex::decode_to_slice(word.get(3 * at..3 * at + 2)?, &mut octets[at..at + 1]).is_err() {
            return None;
        }
    }
    of_host(mac_at(&octets))
}

/// Returns the hardware address with which the host sends a frame, by the addresses inside the frame.
fn sender_in(frame: &[u8], ours: u32) -> Option<Mac> {
    let at = if number_at(frame, 12) == ARP { 28 } else { 26 };
    let is_packet = number_at(frame, 12) == 0x0800 || at == 28;
    if !is_packet || address_at(after(frame, at))? != ours {
        return None;
    }
    of_host(mac_at(after(frame, 6)))
}

/// Returns the hardware address to which a frame with a packet for the host goes.
fn receiver_in(frame: &[u8], ours: u32) -> Option<Mac> {
    if number_at(frame, 12) != 0x0800 || address_at(after(frame, 30))? != ours {
        return None;
    }
    of_host(mac_at(frame))
}

/// What the frames of a capture say of the host's hardware address.
#[derive(Clone, Copy)]
pub(crate) struct MacSeen {
    ours: u32,
    sent: Option<Mac>,
    received: Option<Mac>,
}

impl MacSeen {
    /// No frame was read.
    pub(crate) fn new(ours: u32) -> MacSeen {
        MacSeen {
            ours,
            sent: None,
            received: None,
        }
    }

    /// Reads a frame.
    pub(crate) fn read(&mut self, frame: &[u8]) {
        if self.sent.is_none() {
            self.sent = sender_in(frame, self.ours);
        }
        if self.received.is_none() {
            self.received = receiver_in(frame, self.ours);
        }
    }

    /// Returns the address with which the host sends first; otherwise that to which the first frame for it goes.
    pub(crate) fn found(&self) -> Option<Mac> {
        match self.sent {
            Some(mac) => Some(mac),
            None => self.received,
        }
    }
}

/// Returns the mask of a network of the host that has this broadcast address as its last one, or any if none is given:
/// the smallest from 256 addresses on, otherwise one that is smaller. `None` if there is none.
pub(crate) fn mask_for(ours: u32, broadcast: Option<u32>) -> Option<u32> {
    for step in 0..30u32 {
        let bits = if step < 24 { step + 8 } else { step - 22 };
        let hosts = (1u32 << bits) - 1;
        let last = ours | hosts;
        if ours & hosts != 0 && ours != last && broadcast.unwrap_or(last) == last {
            return Some(!hosts);
        }
    }
    None
}

/// Returns a link on the host's network. Another host there is the gateway, so each address has a route.
fn link_for(ours: u32, broadcast: u32, mac: Mac) -> Link {
    let mask = mask_for(ours, Some(broadcast)).unwrap_or(0xffff_ff00);
    let second = (ours & mask).wrapping_add(1);
    Link {
        mac,
        mask,
        gateway: Some(if second == ours {
            second.wrapping_add(1)
        } else {
            second
        }),
        probe: false,
    }
}

/// A host on an Ethernet. It must be consumed by `end`.
pub(crate) struct EtherEnd {
    host: EtherHost,
    ours: u32,
    pub(crate) mac: Mac,
    ticks: u64,
}

impl EtherEnd {
    /// A host with this address and this hardware address.
    pub(crate) fn boot(
        alloc: Global,
        ours: u32,
        broadcast: u32,
        mac: Mac,
    ) -> Result<EtherEnd, EtherFault> {
        let config = Config {
            addr: ours,
            bcast: broadcast,
            mtu: 1500,
            mbufs: 512,
            clusters: 64,
            first_id: 1,
        };
        Ok(EtherEnd {
            host: EtherHost::boot(alloc, config, link_for(ours, broadcast, mac))?,
            ours,
            mac,
            ticks: 0,
        })
    }

    /// Ends the host.
    pub(crate) fn end(self) {
        let EtherEnd {
            host,
            ours: _ours,
            mac: _mac,
            ticks: _ticks,
        } = self;
        let _ = host.end();
    }

    /// Lets time pass, in nanoseconds since the first record: a tick each half second.
    pub(crate) fn pass(&mut self, time: u64) {
        let due = time / TICK;
        let count = due.saturating_sub(self.ticks).min(MOST_TICKS);
        for _ in 0..count {
            self.host.tick();
        }
        self.ticks = self.ticks.max(due);
    }

    /// Takes all that the host sends, and returns whether an ARP reply is among it.
    fn drain(&mut self) -> bool {
        let mut replied = false;
        let mut room = [0; 1514];
        for _ in 0..u32::MAX {
            if self.host.stack().mtu() > 1500 {
                break;
            }
            let Some(_) = self.host.transmit(&mut room) else {
                break;
            };
            replied = replied || (number_at(&room, 12) == ARP && number_at(&room, 20) == ARP_REPLY);
        }
        replied
    }

    /// Opens a socket for the datagram that an ICMP error quotes, if the packet in a frame may be one.
    fn open_for(&mut self, frame: &[u8]) -> Option<u32> {
        let packet = after(frame, HEADER);
        if packet.len() < ICMP_ERROR || packet.get(9) != Some(&1) || packet.get(20) != Some(&3) {
            return None;
        }
        let (port, peer_port) = (number_at(packet, 48), number_at(packet, 50));
        let peer = Addr {
            ip: address_at(after(packet, 44))?,
            port: peer_port,
        };
        let stack = self.host.stack();
        let fd = stack.socket().ok()?;
        if stack.bind(fd, Addr { ip: 0, port }).is_err() || stack.connect(fd, peer).is_err() {
            let _ = stack.close(fd);
            return None;
        }
        Some(fd)
    }

    /// Returns whether the host has an error for a socket, and closes it.
    fn has_error(&mut self, fd: Option<u32>) -> bool {
        let Some(fd) = fd else {
            return false;
        };
        let error = self.host.last_error(fd);
        let _ = self.host.stack().close(fd);
        matches!(error, Ok(Some(_)))
    }

    /// Returns what the host does with an ARP packet that it doesn't ignore.
    fn use_of(&self, frame: &[u8], replied: bool) -> Linked {
        if replied {
            return Linked::Answered;
        }
        if number_at(frame, 20) == ARP_REPLY && address_at(after(frame, 38)) == Some(self.ours) {
            Linked::Learned
        } else {
            Linked::Elsewhere
        }
    }

    /// Returns what the link does with a frame that it ignores. `is_ours`: it has a packet for the host.
    fn ignored(&self, frame: &[u8], is_ours: bool) -> Linked {
        let Some(destination) = mac_at(frame) else {
            return Linked::Elsewhere;
        };
        if !is_ours {
            Linked::Elsewhere
        } else if destination.is(self.mac) || destination.is(ETHER_BROADCAST) {
            Linked::OtherType
        } else {
            Linked::OtherMac
        }
    }

    /// Returns what the host did with a frame, by its counters, or `None` if its stack got a packet.
    fn by_counters(before: Tallies, later: Tallies) -> Option<Linked> {
        if later.martians != before.martians {
            Some(Linked::Martian)
        } else if later.bad_arp != before.bad_arp {
            Some(Linked::BadArp)
        } else if later.conflicts != before.conflicts {
            Some(Linked::Conflict)
        } else if later.echoes != before.echoes {
            Some(Linked::Echo)
        } else {
            None
        }
    }

    /// Lets a frame arrive, and returns what the host does with it. `is_ours`: it has a packet for the host's address.
    pub(crate) fn take(&mut self, frame: &[u8], is_ours: bool) -> Linked {
        let is_own = match mac_at(after(frame, 6)) {
            Some(source) => source.is(self.mac),
            None => false,
        };
        if is_own || frame.len() > LONGEST {
            return Linked::Elsewhere;
        }
        let fd = self.open_for(frame);
        let before = self.host.tallies();
        self.host.receive(frame);
        let later = self.host.tallies();
        let has_error = self.has_error(fd);
        let replied = self.drain();
        if later.ignored != before.ignored {
            return self.ignored(frame, is_ours);
        }
        if let Some(linked) = EtherEnd::by_counters(before, later) {
            return linked;
        }
        if number_at(frame, 12) == ARP {
            return self.use_of(frame, replied);
        }
        if has_error {
            return Linked::Error;
        }
        Linked::Packet {
            reported: later.unreachable != before.unreachable,
        }
    }
}

impl Linked {
    /// Returns whether the link drops a packet for the host.
    pub(crate) fn is_drop(self) -> bool {
        matches!(self, Linked::OtherMac | Linked::OtherType | Linked::Martian)
    }

    /// Returns what the link did, in words; nothing if it did nothing, or gave the packet to the stack.
    pub(crate) fn words(self) -> Option<&'static [u8]> {
        match self {
            Linked::Packet { .. } | Linked::Elsewhere => None,
            Linked::OtherMac => Some(b"dropped by the link: to another hardware address"),
            Linked::OtherType => Some(b"dropped by the link: not the type of IPv4"),
            Linked::Martian => Some(b"dropped by the link: addresses that can't come from a link"),
            Linked::Echo => Some(b"handled by ICMP: the host sends an echo reply"),
            Linked::Error => Some(b"handled by ICMP: an error for a datagram of the host"),
            Linked::Answered => Some(b"the host replies with its hardware address"),
            Linked::Learned => Some(b"the host learns this hardware address"),
            Linked::Conflict => Some(b"conflict: another host has this address"),
            Linked::BadArp => Some(b"ignored: a bad ARP packet"),
        }
    }

    /// Returns the rule that the frame broke.
    pub(crate) fn rule(self) -> Option<&'static [u8]> {
        match self {
            Linked::OtherMac => Some(
                b"a host accepts frames to its own hardware address and to ff:ff:ff:ff:ff:ff (volume 2, chapter 4)",
            ),
            Linked::OtherType => Some(b"the type is 0x0800 for IPv4, without a VLAN tag (RFC 894)"),
            Linked::Martian => Some(
                b"no host sends from a group, a broadcast, 0/8 or 127/8, or to 127/8 (RFC 1122, section 3.2.1.3)",
            ),
            Linked::Conflict => Some(b"an address belongs to one host (RFC 5227, section 2.4)"),
            Linked::BadArp => Some(
                b"it's for Ethernet and IPv4, and from the hardware address of another host (RFC 826)",
            ),
            _ => None,
        }
    }

    /// Returns what the link did, as the word of an object.
    pub(crate) fn word(self) -> &'static [u8] {
        match self {
            Linked::OtherMac | Linked::OtherType | Linked::Martian => b"dropped",
            Linked::Echo | Linked::Error => b"handled",
            Linked::Answered => b"answered",
            Linked::Learned => b"learned",
            Linked::Conflict => b"conflict",
            Linked::BadArp => b"bad_arp",
            Linked::Packet { .. } | Linked::Elsewhere => b"none",
        }
    }
}

/// How many frames the link didn't give to the stack.
#[derive(Clone, Copy)]
pub(crate) struct LinkCounts {
    pub(crate) dropped: u64,
    pub(crate) handled: u64,
    pub(crate) answered: u64,
    pub(crate) learned: u64,
    pub(crate) conflicts: u64,
    pub(crate) bad_arp: u64,
}

impl LinkCounts {
    /// No frame came.
    pub(crate) fn new() -> LinkCounts {
        LinkCounts {
            dropped: 0,
            handled: 0,
            answered: 0,
            learned: 0,
            conflicts: 0,
            bad_arp: 0,
        }
    }

    /// Counts a frame.
    pub(crate) fn add(&mut self, linked: Linked) {
        match linked {
            Linked::OtherMac | Linked::OtherType | Linked::Martian => {
                self.dropped = self.dropped.saturating_add(1);
            }
            Linked::Echo | Linked::Error => self.handled = self.handled.saturating_add(1),
            Linked::Answered => self.answered = self.answered.saturating_add(1),
            Linked::Learned => self.learned = self.learned.saturating_add(1),
            Linked::Conflict => self.conflicts = self.conflicts.saturating_add(1),
            Linked::BadArp => self.bad_arp = self.bad_arp.saturating_add(1),
            Linked::Packet { .. } | Linked::Elsewhere => {}
        }
    }
}
