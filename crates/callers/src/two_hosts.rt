//! Two hosts on one wire, and a datagram from the first to the second.
use flat_model::{Addr, Config};
use segment::Segment;
use std::alloc::Global;

/// The host 10.0.0.1 of the network 10.0.0.0/24.
const FIRST: Config = Config {
    addr: 0x0a00_0001,
    bcast: 0x0a00_00ff,
    mtu: 1500,
    mbufs: 64,
    clusters: 8,
    first_id: 1,
};

/// The host 10.0.0.2.
const SECOND: Config = Config {
    addr: 0x0a00_0002,
    bcast: 0x0a00_00ff,
    mtu: 1500,
    mbufs: 64,
    clusters: 8,
    first_id: 1,
};

/// Sends bytes from the first host to port 7 of the second, and delivers the packets. Returns how many bytes arrived;
/// they are at the front of `buffer`. Returns `None` if a host is missing, or a call fails.
fn send(segment: &mut Segment, bytes: &[u8], buffer: &mut [u8]) -> Option<usize> {
    let second = segment.stack(1)?;
    let receiver = second.socket().ok()?;
    second.bind(receiver, Addr { ip: 0, port: 7 }).ok()?;
    let first = segment.stack(0)?;
    let sends = first.socket().ok()?;
    let to = Addr {
        ip: SECOND.addr,
        port: 7,
    };
    first.sendto(sends, Some(to), bytes).ok()?;
    segment.carry();
    let (_, len) = segment.stack(1)?.recvfrom(receiver, buffer).ok()?;
    Some(len)
}

/// Joins both hosts, sends the bytes, and ends the segment. A segment must be consumed by `end`, so the calls that may
/// fail are in a function of their own, which borrows it.
pub fn exchange(alloc: Global, bytes: &[u8], buffer: &mut [u8]) -> Option<usize> {
    let mut segment = Segment::new(alloc, 100).ok()?;
    let joined = segment.join(alloc, FIRST).is_ok() && segment.join(alloc, SECOND).is_ok();
    let came = if joined {
        send(&mut segment, bytes, buffer)
    } else {
        None
    };
    segment.end();
    came
}
