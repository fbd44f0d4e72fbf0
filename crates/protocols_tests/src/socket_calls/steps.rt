//! Calls on a host with their expected results, and the loop that makes them.
use super::host::Host;
use flat_model::{Addr, Errno};
use std::alloc::Global;
use std::process::Abort;

/// A call on a host, and its result.
pub(super) enum Step {
    Socket(Result<u32, Errno>),
    /// Sockets are opened up to this descriptor, from 3 on.
    Sockets(u32),
    /// A descriptor, an address and a port.
    Bind(u32, u32, u16, Result<(), Errno>),
    Connect(u32, u32, u16, Result<(), Errno>),
    Close(u32, Result<(), Errno>),
    /// A descriptor, the destination, and the bytes.
    Send(u32, Option<Addr>, &'static [u8], Result<usize, Errno>),
    /// Nothing is received, for this cause.
    Receive(u32, Errno),
    /// The packet that has waited longest is sent.
    Tx(&'static [u8]),
    /// How many mbufs are free.
    Free(u32),
}

use Step::{Bind, Close, Connect, Free, Receive, Send, Socket, Sockets, Tx};

fn opens(host: &mut Host, last: u32) -> bool {
    for fd in 3..last {
        if host.socket() != Ok(fd) {
            return false;
        }
    }
    host.socket() == Ok(last)
}

fn goes_out(rt: &impl Abort, host: &mut Host, packet: &[u8]) -> bool {
    let mut buffer = [0; 30];
    host.tx(rt, &mut buffer) == Some(packet.len()) && buffer.as_slice() == packet
}

/// Whether the call returns its expected result.
fn answers(rt: &impl Abort, host: &mut Host, step: &Step) -> bool {
    match step {
        Socket(want) => host.socket() == *want,
        Sockets(last) => opens(host, *last),
        Bind(fd, ip, port, want) => host.bind(*fd, *ip, *port) == *want,
        Connect(fd, ip, port, want) => host.connect(*fd, *ip, *port) == *want,
        Close(fd, want) => host.close(*fd) == *want,
        Send(fd, to, bytes, want) => host.sendto(rt, *fd, *to, bytes) == *want,
        Receive(fd, cause) => host.recvfrom(*fd) == Some(*cause),
        Tx(packet) => goes_out(rt, host, packet),
        Free(mbufs) => host.free_mbufs() == *mbufs,
    }
}

/// Makes these calls on a host with eight mbufs and a cluster, and ends it. If a call returns another result, the row
/// of that call is reported, from 0 on. Returns whether the pool is as it was.
pub(super) fn play(rt: &impl Abort, alloc: Global, case: &str, steps: &[Step]) -> bool {
    let mut host = Host::boot(rt, alloc, 8, 1);
    for (row, step) in steps.iter().enumerate() {
        assert!(rt; answers(rt, &mut host, step), "{case}: row {row}");
    }
    host.end()
}
