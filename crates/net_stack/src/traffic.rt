//! The calls that change all parts of the stack: a packet from the wire, and a send.
ghost use Rattle.std.specs.Prelude.{◌≡◌, ◌≤◌, length, IfSome};
ghost use Rattle.params.specs.declared.TheConstants.{IP_MAX_PACKET};
ghost use Rattle.flat_model.specs.Machine.Event.{Comes, Done, IsAddr, Send};
ghost use Rattle.flat_model.specs.Machine.Fate.{Fated};
ghost use Rattle.flat_model.specs.Machine.Replies.{sent_reply};
ghost use Rattle.flat_model.specs.Machine.Step.{Step};
ghost use Rattle.net_stack.specs.Stack.{state_of};

use crate::stack::Stack;
use flat_model::{Addr, Errno, Fate};

/// Returns the address unchanged. Its contract adds the ranges of its numbers, which a send of the flat machine has.
// The prover takes these ranges from an `Addr` that a body reads, but not from one in an `Option`. Hence the match.
fn with_range(to: Option<Addr>) -> Option<Addr>
    ensures same { result ≡ to }
    ensures range { IfSome result IsAddr }
{
    match to {
        Some(address) => Some(address),
        None => None,
    }
}

impl Stack {
    /// Receives a packet from the wire, which begins with its IP header and has fewer than 65,536 bytes. It's
    /// delivered, kept for the other fragments of its datagram, or dropped and counted for its cause (`ipintr` of
    /// volume 2, chapter 8). Bytes after the header's total length are ignored.
    ///
    /// If the pool has too few free buffers for the packet, all unfinished datagrams are dropped and the pool is tested
    /// again. If it still has too few, the packet is dropped and counted as `Nobufs`, but not as `IpTotal`.
    pub fn rx(&mut self, packet: &[u8])
        requires { length packet.now ≤ IP_MAX_PACKET }
        ensures { Step (state_of self.old) (Comes packet.now) Done (state_of self.new) }
    {
        self.host.receive(packet);
    }

    /// Does the same as `rx`, and returns the packet's fate: the sockets that got it and those that lost it, or
    /// that it's kept as a fragment, or the cause that it's dropped for.
    #[inline(always)]
    pub fn rx_told(&mut self, packet: &[u8]) -> Fate
        requires { length packet.now ≤ IP_MAX_PACKET }
        ensures step { Step (state_of self.old) (Comes packet.now) Done (state_of self.new) }
        ensures fate { Fated (state_of self.old) packet.now result (state_of self.new) }
    {
        let host = self.host.as_mut();
        let ending = host.receive(packet);
        host.fate(ending)
    }

    /// Sends a datagram to an address, or to the peer if `to` is `None`, and returns its length (`sosend`, `udp_output`
    /// and `ip_output` of volume 2, chapters 16, 23 and 8). Packets to this machine arrive before the call returns, one
    /// after another. A broadcast goes to the link, and a copy of it arrives too.
    ///
    /// # Errors
    ///
    /// Tested in this order, and nothing changes: `BadDescriptor`; `DestinationRequired` without an address on an
    /// unconnected socket; `MessageSize` above 9,216 bytes; `IsConnected` with an address on a connected socket;
    /// `AddressNotAvailable` for port 0; `HostUnreachable`; `AddressInUse`; `Access` for the broadcast address without
    /// the option; `MessageSize` for a broadcast that is longer than the link's packets.
    ///
    /// Then `NoBufs(Pool)` if the pool has too few free buffers: all unfinished datagrams are dropped first, and it's
    /// tested again. Then `NoBufs(Queue)` if the output queue can't take all packets: those that fit are sent, and the
    /// port and the identification are used up.
    pub fn sendto(&mut self, fd: u32, to: Option<Addr>, bytes: &[u8]) -> Result<usize, Errno>
        ensures { Step (state_of self.old) (Send fd to bytes.now) (sent_reply result) (state_of self.new) }
    {
        let to = with_range(to);
        self.host.send(fd, to, bytes)
    }
}
