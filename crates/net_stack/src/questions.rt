//! Queries of a stack. They change nothing, and aren't steps of the flat machine.
ghost use Rattle.std.specs.Prelude.{◌≡◌, ◌≤◌, drop, length, take, option_map, IfNone, IfOk, IfSome, OnErr};
ghost use Rattle.flat_model.specs.Machine.Count.{value_of};
ghost use Rattle.flat_model.specs.Machine.Event.{Receive};
ghost use Rattle.flat_model.specs.Machine.Replies.{received_reply, FitsRoom};
ghost use Rattle.mbuf_chain.specs.Heads.{nth_heads};
ghost use Rattle.ip_out.specs.Questions.{nth_packet, oldest_length};
ghost use Rattle.ip_reass.specs.Questions.{nth_range, nth_unfinished};
ghost use Rattle.sock_calls.specs.Questions.{bytes_queued_at, memory_queued_at, next_datagram, readable, receive_limit_at, socket_name};
ghost use Rattle.net_stack.specs.Questions.{WouldReply, chains_held, nth_references};
ghost use Rattle.net_stack.specs.Stack.{state_of};

use crate::peek::copy_oldest;
use crate::stack::Stack;
use flat_model::{Addr, Counter, Errno};
use ip_reass::{HeldRange, UnfinishedDatagram};
use mbuf_chain::MbufHeads;
use sock_calls::{NextDatagram, SocketName};

/// A holder of chains of mbufs. Each chain has one holder, and each mbuf that isn't free is in one chain.
#[derive(Clone, Copy, Debug, PartialEq, Eq)]
pub enum Holder {
    /// The receive queue of the socket with this descriptor: a chain for each queued datagram, the oldest first. Its
    /// first mbuf contains the sender's address (`so_rcv` of volume 2, chapter 16).
    Socket(u32),
    /// The output queue: a chain for each packet, the oldest first (`if_snd` of chapter 3).
    Output,
    /// The unfinished datagram at this index, from the oldest on: first the mbuf of its key, and then a chain for each
    /// fragment, in order of offset (`ipq` of chapter 10).
    Unfinished(u32),
}

impl Stack {
    /// The addresses that a socket is bound and connected to, also with a chosen port, and its options (`getsockname`,
    /// `getpeername` and `getsockopt` of volume 2, chapters 15 and 17). Error: `BadDescriptor`.
    pub fn socket_name(&self, fd: u32) -> Result<SocketName, Errno>
        ensures { result ≡ socket_name fd (state_of self.now) }
    {
        self.host.socks.name(fd)
    }

    /// The oldest datagram queued at a socket, which the next `recvfrom` returns: its sender, its length, and the
    /// number of queued datagrams. Use it to choose the length of a buffer. Errors, in this order: `BadDescriptor`;
    /// `WouldBlock` if no datagram is queued.
    pub fn next_datagram(&self, fd: u32) -> Result<NextDatagram, Errno>
        ensures { result ≡ next_datagram fd (state_of self.now) }
    {
        let host = self.host.as_ref();
        host.socks.next_datagram(&host.pool, fd)
    }

    /// Copies the oldest datagram queued at a socket to the front of `buffer`, as `recvfrom` does, and leaves it in the
    /// queue (MSG_PEEK of volume 2, chapter 16). Returns the sender and the number of bytes copied. The rest of
    /// `buffer` is unchanged.
    ///
    /// # Errors
    ///
    /// `BadDescriptor`; `WouldBlock` if no datagram is queued. Then `buffer` is unchanged.
    pub fn peek(&self, fd: u32, buffer: &mut [u8]) -> Result<(Addr, usize), Errno>
        ensures reply { WouldReply (state_of self.now) (Receive fd (length buffer.old))
            (received_reply result buffer.new) }
        ensures fits { FitsRoom result buffer.new }
        ensures same { OnErr result (buffer.new ≡ buffer.old) }
        ensures rest { IfOk result (λ got. drop got.1 buffer.new ≡ drop got.1 buffer.old) }
    {
        let host = self.host.as_ref();
        copy_oldest(&host.pool, &host.socks, fd, buffer)
    }

    /// The number of bytes queued at a socket, including 16 for each sender's address: 0 to 41,600, or to its limit. A
    /// datagram that exceeds that is dropped (`sb_cc` of volume 2, chapter 16). Error: `BadDescriptor`.
    pub fn bytes_queued(&self, fd: u32) -> Result<u32, Errno>
        ensures { result ≡ bytes_queued_at fd (state_of self.now) }
    {
        self.host.socks.bytes_queued(fd)
    }

    /// The set of sockets with a queued datagram: bit k is set if descriptor 3 + k has one. It takes one step for each
    /// of the 64 descriptors.
    pub fn readable(&self) -> u64
        ensures { result ≡ readable (state_of self.now) }
    {
        self.host.socks.readable()
    }

    /// The value of one counter since boot. It saturates at 2 to the 64th minus 1. It's the same field as in
    /// `counters`, without a copy of all of them.
    pub fn counter(&self, counter: Counter) -> u64
        ensures { result ≡ value_of counter (state_of self.now).counters }
    {
        self.host.net.counters.value(counter)
    }

    /// The length in bytes of the longest packet that the link takes, 68 to 4,352, from the configuration. A buffer of
    /// this length is enough for each `tx`.
    pub fn mtu(&self) -> u16
        ensures { result ≡ self.now.config.mtu }
    {
        self.config.mtu
    }

    /// The number of packets in the output queue, 0 to 50.
    pub fn output_len(&self) -> u32
        ensures { result ≡ length (state_of self.now).output }
    {
        self.host.net.out.len()
    }

    /// The length in bytes of the packet that the next `tx` returns, at most the MTU. `None` if the output queue is
    /// empty.
    pub fn next_packet(&self) -> Option<u32>
        ensures { result ≡ oldest_length (state_of self.now).output }
    {
        let host = self.host.as_ref();
        host.net.out.next_len(&host.pool)
    }

    /// Copies the packet at index `i` of the output queue to the front of `buffer`, and returns its length. `tx`
    /// returns the same bytes after the packets before it. `None` exactly if no more than `i` packets are queued. The
    /// rest of `buffer` is unchanged. `buffer` must be at least as long as the MTU, like that of `tx`. It takes one
    /// step for each packet before it.
    pub fn output_packet(&self, i: u32, buffer: &mut [u8]) -> Option<usize>
        requires { self.now.config.mtu ≤ length buffer.old }
        ensures packet { option_map (λ n. take n buffer.new) result ≡ nth_packet i (state_of self.now).output }
        ensures fits { IfSome result (λ n. n ≤ length buffer.new) }
        ensures same { IfNone result (buffer.new ≡ buffer.old) }
        ensures rest { IfSome result (λ n. drop n buffer.new ≡ drop n buffer.old) }
    {
        let host = self.host.as_ref();
        host.net.out.packet(&host.pool, i, buffer)
    }

    /// The number of unfinished datagrams, of which some fragments have arrived and others are missing.
    pub fn unfinished_len(&self) -> u32
        ensures { result ≡ length (state_of self.now).unfinished }
    {
        self.host.reass.len()
    }

    /// The unfinished datagram at index `i`, from the oldest on: its key, its remaining ticks, and its fragments.
    /// `None` exactly if no more than `i` are unfinished (`ip_reass` of volume 2, chapter 10).
    pub fn unfinished(&self, i: u32) -> Option<UnfinishedDatagram>
        ensures { result ≡ nth_unfinished i (state_of self.now).unfinished }
    {
        let host = self.host.as_ref();
        host.reass.unfinished(&host.pool, i)
    }

    /// The range of bytes at index `k`, in order of offset, that the unfinished datagram at index `i` holds. `None`
    /// exactly if there is no such datagram, or if it has no more than `k` ranges. It takes one step for each range
    /// before it.
    pub fn unfinished_range(&self, i: u32, k: u32) -> Option<HeldRange>
        ensures { result ≡ nth_range i k (state_of self.now).unfinished }
    {
        let host = self.host.as_ref();
        host.reass.range(&host.pool, i, k)
    }

    /// The memory of the datagrams queued at a socket, in bytes: 128 for each mbuf, and 2048 for each reference to a
    /// cluster (`sb_mbcnt` of volume 2, chapter 16). Error: `BadDescriptor`.
    pub fn memory_queued(&self, fd: u32) -> Result<u32, Errno>
        ensures { result ≡ memory_queued_at fd (state_of self.now) }
    {
        self.host.socks.memory_queued(fd)
    }

    /// The size in bytes that `set_receive_limit` has set for a socket's receive queue. 0: none is set, as for a new
    /// socket (`SO_RCVBUF` of `getsockopt`, volume 2, chapter 17). Error: `BadDescriptor`.
    pub fn receive_limit(&self, fd: u32) -> Result<u16, Errno>
        ensures { result ≡ receive_limit_at fd (state_of self.now) }
    {
        self.host.socks.receive_limit(fd)
    }

    /// The mbufs of a holder's chain at index `i`, in order, for drawing them: each one's head fields and its bytes,
    /// which aren't copied (volume 2, chapter 2). `None` exactly if it holds no more than `i` chains; a socket that
    /// isn't open and a datagram that doesn't exist hold none. It takes one step for each chain before it.
    pub fn heads(&self, holder: Holder, i: u32) -> Option<MbufHeads<'_>>
        ensures { result ≡ nth_heads self.now.pool (chains_held self.now holder) i }
    {
        let host = self.host.as_ref();
        match holder {
            Holder::Socket(fd) => host.socks.heads(&host.pool, fd, i),
            Holder::Output => host.net.out.heads(&host.pool, i),
            Holder::Unfinished(place) => host.reass.heads(&host.pool, place, i),
        }
    }

    /// The number of mbufs that refer to a cluster. `None` exactly if the pool has no such cluster; the first one is 0.
    pub fn references(&self, cluster: u32) -> Option<u32>
        ensures { result ≡ nth_references self.now.pool cluster }
    {
        if cluster < self.config.clusters {
            Some(self.host.pool.count(cluster))
        } else {
            None
        }
    }
}
