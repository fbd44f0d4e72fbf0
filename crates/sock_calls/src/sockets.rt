//! Sockets: control blocks and receive queues.
ghost use Rattle.std.specs.Prelude.{◌≡◌, ◌<◌, ◌+◌, [], None, drop, length, IfOk, IsOk, OnErr};
ghost use Rattle.flat_model.specs.Machine.Event.{Open, Bind, Close, Connect, Receive, Set_limit, Set_option};
ghost use Rattle.flat_model.specs.Machine.State.{State};
ghost use Rattle.flat_model.specs.Machine.Step.{Step};
ghost use Rattle.flat_model.specs.Machine.Replies.{opened_reply, done_reply, received_reply, FitsRoom};
ghost use Rattle.mbuf_chain.specs.Chain.{PoolView};
ghost use Rattle.mbuf_chain.specs.Heads.{nth_heads};
ghost use Rattle.mbuf_chain.specs.Owners.{Moves};
ghost use Rattle.pcb_table.specs.Table.{IsDescriptor};
ghost use Rattle.sockbuf.specs.SockBuf.{chains_of};
ghost use Rattle.sock_calls.specs.Outgoing.{sending, CanSend, IsSent};
ghost use Rattle.sock_calls.specs.Questions.{bytes_queued_at, memory_queued_at, next_datagram, readable, receive_limit_at, socket_name};
ghost use Rattle.sock_calls.specs.Sockets.{AreEmpty, IsSocks, IsCalled, queue_at, queued_chains, with_sockets};

use crate::ending::flush_all;
use crate::net::Net;
use crate::parts::Parts;
use crate::questions::{
    NextDatagram, SocketName, bytes_at, heads_at, limit_of, memory_at, name_of, next_at, readable,
};
use crate::queues::ReceiveQueues;
use crate::receive::refusal;
use arrayvec::ArrayVec;
use flat_model::{Addr, Errno, Opt};
use mbuf_chain::{MbufHeads, Pool};
use params::{FIRST_DESCRIPTOR, MAX_SOCKETS};
use pcb_table::{Pcbs, SOCKETS};
use std::alloc::{AllocError, Global};
use std::marker::Model;

/// The index of a descriptor's queue.
pub(crate) fn place_of(fd: u32) -> usize
    requires { IsDescriptor fd }
    ensures value { result + FIRST_DESCRIPTOR ≡ fd }
    ensures within { result < MAX_SOCKETS }
{
    (fd - FIRST_DESCRIPTOR) as usize
}

/// Up to 64 sockets: their control blocks, and the receive queue of each descriptor. It must be consumed, by `end`.
pub struct Socks {
    pub(crate) parts: Parts,
    // the descriptors of the sockets that match a datagram; kept here, so that no datagram needs an array of its own
    pub(crate) matching: ArrayVec<u32, SOCKETS>,
}

impl Model for Socks {
    ghost use Rattle.sock_calls.specs.Sockets.{SocksView};
    ghost use Rattle.sock_calls.specs.Inside.Parts.{socks_of};

    ghost Value = { SocksView };

    ghost view = { λ s. socks_of s.parts };
}

impl Socks {
    /// Creates it without sockets, for a machine with this address and broadcast address. Control blocks and queues are
    /// arrays in the value itself, and queued datagrams are in the pool, so it allocates nothing and always returns
    /// `Ok`.
    pub fn boot(_alloc: Global, addr: u32, bcast: u32) -> Result<Socks, AllocError>
        ensures ok { IsOk result }
        ensures blocks { IfOk result (λ s. s.pcbs
            ≡ record { addr = addr; bcast = bcast; blocks = []; last_port = None }) }
        ensures ready { IfOk result (λ s. (p : PoolView) → IsSocks p s) }
        ensures empty { IfOk result (λ s. AreEmpty s.queues) }
    {
        let parts = Parts {
            pcbs: Pcbs::new(addr, bcast),
            queues: ReceiveQueues::new(),
        };
        Ok(Socks {
            parts,
            matching: ArrayVec::new(),
        })
    }

    /// The control blocks.
    pub fn pcbs(&self) -> &Pcbs
        ensures { result.now ≡ self.now.pcbs }
    {
        &self.parts.pcbs
    }

    /// The addresses that a socket is bound and connected to, and its options (`getsockname`, `getpeername` and
    /// `getsockopt` of volume 2, chapters 15 and 17). Error: `BadDescriptor`.
    pub fn name(&self, fd: u32) -> Result<SocketName, Errno>
        ensures { (p : PoolView) (rest : State) → result ≡ socket_name fd (with_sockets p self.now rest) }
    {
        name_of(&self.parts.pcbs, fd)
    }

    /// The oldest datagram queued at a socket: its sender, its length, and the number of queued datagrams. It changes
    /// nothing. Errors, in this order: `BadDescriptor`; `WouldBlock` if none is queued.
    pub fn next_datagram(&self, pool: &Pool, fd: u32) -> Result<NextDatagram, Errno>
        requires { IsSocks pool.now self.now }
        ensures { (rest : State) → result ≡ next_datagram fd (with_sockets pool.now self.now rest) }
    {
        match self.parts.pcbs.block(fd) {
            Some(_) => next_at(pool, self.parts.queues.as_slice(), place_of(fd)),
            None => Err(Errno::BadDescriptor),
        }
    }

    /// The number of bytes queued at a socket, including 16 for each sender's address, 0 to 65,535 (`sb_cc` of volume
    /// 2, chapter 16). It changes nothing. The number of steps doesn't depend on the queue. Error: `BadDescriptor`.
    pub fn bytes_queued(&self, fd: u32) -> Result<u32, Errno>
        ensures { (p : PoolView) (rest : State) → IsSocks p self.now
            → result ≡ bytes_queued_at fd (with_sockets p self.now rest) }
    {
        match self.parts.pcbs.block(fd) {
            Some(_) => Ok(bytes_at(self.parts.queues.as_slice(), place_of(fd))),
            None => Err(Errno::BadDescriptor),
        }
    }

    /// The memory of the datagrams queued at a socket, in bytes: 128 for each mbuf, and 2048 for each reference to a
    /// cluster (`sb_mbcnt` of volume 2, chapter 16). It changes nothing. The number of steps doesn't depend on the
    /// queue. Error: `BadDescriptor`.
    pub fn memory_queued(&self, fd: u32) -> Result<u32, Errno>
        ensures { (p : PoolView) (rest : State) → IsSocks p self.now
            → result ≡ memory_queued_at fd (with_sockets p self.now rest) }
    {
        match self.parts.pcbs.block(fd) {
            Some(_) => Ok(memory_at(self.parts.queues.as_slice(), place_of(fd))),
            None => Err(Errno::BadDescriptor),
        }
    }

    /// The size in bytes that a program has chosen for a socket's receive queue, or 0 (`sb_hiwat` of volume 2, chapter
    /// 16). It changes nothing. Error: `BadDescriptor`.
    pub fn receive_limit(&self, fd: u32) -> Result<u16, Errno>
        ensures { (p : PoolView) (rest : State) → result ≡ receive_limit_at fd (with_sockets p self.now rest) }
    {
        limit_of(&self.parts.pcbs, fd)
    }

    /// The mbufs of the datagram at index `i` in a socket's queue, in order, for drawing them: each one's head fields
    /// and its bytes. The first contains the sender's address. `None` exactly if no more than `i` datagrams are queued,
    /// also if the socket isn't open. It takes one step for each datagram before it.
    pub fn heads<'a>(&self, pool: &'a Pool, fd: u32, i: u32) -> Option<MbufHeads<'a>>
        requires { IsSocks pool.now self.now }
        ensures { result ≡ nth_heads pool.now (chains_of pool.now (queue_at self.now.queues fd)) i }
    {
        match self.parts.pcbs.block(fd) {
            Some(_) => heads_at(pool, self.parts.queues.as_slice(), place_of(fd), i),
            None => None,
        }
    }

    /// The set of sockets with a queued datagram: bit k is set if descriptor 3 + k has one. It takes one step for each
    /// of the 64 descriptors.
    pub fn readable(&self) -> u64
        ensures { (p : PoolView) (rest : State) → IsSocks p self.now
            → result ≡ readable (with_sockets p self.now rest) }
    {
        readable(self.parts.queues.as_slice())
    }

    /// Opens a socket, with the lowest free descriptor from 3 to 66 (volume 2 chapter 15).
    ///
    /// # Errors
    ///
    /// `TooManyFiles` if 64 are open. Nothing changes then.
    pub fn socket(&mut self) -> Result<u32, Errno>
        ensures { (p : PoolView) → IsSocks p self.old → IsCalled p self.old Open (opened_reply result) self.new }
    {
        let opened = self.parts.pcbs.open();
        self.parts.pcbs.laws();
        opened
    }

    /// Binds an unbound socket: sets its local address, unless that is 0.0.0.0, and its port. Port 0 chooses an
    /// ephemeral port (volume 2 chapter 22).
    ///
    /// # Errors
    ///
    /// Those of [`Pcbs::bind`](pcb_table::Pcbs::bind), in its order. On an error, nothing changes.
    pub fn bind(&mut self, fd: u32, local: Addr) -> Result<(), Errno>
        ensures { (p : PoolView) → IsSocks p self.old
            → IsCalled p self.old (Bind fd local) (done_reply result) self.new }
    {
        let done = self.parts.pcbs.bind(fd, local);
        self.parts.pcbs.laws();
        done
    }

    /// Connects a socket (volume 2 chapter 22). A connected socket is disconnected first, and stays so on error.
    ///
    /// # Errors
    ///
    /// Those of [`Pcbs::connect`](pcb_table::Pcbs::connect), in its order.
    pub fn connect(&mut self, fd: u32, to: Addr) -> Result<(), Errno>
        ensures { (p : PoolView) → IsSocks p self.old
            → IsCalled p self.old (Connect fd to) (done_reply result) self.new }
    {
        let done = self.parts.pcbs.connect(fd, to);
        self.parts.pcbs.laws();
        done
    }

    /// Sets or clears an option (volume 2 chapter 17). Error: `BadDescriptor`; nothing changes then.
    pub fn setsockopt(&mut self, fd: u32, option: Opt, on: bool) -> Result<(), Errno>
        ensures { (p : PoolView) → IsSocks p self.old
            → IsCalled p self.old (Set_option fd option on) (done_reply result) self.new }
    {
        let done = self.parts.pcbs.set_option(fd, option, on);
        self.parts.pcbs.laws();
        done
    }

    /// Sets the size in bytes of a socket's receive queue; 0 is no size of its own (`sbreserve` of volume 2, chapter
    /// 16). The queue keeps its datagrams. Error: `BadDescriptor`; nothing changes then.
    pub fn set_limit(&mut self, fd: u32, limit: u16) -> Result<(), Errno>
        ensures { (p : PoolView) → IsSocks p self.old
            → IsCalled p self.old (Set_limit fd limit) (done_reply result) self.new }
    {
        let done = self.parts.pcbs.set_limit(fd, limit);
        self.parts.pcbs.laws();
        done
    }

    /// Sends bytes to an address, or to the socket's peer if `to` is `None`, and returns their number (`sosend`,
    /// `udp_output` and `ip_output` of volume 2, chapters 16, 23 and 8). Packets that this machine receives too are put
    /// into `net.looped`, which must be empty before. The MTU must be at least 68, and the machine's two addresses must
    /// differ, with a broadcast address that isn't 127.0.0.1. The bytes are copied once. A socket without a port gets
    /// an ephemeral one, the identification goes up, and the send is counted.
    ///
    /// # Errors
    ///
    /// Tested in this order, and nothing changes: `BadDescriptor`; `DestinationRequired` without an address and a peer;
    /// `MessageSize` above 9,216 bytes; if an address is given, `IsConnected`, `AddressNotAvailable` for port 0,
    /// `HostUnreachable`, and `AddressInUse` if another socket has the same four values; `Access` for the broadcast
    /// address without the option; `MessageSize` for a broadcast that needs fragments; `NoBufs` of the pool if it has
    /// too few free buffers for all packets. No buffer is freed for them.
    ///
    /// After these tests, `NoBufs` of the queue means that the output queue couldn't take all packets: the first ones
    /// are queued, and packets for this machine arrive.
    #[inline(always)]
    pub fn sendto(
        &mut self,
        pool: &mut Pool,
        net: &mut Net,
        fd: u32,
        to: Option<Addr>,
        bytes: &[u8],
    ) -> Result<usize, Errno>
        requires { CanSend (sending pool.old self.old net.old) }
        ensures { IsSent fd to bytes.now (sending pool.old self.old net.old) result
            (sending pool.new self.new net.new) }
    {
        if self.parts.send_one(pool, net, fd, to, bytes) {
            return Ok(bytes.len());
        }
        self.resend(pool, net, fd, to, bytes)
    }

    /// `sendto` by the general path only, for a send that is repeated after buffers were freed. It's a call of its own,
    /// so that the short path of `sendto`, which is inlined, is compiled once.
    pub fn resend(
        &mut self,
        pool: &mut Pool,
        net: &mut Net,
        fd: u32,
        to: Option<Addr>,
        bytes: &[u8],
    ) -> Result<usize, Errno>
        requires { CanSend (sending pool.old self.old net.old) }
        ensures { IsSent fd to bytes.now (sending pool.old self.old net.old) result
            (sending pool.new self.new net.new) }
    {
        self.parts.send_any(pool, net, fd, to, bytes)
    }

    /// Removes the oldest datagram from a socket's queue, copies the bytes that fit into `buffer`, and returns the
    /// sender and the number of bytes copied. The other bytes are lost, and all its buffers are freed (`soreceive` of
    /// volume 2, chapter 16). The rest of `buffer` is unchanged. It never blocks.
    ///
    /// # Errors
    ///
    /// `BadDescriptor`; `WouldBlock` if no datagram is queued. Nothing changes then, nor does `buffer`.
    pub fn recvfrom(
        &mut self,
        pool: &mut Pool,
        fd: u32,
        buffer: &mut [u8],
    ) -> Result<(Addr, usize), Errno>
        requires ready { IsSocks pool.old self.old }
        ensures step { (rest : State) → Step (with_sockets pool.old self.old rest) (Receive fd (length buffer.old))
            (received_reply result buffer.new) (with_sockets pool.new self.new rest) }
        ensures fits { FitsRoom result buffer.new }
        ensures same { OnErr result (buffer.new ≡ buffer.old) }
        ensures rest { IfOk result (λ r. drop r.1 buffer.new ≡ drop r.1 buffer.old) }
        ensures ready { IsSocks pool.new self.new }
        ensures moves { Moves pool.old (queued_chains pool.old self.old.queues)
            pool.new (queued_chains pool.new self.new.queues) }
    {
        self.parts.pcbs.laws();
        if fd < FIRST_DESCRIPTOR || fd >= FIRST_DESCRIPTOR + MAX_SOCKETS {
            return Err(Errno::BadDescriptor);
        }
        // only an open socket has a queued datagram, so this is tested only if the queue is empty
        match self.parts.queues.take_at(pool, place_of(fd), buffer) {
            Some(taken) => Ok(taken),
            None => Err(refusal(&self.parts.pcbs, fd)),
        }
    }

    /// Closes a socket, and frees the datagrams in its queue. Packets that it sent stay in the output queue (volume 2
    /// chapter 15). Error: `BadDescriptor`; nothing changes then.
    pub fn close(&mut self, pool: &mut Pool, fd: u32) -> Result<(), Errno>
        requires ready { IsSocks pool.old self.old }
        ensures step { (rest : State) → Step (with_sockets pool.old self.old rest) (Close fd) (done_reply result)
            (with_sockets pool.new self.new rest) }
        ensures ready { IsSocks pool.new self.new }
        ensures moves { Moves pool.old (queued_chains pool.old self.old.queues)
            pool.new (queued_chains pool.new self.new.queues) }
    {
        if let Err(errno) = self.parts.pcbs.close(fd) {
            return Err(errno);
        }
        self.parts.pcbs.laws();
        self.parts.queues.flush_at(pool, place_of(fd));
        Ok(())
    }

    /// Frees all queued datagrams, so that `end_empty` may be called. The control blocks are unchanged.
    pub fn flush(&mut self, pool: &mut Pool)
        requires { IsSocks pool.old self.old }
        ensures empty { AreEmpty self.new.queues }
        ensures blocks { self.new.pcbs ≡ self.old.pcbs }
        ensures moves { Moves pool.old (queued_chains pool.old self.old.queues) pool.new [] }
    {
        flush_all(pool, &mut self.parts.queues);
    }

    /// Consumes sockets whose queues are empty.
    pub fn end_empty(self)
        requires { AreEmpty self.queues }
    {
        let Socks { parts, matching: _ } = self;
        let Parts { pcbs: _, queues } = parts;
        queues.end_empty();
    }

    /// Frees all queued datagrams, and consumes the sockets.
    pub fn end(self, pool: &mut Pool)
        requires { IsSocks pool.old self }
        ensures { Moves pool.old (queued_chains pool.old self.queues) pool.new [] }
    {
        let mut socks = self;
        socks.flush(pool);
        socks.end_empty();
    }
}
