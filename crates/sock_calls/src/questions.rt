//! Queries of the sockets. They change nothing.
ghost use Rattle.std.specs.Prelude.{◌≡◌, ◌<◌, length, ℕ};
ghost use Rattle.flat_model.specs.Sockets.Fits as flat;
ghost use Rattle.mbuf_chain.specs.Chain.{PoolView};
ghost use Rattle.mbuf_chain.specs.Heads.{nth_heads};
ghost use Rattle.pcb_table.specs.Table.{block_at};
ghost use Rattle.sockbuf.specs.SockBuf.{IsSockBuf, chains_of};
ghost use Rattle.sock_calls.specs.Questions.{set_below, oldest_datagram};
ghost use Rattle.sock_calls.specs.Inside.Asked.{limit_of_block, name_of_block, waits_at};
ghost use Rattle.sock_calls.specs.Sockets.{queue_at, queues_of};

use crate::queues::QUEUES;
use flat_model::{Addr, Errno};
use mbuf_chain::{MbufHeads, Pool};
use params::MAX_SOCKETS;
use pcb_table::Pcbs;
use sockbuf::SockBuf;

/// The addresses that an open socket is bound and connected to, and its options: the results of `getsockname`,
/// `getpeername` and `getsockopt` (volume 2, chapters 15 and 17).
#[derive(Clone, Copy, Debug, PartialEq, Eq)]
pub struct SocketName {
    /// The local address. If it's unset, the socket receives packets to each address of the machine.
    pub local: Option<u32>,
    /// The local port, if one was given or chosen.
    pub port: Option<u16>,
    /// The peer of a connected socket.
    pub peer: Option<Addr>,
    /// Whether the socket may send to the broadcast address (SO_BROADCAST).
    pub broadcast: bool,
    /// Whether other sockets with this option may bind to the same address and port (SO_REUSEPORT).
    pub reuse_port: bool,
}

/// The oldest datagram queued at a socket, which the next `recvfrom` returns.
#[derive(Clone, Copy, Debug, PartialEq, Eq)]
pub struct NextDatagram {
    /// The sender.
    pub sender: Addr,
    /// Its length in bytes, 0 to 65,507. A `recvfrom` with a shorter buffer loses the rest.
    pub len: u32,
    /// The number of queued datagrams, including this one.
    pub waiting: u32,
}

/// The name of a descriptor's socket.
pub(crate) fn name_of(pcbs: &Pcbs, fd: u32) -> Result<SocketName, Errno>
    ensures { result ≡ name_of_block (block_at fd pcbs.now) }
{
    match pcbs.block(fd) {
        Some(block) => Ok(SocketName {
            local: block.local,
            port: block.port,
            peer: block.peer,
            broadcast: block.broadcast,
            reuse_port: block.reuse_port,
        }),
        None => Err(Errno::BadDescriptor),
    }
}

/// The size in bytes that a program has chosen for a descriptor's receive queue, or 0.
pub(crate) fn limit_of(pcbs: &Pcbs, fd: u32) -> Result<u16, Errno>
    ensures { result ≡ limit_of_block (block_at fd pcbs.now) }
{
    match pcbs.block(fd) {
        Some(block) => Ok(block.receive_limit),
        None => Err(Errno::BadDescriptor),
    }
}

/// The oldest datagram of the queue at index `place`.
pub(crate) fn next_at(pool: &Pool, queues: &[SockBuf], place: usize) -> Result<NextDatagram, Errno>
    requires each { (k : ℕ) → IsSockBuf pool.now (queue_at queues.now k) }
    requires place { place < length queues.now }
    ensures { result ≡ oldest_datagram (queues_of pool.now queues.now place) }
{
    let queue = &queues[place];
    match queue.oldest(pool) {
        Some((sender, len)) => Ok(NextDatagram {
            sender,
            len,
            waiting: queue.len(),
        }),
        None => Err(Errno::WouldBlock),
    }
}

/// The number of bytes in the queue at index `place`, including the senders' addresses.
pub(crate) fn bytes_at(queues: &[SockBuf], place: usize) -> u32
    requires { place < length queues.now }
    ensures { (p : PoolView) → IsSockBuf p (queue_at queues.now place)
        → result ≡ flat.bytes_queued (queues_of p queues.now place) }
{
    queues[place].cc()
}

/// The memory in bytes of the datagrams in the queue at index `place`.
pub(crate) fn memory_at(queues: &[SockBuf], place: usize) -> u32
    requires { place < length queues.now }
    ensures { (p : PoolView) → IsSockBuf p (queue_at queues.now place)
        → result ≡ flat.memory_queued (queues_of p queues.now place) }
{
    queues[place].mbcnt()
}

/// The mbufs of a datagram in the queue at index `place`.
pub(crate) fn heads_at<'a>(
    pool: &'a Pool,
    queues: &[SockBuf],
    place: usize,
    i: u32,
) -> Option<MbufHeads<'a>>
    requires each { (k : ℕ) → IsSockBuf pool.now (queue_at queues.now k) }
    requires place { place < length queues.now }
    ensures { result ≡ nth_heads pool.now (chains_of pool.now (queue_at queues.now place)) i }
{
    queues[place].heads(pool, i)
}

/// The set of queues that aren't empty: bit k is set if the queue at index k isn't.
pub(crate) fn readable(queues: &[SockBuf]) -> u64
    requires { length queues.now ≡ MAX_SOCKETS }
    ensures { (p : PoolView) → ((k : ℕ) → IsSockBuf p (queue_at queues.now k))
        → result ≡ set_below (waits_at p queues.now) MAX_SOCKETS }
{
    let mut set = 0;
    'places: for place in 0..QUEUES {
        if !queues[place].is_empty() {
            set += 1u64 << place;
        }
    }
    set
}
