//! How much of a receive queue is used.
ghost use Rattle.std.specs.Prelude.{◌≡◌, ◌*◌, ◌≤◌, length};
ghost use Rattle.flat_model.specs.Sockets.Fits as Fits;
ghost use Rattle.flat_plain.specs.Queues.{plain_queue};

use params::{MCLBYTES, MSIZE, SOCKADDR_BYTES, UDP_RECEIVE_MEMORY, UDP_RECEIVE_SPACE};

/// A datagram in a receive queue, by its sizes. The mbuf for the sender's address counts too.
#[derive(Clone, Copy, Debug, PartialEq, Eq)]
pub struct Waiting {
    /// Its length in bytes.
    pub len: u16,
    /// The number of its mbufs.
    pub mbufs: u16,
    /// The number of its mbufs that refer to clusters.
    pub references: u16,
}

fn bytes_queued(queue: &[Waiting]) -> u64
    requires { length queue.now ≤ 65536 }
    ensures value { result ≡ Fits.bytes_queued (plain_queue queue.now) }
    ensures most { result ≤ 65551 * length queue.now }
{
    match queue {
        [] => 0,
        [datagram, rest @ ..] => SOCKADDR_BYTES as u64 + datagram.len as u64 + bytes_queued(rest),
    }
}

fn memory_queued(queue: &[Waiting]) -> u64
    requires { length queue.now ≤ 65536 }
    ensures value { result ≡ Fits.memory_queued (plain_queue queue.now) }
    ensures most { result ≤ 150000000 * length queue.now }
{
    match queue {
        [] => 0,
        [datagram, rest @ ..] => MSIZE as u64 * datagram.mbufs as u64
            + MCLBYTES as u64 * datagram.references as u64
            + memory_queued(rest),
    }
}

/// Returns whether a datagram of `n` bytes that takes `memory` bytes fits into the queue, which has this limit.
pub fn fits(limit: u16, queue: &[Waiting], n: u16, memory: u32) -> bool
    requires { length queue.now ≤ 65536 }
    ensures { result ≡ Fits.fits limit (plain_queue queue.now) n memory }
{
    let added = SOCKADDR_BYTES as u64 + n as u64;
    if limit == 0 {
        return added + bytes_queued(queue) <= UDP_RECEIVE_SPACE as u64
            && added + memory_queued(queue) <= UDP_RECEIVE_MEMORY as u64;
    }
    added + bytes_queued(queue) <= limit as u64
        && MSIZE as u64 + memory as u64 + memory_queued(queue) <= 2 * limit as u64
}
