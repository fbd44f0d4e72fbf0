//! Receiving: copies the oldest datagram of a queue out.
ghost use Rattle.std.specs.Prelude.{◌≡◌, ◌<◌, ◌≤◌, [], drop, length, is_some, if◌then◌else◌, IfNone, IfSome, MatchOption, ℕ};
ghost use Rattle.flat_model.specs.declared.errno.Errno.TheVariants.{BadDescriptor, WouldBlock};
ghost use Rattle.mbuf_chain.specs.Owners.{IsOwned, Moves};
ghost use Rattle.pcb_table.specs.Table.{block_at};
ghost use Rattle.sockbuf.specs.SockBuf.{IsSockBuf, chains_of, datagrams};
ghost use Rattle.sock_calls.specs.Sockets.{CopiesOldest, TakesAt, queue_at, queues_of, queued_chains};

use crate::queues::ReceiveQueues;
use chain_ops::m_copydata;
use flat_model::{Addr, Errno};
use mbuf_chain::Pool;
use params::{MAX_SOCKETS, SOCKADDR_BYTES};
use pcb_table::Pcbs;
use sockbuf::SockBuf;

/// Removes the oldest datagram of a queue, and copies the bytes that fit into `buffer`; the others are lost.
/// Returns the sender and the number of bytes copied; `None` if the queue is empty.
fn take_oldest(pool: &mut Pool, queue: &mut SockBuf, buffer: &mut [u8]) -> Option<(Addr, usize)>
    requires ready { IsSockBuf pool.old queue.old }
    ensures taken { CopiesOldest (datagrams pool.old queue.old) (datagrams pool.new queue.new) (length buffer.old)
        result buffer.new }
    ensures within { MatchOption result (Unit {0}) (λ found. found.1 ≤ length buffer.new) }
    ensures same { IfNone result (buffer.new ≡ buffer.old) }
    ensures rest { IfSome result (λ found. drop found.1 buffer.new ≡ drop found.1 buffer.old) }
    ensures ready { IsSockBuf pool.new queue.new }
    ensures moves { Moves pool.old (chains_of pool.old queue.old) pool.new (chains_of pool.new queue.new) }
{
    // The chain has lost its packet header, so its own length would take a walk.
    let before = queue.cc();
    let (sender, chain) = queue.take(pool)?;
    let size = before - queue.cc() - SOCKADDR_BYTES;
    let len = (size as usize).min(buffer.len());
    m_copydata(pool, &chain, 0, &mut buffer[..len]);
    pool.free_chain(chain);
    Some((sender, len))
}

/// The error of a receive from a descriptor whose queue is empty.
pub(crate) fn refusal(pcbs: &Pcbs, fd: u32) -> Errno
    ensures { result ≡ (if is_some (block_at fd pcbs.now) then WouldBlock else BadDescriptor) }
{
    if pcbs.block(fd).is_some() {
        Errno::WouldBlock
    } else {
        Errno::BadDescriptor
    }
}

impl ReceiveQueues {
    /// `take_oldest` of the queue at index `place`, which is 0 for descriptor 3.
    pub(crate) fn take_at(
        &mut self,
        pool: &mut Pool,
        place: usize,
        buffer: &mut [u8],
    ) -> Option<(Addr, usize)>
        requires each { (k : ℕ) → IsSockBuf pool.old (queue_at self.old k) }
        requires owned { IsOwned pool.old (queued_chains pool.old self.old) }
        requires place { place < MAX_SOCKETS }
        ensures takes { TakesAt pool.old self.old place pool.new self.new }
        ensures taken { CopiesOldest (queues_of pool.old self.old place) (queues_of pool.new self.new place)
            (length buffer.old) result buffer.new }
        ensures within { MatchOption result (Unit {0}) (λ found. found.1 ≤ length buffer.new) }
        ensures same { IfNone result (buffer.new ≡ buffer.old) }
        ensures rest { IfSome result (λ found. drop found.1 buffer.new ≡ drop found.1 buffer.old) }
    {
        take_oldest(pool, &mut self.queues[place], buffer)
    }

    /// Frees all datagrams in the queue at index `place`.
    pub(crate) fn flush_at(&mut self, pool: &mut Pool, place: usize)
        requires each { (k : ℕ) → IsSockBuf pool.old (queue_at self.old k) }
        requires owned { IsOwned pool.old (queued_chains pool.old self.old) }
        requires place { place < MAX_SOCKETS }
        ensures takes { TakesAt pool.old self.old place pool.new self.new }
        ensures empty { queues_of pool.new self.new place ≡ [] }
    {
        self.queues[place].flush(pool);
    }
}
