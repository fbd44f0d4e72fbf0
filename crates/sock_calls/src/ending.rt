//! Frees the contents of all queues.
ghost use Rattle.std.specs.Prelude.{[], ℕ};
ghost use Rattle.mbuf_chain.specs.Owners.{IsOwned, Moves};
ghost use Rattle.sockbuf.specs.SockBuf.{IsSockBuf};
ghost use Rattle.sock_calls.specs.Sockets.{AreEmpty, queue_at, queued_chains};

use crate::queues::ReceiveQueues;
use mbuf_chain::Pool;

/// Frees all queued datagrams.
pub(crate) fn flush_all(pool: &mut Pool, queues: &mut ReceiveQueues)
    requires each { (k : ℕ) → IsSockBuf pool.old (queue_at queues.old k) }
    requires owned { IsOwned pool.old (queued_chains pool.old queues.old) }
    ensures empty { AreEmpty queues.new }
    ensures moves { Moves pool.old (queued_chains pool.old queues.old) pool.new [] }
{
    let all = queues.len();
    'queues: for place in 0..all {
        queues.flush_at(pool, place);
    }
}
