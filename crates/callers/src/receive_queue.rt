//! A datagram that is queued for a socket.
ghost use Rattle.std.specs.Prelude.{◌≡◌};
ghost use Rattle.mbuf_chain.specs.Chain.{IsLive};
ghost use Rattle.mbuf_chain.specs.Owners.{times_among};
ghost use Rattle.sockbuf.specs.SockBuf.{IsSockBuf, chains_of};

use flat_model::Addr;
use mbuf_chain::{Chain, Pool};
use sockbuf::SockBuf;

/// Returns whether a datagram fits into a queue, which has this limit. A datagram that doesn't is freed.
pub fn is_queued(
    pool: &mut Pool,
    queue: &mut SockBuf,
    limit: u16,
    sender: Addr,
    chain: Chain,
) -> bool
    requires ready { IsSockBuf pool.old queue.old }
    requires live { IsLive pool.old chain }
    requires apart { times_among chain (chains_of pool.old queue.old) ≡ 0 }
{
    match queue.append_addr(pool, limit, sender, chain) {
        Ok(()) => true,
        Err((chain, _)) => {
            pool.free_chain(chain); // the queue is full, or no mbuf is free for the address
            false
        }
    }
}

/// Returns the sender of the oldest datagram, which is freed.
pub fn oldest(pool: &mut Pool, queue: &mut SockBuf) -> Option<Addr>
    requires { IsSockBuf pool.old queue.old }
{
    let (sender, chain) = queue.take(pool)?;
    pool.free_chain(chain);
    Some(sender)
}
