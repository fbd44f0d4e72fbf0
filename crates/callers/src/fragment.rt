//! A fragment that arrives.
ghost use Rattle.std.specs.Prelude.{◌≡◌, ◌≤◌, ◌∷◌, true, length};
ghost use Rattle.mbuf_chain.specs.Chain.{chain_of, string};
ghost use Rattle.mbuf_chain.specs.Owners.{IsOwned};
ghost use Rattle.ip_reass.specs.Table.{IsReady, held_all};

use flat_model::Counters;
use ip_out::IpHead;
use ip_reass::{Arrival, Reass};
use mbuf_chain::{Chain, Pool};
use params::{IP_HEADER, IP_MAX_PACKET};

/// Returns whether a packet, whose header `read_head` returned, completes a datagram. That datagram is freed.
pub fn is_whole(
    reass: &mut Reass,
    pool: &mut Pool,
    counters: &mut Counters,
    chain: Chain,
    head: IpHead,
) -> bool
    requires ready { IsReady pool.old reass.old }
    requires owned { IsOwned pool.old (chain ∷ held_all pool.old reass.old.datagrams) }
    requires headed { (chain_of pool.old chain).front.header ≡ true }
    requires total { length (string (chain_of pool.old chain)) ≡ head.total }
    requires header { IP_HEADER ≤ head.total }
    requires offset { head.offset ≤ IP_MAX_PACKET }
{
    match reass.arrive(pool, counters, chain, head) {
        Arrival::Whole(chain, _) => {
            pool.free_chain(chain); // or passed to UDP, with the header of the whole
            true
        }
        Arrival::Kept => false,
        Arrival::Dropped(_) => false, // it was counted and freed
    }
}
