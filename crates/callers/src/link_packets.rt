//! A datagram that is fragmented for a link.
ghost use Rattle.mbuf_chain.specs.Chain.{IsLive, chain_of};
ghost use Rattle.ip_out.specs.Packets.{IsDatagramChain};

use ip_out::{IpHead, Queue, output};
use mbuf_chain::{Chain, Pool};

/// Returns how many packets of at most 1,500 bytes a datagram takes. They are freed.
pub fn packets_of(pool: &mut Pool, chain: Chain, head: IpHead) -> u32
    requires live { IsLive pool.old chain }
    requires datagram { IsDatagramChain (chain_of pool.old chain) }
{
    let mut queue = Queue::new();
    let _ = output(pool, chain, head, 1500, &mut queue);
    let packets = queue.len();
    queue.end(pool);
    packets
}
