//! A send that makes one packet for the link, and whose bytes are in one mbuf.
ghost use Rattle.std.specs.Prelude.{◌≡◌, ◌+◌, ◌-◌, ◌<◌, ◌≤◌, ◌++◌, IfSome, length};
ghost use Rattle.flat_model.specs.Amounts.Layout.{need, sent};
ghost use Rattle.mbuf_chain.specs.Chain.{chain_of, free_clusters, held_mbufs, string};
ghost use Rattle.chain_ops.specs.Stored.{Has};
ghost use Rattle.sock_calls.specs.Inside.Putting.{IsBuilt, IsStored, sent_as};

use crate::packets::{Heading, write_udp};
use flat_model::Need;
use mbuf_chain::{Chain, Pool};
use params::{CLUSTER_LEADING_SPACE, IP_UDP_HEADERS, MCLBYTES, MHLEN, MINCLSIZE, MSIZE};

/// The largest number of bytes after their headers in one mbuf.
pub(crate) const MOST_IN_MBUF: usize = (MHLEN - IP_UDP_HEADERS) as usize;

/// The largest number of bytes in one cluster.
const MOST_IN_CLUSTER: usize = (MCLBYTES - CLUSTER_LEADING_SPACE) as usize;

/// The number of free buffers for a send of `len` bytes that makes one packet for a link with this MTU, and is in one
/// mbuf after its headers, or in a cluster after an mbuf with the headers. `None` for any other send.
#[inline(always)]
pub(crate) fn need_of_one(len: usize, mtu: u16) -> Option<Need>
    ensures need { IfSome result (λ n. n ≡ need len mtu) }
    ensures fits { IfSome result (λ n. len + IP_UDP_HEADERS ≤ mtu) }
    ensures most { IfSome result (λ n. len ≤ MOST_IN_CLUSTER) }
    ensures many { IfSome result (λ n. MOST_IN_MBUF < len → MINCLSIZE ≤ len) }
{
    if len > MOST_IN_CLUSTER || len + IP_UDP_HEADERS as usize > mtu as usize {
        return None;
    }
    if len <= MOST_IN_MBUF {
        return Some(Need {
            mbufs: 1,
            clusters: 0,
        });
    }
    if len < MINCLSIZE as usize {
        return None;
    }
    Some(Need {
        mbufs: 2,
        clusters: 1,
    })
}

/// Makes one mbuf with the 28 bytes of the headers and the bytes, at its end. An mbuf must be free.
#[inline(always)]
fn in_mbuf(pool: &mut Pool, headers: &[u8; IP_UDP_HEADERS as usize], bytes: &[u8]) -> Chain
    requires few { length bytes.now ≤ MOST_IN_MBUF }
    requires free { held_mbufs pool.old < pool.old.mbufs }
    ensures stored { IsStored pool.old bytes.now pool.new result }
    ensures string { string (chain_of pool.new result) ≡ headers.now ++ bytes.now }
{
    let buffer = (bytes.len() as u32 + 3) / 4 * 4;
    let Ok(chain) = pool.new_plain_with(true, MSIZE - IP_UDP_HEADERS - buffer, headers) else {
        unreachable!()
    };
    let at = pool.first(&chain);
    pool.put_back(&chain, at, bytes);
    chain
}

/// Puts the bytes into a cluster, after an mbuf with the headers. Two mbufs and a cluster must be free.
#[inline(always)]
fn in_cluster(pool: &mut Pool, headers: &[u8; IP_UDP_HEADERS as usize], bytes: &[u8]) -> Chain
    requires many { MINCLSIZE ≤ length bytes.now }
    requires most { length bytes.now ≤ MOST_IN_CLUSTER }
    requires free { held_mbufs pool.old + 2 ≤ pool.old.mbufs }
    requires cluster { 0 < free_clusters pool.old }
    ensures stored { IsStored pool.old bytes.now pool.new result }
    ensures string { string (chain_of pool.new result) ≡ headers.now ++ bytes.now }
{
    let Ok(data) = pool.new_cluster_with(false, CLUSTER_LEADING_SPACE, bytes) else {
        unreachable!()
    };
    pool.new_plain_before(MSIZE - IP_UDP_HEADERS, headers, data, bytes.len() as u32)
}

/// `datagram` of bytes that fit into one mbuf or cluster, by `need_of_one`. Its buffers must be free.
// It's short because the layout is known.
#[inline(always)]
pub(crate) fn datagram_of_one(pool: &mut Pool, heading: Heading, bytes: &[u8]) -> Chain
    requires most { length bytes.now ≤ MOST_IN_CLUSTER }
    requires many { MOST_IN_MBUF < length bytes.now → MINCLSIZE ≤ length bytes.now }
    requires free { Has pool.old (sent (length bytes.now)) }
    ensures { IsBuilt pool.old (sent_as heading bytes.now) pool.new result }
{
    let mut headers = [0; IP_UDP_HEADERS as usize];
    write_udp(&mut headers, heading, bytes);
    if bytes.len() <= MOST_IN_MBUF {
        in_mbuf(pool, &headers, bytes)
    } else {
        in_cluster(pool, &headers, bytes)
    }
}
