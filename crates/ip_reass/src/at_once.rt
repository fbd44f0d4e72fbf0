//! A fragment that is queued directly, from the bytes of its packet.
ghost use Rattle.std.specs.Prelude.{◌≡◌, ℕ, ◌+◌, ◌<◌, ◌≤◌, [], true, length};
ghost use Rattle.flat_model.specs.Amounts.Weight.{Weight, ◌⊕◌};
ghost use Rattle.flat_model.specs.Machine.State.{State};
ghost use Rattle.mbuf_chain.specs.Chain.{alone, references};
ghost use Rattle.chain_ops.specs.Makes.{HasMbufs, Makes};
ghost use Rattle.ledger.specs.Accounts.{IsAccounted, weight_owned};
ghost use Rattle.ip_reass.specs.Arrivals.{ArrivalMoves, HasWhole, carried_entries, in_hand, with_waiting};
ghost use Rattle.ip_reass.specs.AtOnce.{ArrivesAtOnce, TakesFree, as_stored, fits_at_once, in_cluster, in_mbufs, is_sound};
ghost use Rattle.ip_reass.specs.Inside.Place.{HasRoomFor};
ghost use Rattle.ip_reass.specs.Table.{IsReady};

use crate::arrival::Arrival;
use crate::arrive::is_bad;
use crate::table::Reass;
use flat_model::{Counter, Counters};
use ip_out::IpHead;
use mbuf_chain::{Chain, Pool};
use params::{
    IP_HEADER, IP_MAX_PACKET, MAX_PROTOCOL_HEADER, MBUF_HEADER, MCLBYTES, MHLEN, MINCLSIZE,
    PACKET_START,
};

/// Returns whether a packet of 20 to 65,535 bytes is as long as its header, `head`, says, and isn't a malformed
/// fragment. The header's offset is at most 65,535.
#[inline(always)]
pub fn is_sound(head: &IpHead, packet: &[u8]) -> bool
    requires offset { head.now.offset ≤ IP_MAX_PACKET }
    requires header { IP_HEADER ≤ length packet.now }
    requires most { length packet.now ≤ IP_MAX_PACKET }
    ensures { result ≡ is_sound head.now packet.now }
{
    let len = packet.len() as u32;
    u32::from(head.total) == len && !is_bad(head, len - IP_HEADER)
}

/// Returns whether a packet with this header can be stored by `Reass::arrive_bytes`: it takes one cluster or two mbufs
/// (101 to 2048 bytes), `is_sound` is true for it, and two mbufs and a cluster are free. The header's offset is at most
/// 65,535.
#[inline(always)]
pub fn fits_at_once(pool: &Pool, head: &IpHead, packet: &[u8]) -> bool
    requires { head.now.offset ≤ IP_MAX_PACKET }
    ensures { result ≡ fits_at_once pool.now head.now packet.now }
{
    if packet.len() <= MHLEN as usize || packet.len() > MCLBYTES as usize {
        return false;
    }
    is_sound(head, packet) && pool.free_mbufs() >= 2 && pool.free_clusters() >= 1
}

/// Stores what a packet carries after its IP header, as if the packet had been stored in a cluster and its header
/// pulled up and cut off: 20 bytes in a plain mbuf, and the others in the cluster. These must be free.
#[inline(always)]
fn store_cluster(pool: &mut Pool, packet: &[u8]) -> Chain
    requires { HasRoomFor MINCLSIZE pool.old packet.now }
    ensures { (k : ℕ) × (k < pool.old.clusters) × (references pool.old k ≡ 0)
        × Makes pool.old pool.new result (alone true) (carried_entries (in_cluster packet.now k)) }
{
    let rest = &packet[MAX_PROTOCOL_HEADER as usize..];
    let Ok(back) = pool.new_cluster_with(false, MAX_PROTOCOL_HEADER, rest) else {
        unreachable!()
    };
    let front = &packet[IP_HEADER as usize..MAX_PROTOCOL_HEADER as usize];
    pool.new_plain_before(PACKET_START + IP_HEADER, front, back, rest.len() as u32)
}

/// Stores what a packet carries after its IP header, as if the packet had been stored in two mbufs and its header cut
/// off. These must be free.
// Not inlined: only the last fragment of a datagram comes here.
#[inline(never)]
fn store_mbufs(pool: &mut Pool, packet: &[u8]) -> Chain
    requires many { MHLEN < length packet.now }
    requires few { length packet.now < MINCLSIZE }
    requires mbufs { HasMbufs pool.old 2 }
    ensures { Makes pool.old pool.new result (alone true) (carried_entries (in_mbufs packet.now)) }
{
    let rest = &packet[MHLEN as usize..];
    let Ok(back) = pool.new_plain_with(false, MBUF_HEADER, rest) else {
        unreachable!()
    };
    let begin = &packet[IP_HEADER as usize..MHLEN as usize];
    pool.new_plain_before(PACKET_START + IP_HEADER, begin, back, rest.len() as u32)
}

/// Stores what a packet carries after its IP header, as if the packet had been stored, its header pulled up if it's in
/// a cluster, and cut off. Two mbufs and a cluster must be free.
#[inline(always)]
fn store_carried(pool: &mut Pool, packet: &[u8]) -> Chain
    requires { HasRoomFor (MHLEN + 1) pool.old packet.now }
    ensures { (k : ℕ) × TakesFree pool.old packet.now k
        × Makes pool.old pool.new result (alone true) (carried_entries (as_stored packet.now k)) }
{
    if packet.len() < MINCLSIZE as usize {
        return store_mbufs(pool, packet);
    }
    store_cluster(pool, packet)
}

impl Reass {
    /// A fragment arrives from the wire as the bytes of a packet for which `fits_at_once` returned true. The result is
    /// that of `from_wire` and `arrive`, in fewer steps: the header isn't stored, and nothing is pulled up.
    ///
    /// So the result is never `BadFragment`. A key that has no datagram yet takes one more mbuf, which is requested as
    /// in `arrive`.
    #[inline(always)]
    pub fn arrive_bytes(
        &mut self,
        pool: &mut Pool,
        counters: &mut Counters,
        packet: &[u8],
        head: IpHead,
    ) -> Arrival
        requires ready { IsReady pool.old self.old }
        requires fits { fits_at_once pool.old head packet.now ≡ true }
        ensures arrives { ArrivesAtOnce pool.old self.old.datagrams counters.old packet.now head result
            pool.new self.new.datagrams counters.new }
        ensures accounts { (rest : State) (held : Weight) →
            IsAccounted pool.old (with_waiting pool.old self.old.datagrams counters.old rest) held →
            IsAccounted pool.new (with_waiting pool.new self.new.datagrams counters.new rest)
            (held ⊕ weight_owned pool.new (in_hand result)) }
        ensures whole { HasWhole pool.new head result }
        ensures ready { IsReady pool.new self.new }
        ensures moves { ArrivalMoves pool.old [] self.old.datagrams result pool.new self.new.datagrams }
    {
        counters.count(Counter::IpFragments);
        let chain = store_carried(pool, packet);
        self.insert_or_begin(pool, counters, chain, head)
    }
}
