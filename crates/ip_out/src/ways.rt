//! The packets of a datagram, for the link and for this machine.
ghost use Rattle.std.specs.Prelude.{◌≡◌, ◌≤◌, [], ◌∷◌, ◌++◌, length, nat_lt, IfOk, OnOk, OnErr};
ghost use Rattle.mbuf_chain.specs.Chain.{IsLive, chain_of, without};
ghost use Rattle.mbuf_chain.specs.Owners.{Moves};
ghost use Rattle.mbuf_chain.specs.Train.{IsHeld, numbers};
ghost use Rattle.chain_ops.specs.Makes.{HasMbufs, LacksMbufs};
ghost use Rattle.ip_out.specs.Inside.{CanCut, IsBothWays};
ghost use Rattle.ip_out.specs.Packets.{BeginPlain, IsDatagramChain, train_packets, packets_of, chain_parts};
ghost use Rattle.ip_out.specs.Ways.{to_link_by, to_self_by, way_need};

use crate::fragments::fragments;
use crate::head::IpHead;
use chain_ops::{Extent, m_copym};
use mbuf_chain::{Chain, Pool, Train};
use mbuf_pool::NoBufs;
use params::MIN_MTU;

/// The destination of a datagram's packets.
#[derive(Clone, Copy, Debug, PartialEq, Eq)]
pub enum Way {
    /// To the link.
    Link,
    /// Back to this machine, which is the datagram's destination.
    Loopback,
    /// To the link, and a copy back: a broadcast, which this machine receives too.
    Both,
}

/// The packets of a datagram. Both trains must be consumed.
pub struct Packets {
    /// The packets for the link.
    pub link: Train,
    /// The packets that come back.
    pub looped: Train,
    /// Whether the datagram was cut into more than one packet.
    pub is_cut: bool,
}

/// Makes the packets of a datagram that goes both ways: see `make_packets`.
fn both_ways(pool: &mut Pool, chain: Chain, head: IpHead, mtu: u16) -> Result<Packets, NoBufs>
    requires { CanCut pool.old chain mtu }
    ensures { IsBothWays pool.old chain head mtu pool.new result }
{
    let Ok(copy) = m_copym(pool, &chain, Extent::All) else {
        pool.free_chain(chain);
        return Err(NoBufs);
    };
    let Ok(link) = fragments(pool, chain, head, mtu) else {
        pool.free_chain(copy);
        return Err(NoBufs);
    };
    let Ok(looped) = fragments(pool, copy, head, mtu) else {
        link.free(pool);
        return Err(NoBufs);
    };
    pool.laws();
    let is_cut = link.len() > 1;
    Ok(Packets {
        link,
        looped,
        is_cut,
    })
}

/// Makes the packets of a datagram: those for the link, and those that come back. See `output` for the datagram and its
/// packets. The chain is consumed, also on error. A datagram that goes both ways is copied once, by `m_copym`, and the
/// copy shares its clusters (`ip_output`, `looutput` and `ether_output` of TCP/IP Illustrated volume 2, chapters 8, 5
/// and 4).
///
/// # Errors
///
/// `NoBufs` exactly if fewer mbufs are free than the copy and the later packets take. The chain is freed then.
pub fn make_packets(
    pool: &mut Pool,
    chain: Chain,
    head: IpHead,
    mtu: u16,
    way: Way,
) -> Result<Packets, NoBufs>
    requires live { IsLive pool.old chain }
    requires datagram { IsDatagramChain (chain_of pool.old chain) }
    requires least { MIN_MTU ≤ mtu }
    ensures link { IfOk result
        (λ s. train_packets pool.new s.link ≡ to_link_by way (packets_of (chain_of pool.old chain) head mtu)) }
    ensures looped { IfOk result
        (λ s. train_packets pool.new s.looped ≡ to_self_by way (packets_of (chain_of pool.old chain) head mtu)) }
    ensures cut { IfOk result (λ s. s.is_cut ≡ nat_lt 1 (length (chain_parts (chain_of pool.old chain) mtu))) }
    ensures held { IfOk result (λ s. IsHeld pool.new s.link × IsHeld pool.new s.looped) }
    ensures plain { IfOk result (λ s. BeginPlain pool.new s.link × BeginPlain pool.new s.looped) }
    ensures moves { IfOk result (λ s. Moves pool.old (chain ∷ [])
        pool.new (numbers pool.new s.link ++ numbers pool.new s.looped)) }
    ensures enough { OnOk result (HasMbufs pool.old (way_need way (chain_of pool.old chain) mtu)) }
    ensures err { OnErr result (LacksMbufs pool.old (way_need way (chain_of pool.old chain) mtu)) }
    ensures freed { OnErr result (pool.new ≡ without pool.old chain) }
{
    match way {
        Way::Link => {
            let link = fragments(pool, chain, head, mtu)?;
            let is_cut = link.len() > 1;
            let looped = Train::new();
            Ok(Packets {
                link,
                looped,
                is_cut,
            })
        }
        Way::Loopback => {
            let looped = fragments(pool, chain, head, mtu)?;
            let is_cut = looped.len() > 1;
            let link = Train::new();
            Ok(Packets {
                link,
                looped,
                is_cut,
            })
        }
        Way::Both => both_ways(pool, chain, head, mtu),
    }
}
