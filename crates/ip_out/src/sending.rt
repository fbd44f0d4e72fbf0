//! Output of a datagram: its packets go to the link, back to this machine, or both.
ghost use Rattle.std.specs.Prelude.{◌≡◌, ◌≤◌, ◌∷◌, ◌++◌, length, take, nat_lt, IfOk, OnOk, OnErr, IfErr};
ghost use Rattle.mbuf_chain.specs.Chain.{IsLive, chain_of, without};
ghost use Rattle.mbuf_chain.specs.Owners.{Moves, times_among};
ghost use Rattle.mbuf_chain.specs.Train.{IsHeld, numbers};
ghost use Rattle.chain_ops.specs.Makes.{HasMbufs, LacksMbufs};
ghost use Rattle.ip_out.specs.Packets.{BeginPlain, IsDatagramChain, later_need, train_packets, packets_of, chain_parts};
ghost use Rattle.ip_out.specs.Queues.{IsOutputQueue, IsOutputRefused};
ghost use Rattle.ip_out.specs.Ways.{to_link_by, to_self_by, way_need};

use crate::fragments::fragments;
use crate::head::IpHead;
use crate::queue::Queue;
use crate::ways::{Packets, Way, make_packets};
use flat_model::Lack;
use mbuf_chain::{Chain, Pool, Train};
use mbuf_pool::NoBufs;
use params::{MIN_MTU, OUTPUT_QUEUE_PACKETS};

/// Sends a datagram: cuts it into packets of at most `mtu` bytes, which is at least 68, writes their headers, and puts
/// them into the output queue (`ip_output` of TCP/IP Illustrated volume 2, chapters 8 and 10; RFC 791, section 3.2
/// "Fragmentation"). The chain is consumed, also on error.
///
/// The chain has 20 bytes for the IP header, of any value, and then the datagram. These 20 bytes are in the first mbuf,
/// which is plain and has a packet header. No mbuf is empty, and the whole has at most 65,535 bytes. The total length,
/// the offset and "more fragments" of `head` are ignored: each packet has its own.
///
/// All packets are made before any is queued. The first is the chain itself, trimmed at its end; each of the others has
/// an mbuf for its header, and after it copies that share clusters. If each queued packet begins in a plain mbuf, so
/// does each one that is queued afterwards. It takes one step for each mbuf and each packet.
///
/// # Errors
///
/// `Lack::Pool` exactly if fewer mbufs are free than the later packets take: nothing is queued, and the chain is freed.
/// `Lack::Queue` if the queue can't take all packets: those that fit are queued, and the others are freed.
pub fn output(
    pool: &mut Pool,
    chain: Chain,
    head: IpHead,
    mtu: u16,
    queue: &mut Queue,
) -> Result<(), Lack>
    requires live { IsLive pool.old chain }
    requires datagram { IsDatagramChain (chain_of pool.old chain) }
    requires least { MIN_MTU ≤ mtu }
    requires queue { IsOutputQueue pool.old queue.old }
    requires apart { times_among chain (numbers pool.old queue.old) ≡ 0 }
    ensures ok { OnOk result (HasMbufs pool.old (later_need (chain_of pool.old chain) mtu)
        × (train_packets pool.new queue.new
        ≡ train_packets pool.old queue.old ++ packets_of (chain_of pool.old chain) head mtu)) }
    ensures err { IfErr result (λ lack. IsOutputRefused lack pool.old queue.old chain
        (packets_of (chain_of pool.old chain) head mtu) (later_need (chain_of pool.old chain) mtu)
        pool.new queue.new) }
    ensures plain { BeginPlain pool.old queue.old → BeginPlain pool.new queue.new }
    ensures queue { IsOutputQueue pool.new queue.new }
    ensures moves { Moves pool.old (chain ∷ numbers pool.old queue.old) pool.new (numbers pool.new queue.new) }
{
    let Ok(packets) = fragments(pool, chain, head, mtu) else {
        return Err(Lack::Pool);
    };
    if queue.push_all(pool, packets) {
        return Err(Lack::Queue);
    }
    Ok(())
}

/// The result of `send_packets`. The train must be consumed.
pub struct Sent {
    /// The packets that come back.
    pub looped: Train,
    /// Whether the datagram was cut into more than one packet.
    pub is_cut: bool,
    /// Whether the output queue couldn't take all packets for the link.
    pub is_lost: bool,
}

impl Queue {
    /// Makes the packets of a datagram like `make_packets`, puts those for the link into the queue like `push_all`, and
    /// returns those that come back (`ip_output`, `looutput` and `ether_output` of TCP/IP Illustrated volume 2,
    /// chapters 8, 5 and 4). The chain is consumed, also on error. Packets that the queue can't take are freed; that
    /// isn't an error.
    ///
    /// # Errors
    ///
    /// `NoBufs` exactly if fewer mbufs are free than the copy and the later packets take: nothing is queued, and the
    /// chain is freed.
    #[inline(always)]
    pub fn send_packets(
        &mut self,
        pool: &mut Pool,
        chain: Chain,
        head: IpHead,
        mtu: u16,
        way: Way,
    ) -> Result<Sent, NoBufs>
        requires live { IsLive pool.old chain }
        requires datagram { IsDatagramChain (chain_of pool.old chain) }
        requires least { MIN_MTU ≤ mtu }
        requires queue { IsOutputQueue pool.old self.old }
        requires apart { times_among chain (numbers pool.old self.old) ≡ 0 }
        ensures link { OnOk result (train_packets pool.new self.new ≡ take OUTPUT_QUEUE_PACKETS
            (train_packets pool.old self.old ++ to_link_by way (packets_of (chain_of pool.old chain) head mtu))) }
        ensures lost { IfOk result (λ s. s.is_lost ≡ nat_lt OUTPUT_QUEUE_PACKETS (length
            (train_packets pool.old self.old ++ to_link_by way (packets_of (chain_of pool.old chain) head mtu)))) }
        ensures looped { IfOk result
            (λ s. train_packets pool.new s.looped ≡ to_self_by way (packets_of (chain_of pool.old chain) head mtu)) }
        ensures cut { IfOk result (λ s. s.is_cut ≡ nat_lt 1 (length (chain_parts (chain_of pool.old chain) mtu))) }
        ensures held { IfOk result (λ s. IsHeld pool.new s.looped) }
        ensures plain { IfOk result (λ s. BeginPlain pool.new s.looped) }
        ensures link_plain { BeginPlain pool.old self.old → BeginPlain pool.new self.new }
        ensures queue { IsOutputQueue pool.new self.new }
        ensures moves { IfOk result (λ s. Moves pool.old (chain ∷ numbers pool.old self.old)
            pool.new (numbers pool.new s.looped ++ numbers pool.new self.new)) }
        ensures enough { OnOk result (HasMbufs pool.old (way_need way (chain_of pool.old chain) mtu)) }
        ensures err { OnErr result (LacksMbufs pool.old (way_need way (chain_of pool.old chain) mtu)) }
        ensures freed { OnErr result (pool.new ≡ without pool.old chain) }
        ensures same { OnErr result (self.new ≡ self.old) }
    {
        let len = pool.len(&chain);
        match way {
            // Most datagrams are one packet, which needs no train.
            Way::Link if len <= mtu as u32 => {
                pool.laws();
                let is_lost = self.push_whole(pool, chain, head, len);
                Ok(Sent {
                    looped: Train::new(),
                    is_cut: false,
                    is_lost,
                })
            }
            _ => {
                let Packets {
                    link,
                    looped,
                    is_cut,
                } = make_packets(pool, chain, head, mtu, way)?;
                let is_lost = self.push_all(pool, link);
                Ok(Sent {
                    looped,
                    is_cut,
                    is_lost,
                })
            }
        }
    }
}
