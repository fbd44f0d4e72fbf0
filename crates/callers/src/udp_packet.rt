//! A UDP datagram on its way out, and one on its way in.
ghost use Rattle.std.specs.Prelude.{◌≤◌, length};
ghost use Rattle.mbuf_chain.specs.Chain.{IsLive, chain_of, string};

use arrayvec::ArrayVec;
use chain_ops::{from_user, m_copydata, m_prepend};
use flat_model::{Addr, Why};
use ip_out::IpHead;
use mbuf_chain::{Chain, Pool};
use mbuf_pool::NoBufs;
use params::{IP_MAX_PACKET, IP_UDP_HEADERS};
use pcb_table::Pcbs;
use udp::{Outcome, build, input};

/// Builds the packet of 100 bytes of data from port 1024 of 10.0.0.1 to port 7 of 10.0.0.2, without its IP header.
#[tactic(auto, using(chain_ops::proofs::Laws::Makes::live_steps))]
pub fn datagram(pool: &mut Pool, data: &[u8; 100]) -> Result<Option<[u8; 108]>, NoBufs> {
    let mut packet = from_user(pool, data)?;
    if m_prepend(pool, &mut packet, &[0; IP_UDP_HEADERS as usize]).is_err() {
        pool.free_chain(packet);
        return Err(NoBufs);
    }
    let first = pool.first(&packet);
    let segment = pool.segment(&packet, first);
    let len = pool.len(&packet);
    // `build` writes into the first mbuf, so that must be a plain mbuf with all headers.
    let is_plain = segment.cluster.is_none() && segment.len >= IP_UDP_HEADERS;
    if !is_plain || len != 128 {
        pool.free_chain(packet);
        return Ok(None);
    }
    let from = Addr {
        ip: 0x0a00_0001,
        port: 1024,
    };
    let to = Addr {
        ip: 0x0a00_0002,
        port: 7,
    };
    build(pool, &packet, from, to);
    let mut bytes = [0; 108];
    if pool.len(&packet) == 128 {
        m_copydata(pool, &packet, 20, &mut bytes);
    }
    pool.free_chain(packet);
    Ok(Some(bytes))
}

/// Returns the sender of a datagram that arrived without its IP header, whose fields are in `head`; or why it is
/// dropped.
pub fn sender_of(pool: &mut Pool, chain: Chain, head: IpHead, pcbs: &mut Pcbs) -> Result<Addr, Why>
    requires live { IsLive pool.old chain }
    requires most { length (string (chain_of pool.old chain)) ≤ IP_MAX_PACKET }
{
    let mut to = ArrayVec::new(); // one array is used for all datagrams
    match input(pool, chain, head, pcbs, &mut to) {
        Outcome::Deliver { from, chain } => {
            pool.free_chain(chain); // or queued, for each of `to`
            Ok(from)
        }
        Outcome::Drop(why) => Err(why),
    }
}
