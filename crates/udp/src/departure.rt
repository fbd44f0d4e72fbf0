//! A datagram that is sent.
ghost use Rattle.std.specs.Prelude.{◌≡◌, ◌≤◌, ◌++◌, None, length, take, drop};
ghost use Rattle.flat_model.specs.Packets.Header.{udp};
ghost use Rattle.mbuf_chain.specs.Chain.{IsLive, chain_of, entry_of, string, with_chain};
ghost use Rattle.udp.specs.Datagrams.{with_udp_header};

use crate::header::{Header, headers_sum, to_bytes};
use flat_model::Addr;
use in_cksum::cksum_chain;
use mbuf_chain::{Chain, Pool};
use params::{IP_HEADER, IP_MAX_PACKET, IP_UDP_HEADERS, UDP_HEADER, UDP_MAX_DATA};

/// The 8 bytes of the UDP header of a datagram with these bytes, at most 65,507, from one address and port to another,
/// with its checksum. A computed 0 is written as 65,535 (`udp_output` of volume 2, chapter 23; RFC 768).
#[inline(always)]
pub fn header_for(from: Addr, to: Addr, bytes: &[u8]) -> [u8; 8]
    requires { length bytes.now ≤ UDP_MAX_DATA }
    ensures { result ++ bytes.now ≡ udp from.ip to.ip from.port to.port bytes.now }
{
    let Addr { ip, port } = from;
    let blank = Header {
        source: port,
        destination: to.port,
        len: bytes.len() as u16 + UDP_HEADER as u16,
        sum: 0,
    };
    let mut covered = headers_sum(ip, to.ip, blank);
    covered.add(bytes);
    let computed = covered.finish();
    let stated = if computed == 0 { u16::MAX } else { computed };
    to_bytes(Header {
        sum: stated,
        ..blank
    })
}

/// Writes the UDP header of a datagram from one address and port to another, with its checksum. A computed 0 is written
/// as 65,535 (`udp_output` of volume 2, chapter 23; RFC 768).
///
/// The chain is the whole packet, of at most 65,535 bytes: its first mbuf is plain and has the 28 bytes of both
/// headers, and the data follows. 8 bytes are overwritten, after the first 20. Nothing is allocated, and it can't fail.
#[inline(always)]
pub fn build(pool: &mut Pool, chain: &Chain, from: Addr, to: Addr)
    requires live { IsLive pool.old chain.now }
    requires plain { (entry_of (chain_of pool.old chain.now) 0).cluster ≡ None }
    requires headers { IP_UDP_HEADERS ≤ length (entry_of (chain_of pool.old chain.now) 0).bytes }
    requires most { length (string (chain_of pool.old chain.now)) ≤ IP_MAX_PACKET }
    ensures chain { pool.new ≡ with_chain pool.old chain.now
        (with_udp_header from.ip to.ip from.port to.port (chain_of pool.old chain.now)) }
    ensures string { string (chain_of pool.new chain.now)
        ≡ take IP_HEADER (string (chain_of pool.old chain.now))
        ++ udp from.ip to.ip from.port to.port (drop IP_UDP_HEADERS (string (chain_of pool.old chain.now))) }
{
    let len = (pool.len(chain) - IP_HEADER) as u16;
    let blank = Header {
        source: from.port,
        destination: to.port,
        len,
        sum: 0,
    };
    let covered = headers_sum(from.ip, to.ip, blank);
    let data = len as u32 - UDP_HEADER;
    let computed = cksum_chain(pool, chain, IP_UDP_HEADERS, data, covered);
    let sum = if computed == 0 { u16::MAX } else { computed };
    let first = pool.first(chain);
    pool.overwrite(chain, first, IP_HEADER, &to_bytes(Header { sum, ..blank }));
}
