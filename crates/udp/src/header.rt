//! The header of a datagram, and its checksum (RFC 768; RFC 1071).
ghost use Rattle.std.specs.Prelude.{◌≡◌, ℕ, List, ◌+◌, ◌≤◌, ◌++◌, if◌then◌else◌, None, Some, length, take};
ghost use Rattle.flat_model.specs.Packets.Header.{pseudo_header, u16_at, udp_fault};
ghost use Rattle.flat_model.specs.declared.counters.Why.TheVariants.{UdpBadSum};
ghost use Rattle.mbuf_chain.specs.Chain.{IsLive, chain_of, string};
ghost use Rattle.in_cksum.specs.Partial.{sum_of};
ghost use Rattle.udp.specs.Inside.{header_bytes, header_in, has_right_sum};

use chain_ops::m_copydata;
use in_cksum::{Sum, cksum_chain};
use ip_out::{put_u16, u16_at};
use mbuf_chain::{Chain, Pool};
use params::{PROTOCOL_UDP, UDP_HEADER, tries_one_buffer};

/// Bytes of a header.
pub(crate) const HEADER: usize = UDP_HEADER as usize;

/// A header as numbers (RFC 768).
#[derive(Clone, Copy)]
pub(crate) struct Header {
    pub(crate) source: u16,
    pub(crate) destination: u16,
    // the length of header and data
    pub(crate) len: u16,
    // 0: no checksum
    pub(crate) sum: u16,
}

/// Decodes the header in the first 8 bytes of a string.
#[inline(always)]
pub(crate) fn header_of(bytes: &[u8; HEADER]) -> Header
    ensures { (s : List ℕ) → bytes.now ≡ take UDP_HEADER s → result ≡ header_in s }
{
    Header {
        source: u16_at(bytes, 0),
        destination: u16_at(bytes, 2),
        len: u16_at(bytes, 4),
        sum: u16_at(bytes, 6),
    }
}

/// Decodes the header at the front of a chain, if it's split across mbufs.
fn read_cut(pool: &Pool, chain: &Chain) -> Header
    requires live { IsLive pool.now chain.now }
    requires header { UDP_HEADER ≤ length (string (chain_of pool.now chain.now)) }
    ensures { result ≡ header_in (string (chain_of pool.now chain.now)) }
{
    let mut bytes = [0; HEADER];
    m_copydata(pool, chain, 0, &mut bytes);
    header_of(&bytes)
}

/// Decodes the header at the front of a chain.
#[inline(always)]
pub(crate) fn read_header(pool: &Pool, chain: &Chain) -> Header
    requires live { IsLive pool.now chain.now }
    requires header { UDP_HEADER ≤ length (string (chain_of pool.now chain.now)) }
    ensures { result ≡ header_in (string (chain_of pool.now chain.now)) }
{
    if !tries_one_buffer() {
        return read_cut(pool, chain);
    }
    // Usually the header is in the first mbuf and is read in place.
    let first = pool.bytes(chain, pool.first(chain));
    match first.split_first_chunk() {
        Some((bytes, _)) => header_of(bytes),
        None => read_cut(pool, chain),
    }
}

/// Encodes a header.
#[inline(always)]
pub(crate) fn to_bytes(header: Header) -> [u8; 8]
    ensures { result ≡ header_bytes header }
{
    let mut bytes = [0; HEADER];
    put_u16(&mut bytes, 0, header.source);
    put_u16(&mut bytes, 2, header.destination);
    put_u16(&mut bytes, 4, header.len);
    put_u16(&mut bytes, 6, header.sum);
    bytes
}

/// The sum of the words of the pseudo header of a datagram of `len` bytes, with each address as one number.
#[inline(always)]
fn pseudo_words(src: u32, dst: u32, len: u16) -> u64
    ensures { result ≡ src + dst + PROTOCOL_UDP + len }
{
    u64::from(src) + u64::from(dst) + u64::from(PROTOCOL_UDP) + u64::from(len)
}

/// The sum of the pseudo header of a datagram of `len` bytes.
#[inline(always)]
pub(crate) fn pseudo_sum(src: u32, dst: u32, len: u16) -> Sum
    ensures { result ≡ sum_of (pseudo_header src dst len) }
{
    Sum::of_words(pseudo_words(src, dst, len))
}

/// The sum of the pseudo header of a datagram and of its header.
#[inline(always)]
pub(crate) fn headers_sum(src: u32, dst: u32, header: Header) -> Sum
    ensures { result ≡ sum_of (pseudo_header src dst header.len ++ header_bytes header) }
{
    let ports = u64::from(header.source) + u64::from(header.destination);
    let rest = u64::from(header.len) + u64::from(header.sum);
    Sum::of_words(pseudo_words(src, dst, header.len) + ports + rest)
}

/// Whether a datagram with this header has no checksum or the right one.
pub(crate) fn is_right(pool: &Pool, chain: &Chain, header: Header, src: u32, dst: u32) -> bool
    requires live { IsLive pool.now chain.now }
    requires header { header ≡ header_in (string (chain_of pool.now chain.now)) }
    requires within { header.len ≤ length (string (chain_of pool.now chain.now)) }
    ensures { result ≡ has_right_sum src dst (string (chain_of pool.now chain.now)) }
{
    if header.sum == 0 {
        return true;
    }
    let sum = pseudo_sum(src, dst, header.len);
    cksum_chain(pool, chain, 0, header.len as u32, sum) == 0
}

/// Whether a datagram without its IP header, from `src` to `dst`, has no checksum or the right one. The checksum covers
/// the pseudo header and the bytes up to the UDP length. This length must be at least 8 and at most that of the chain.
/// Bytes after it don't count. A checksum field of 0 means that there is no checksum (RFC 768).
///
/// The conditions are the two tests that precede this one, so the result says whether the datagram has a fault.
pub fn check(pool: &Pool, chain: &Chain, src: u32, dst: u32) -> bool
    requires live { IsLive pool.now chain.now }
    requires header { UDP_HEADER ≤ u16_at 4 (string (chain_of pool.now chain.now)) }
    requires within { u16_at 4 (string (chain_of pool.now chain.now))
        ≤ length (string (chain_of pool.now chain.now)) }
    ensures { udp_fault src dst (string (chain_of pool.now chain.now))
        ≡ (if result then None else Some UdpBadSum) }
{
    let header = read_header(pool, chain);
    is_right(pool, chain, header, src, dst)
}
