//! IP headers: their fields, and their bytes.
ghost use Rattle.std.specs.Prelude.{◌≡◌, ℕ, List, [], ◌∷◌, ◌+◌, ◌%◌, ◌≤◌, length, take, IfOk, IfErr, Some, None};
ghost use Rattle.flat_model.specs.Packets.Checksum.{checksum};
ghost use Rattle.flat_model.specs.Packets.Header.{head_fault};
ghost use Rattle.mbuf_chain.specs.Chain.{IsLive, chain_of, string};
ghost use Rattle.ip_out.specs.Bytes.{written};
ghost use Rattle.ip_out.specs.Headed.{IsFaultless, carried_of};
ghost use Rattle.ip_out.specs.Headings.{IsHeadOf, flags_of, blank_bytes, bytes_with, head_bytes, head_in};

use crate::bytes::{put_u16, put_u32, u16_at, u32_at};
use chain_ops::m_copydata;
use flat_model::Why;
use in_cksum::{Sum, sum_head};
use mbuf_chain::{Chain, Pool};
use params::{FRAGMENT_UNIT, IP_HEADER, IP_MAX_PACKET, tries_one_buffer};

/// The first byte of a header without options: version 4, and 5 words of 4 bytes.
pub const VERSION_AND_LENGTH: u8 = 0x45;

/// The version, in the first byte's high half.
const VERSION: u8 = 4;

/// The words of a header without options, in the first byte's low half.
const HEADER_WORDS: u8 = 5;

/// The flag "don't fragment", `IP_DF`.
pub const DONT_FRAGMENT: u16 = 0x4000;

/// The flag "more fragments", `IP_MF`.
const MORE_FRAGMENTS: u16 = 0x2000;

/// The largest offset that a header can have, in bytes: 65,528.
pub const MAX_OFFSET: u32 = (MORE_FRAGMENTS as u32 - 1) * FRAGMENT_UNIT;

/// The fields of an IPv4 header without options (RFC 791, section 3.1).
#[derive(Clone, Copy, Debug, PartialEq, Eq)]
pub struct IpHead {
    /// Type of service.
    pub tos: u8,
    /// The length of the packet in bytes, including its header.
    pub total: u16,
    /// The identification, which is the same in all fragments of a datagram.
    pub id: u16,
    /// The flag "don't fragment".
    pub dont: bool,
    /// The flag "more fragments".
    pub more: bool,
    /// The offset in the datagram of the first byte that the packet carries: a multiple of 8, up to 65,528.
    pub offset: u32,
    /// Time to live.
    pub ttl: u8,
    /// The protocol carried.
    pub proto: u8,
    /// The source address.
    pub src: u32,
    /// The destination address.
    pub dst: u32,
}

/// Returns the field of flags and offset.
#[inline(always)]
fn flags_of(head: &IpHead) -> u16
    requires { head.now.offset ≤ MAX_OFFSET }
    ensures { result ≡ flags_of head.now }
{
    let more = if head.more { MORE_FRAGMENTS } else { 0 };
    let field = more + (head.offset / FRAGMENT_UNIT) as u16;
    if head.dont {
        DONT_FRAGMENT + field
    } else {
        field
    }
}

/// Writes an 8-bit number at offset `at`.
#[inline(always)]
fn put_u8(bytes: &mut [u8], at: usize, n: u8)
    requires { at + 1 ≤ length bytes.old }
    ensures { bytes.new ≡ written bytes.old at (n ∷ []) }
{
    bytes[at] = n;
}

/// Returns the checksum of a header, computed from its fields.
#[inline(always)]
fn checksum_of(head: &IpHead) -> u16
    requires { head.now.offset ≤ MAX_OFFSET }
    ensures { result ≡ checksum (blank_bytes head.now) }
{
    let front = u16::from_be_bytes([VERSION_AND_LENGTH, head.tos]);
    let middle = u64::from(head.total) + u64::from(head.id) + u64::from(flags_of(head));
    let carried = u16::from_be_bytes([head.ttl, head.proto]);
    let addresses = u64::from(head.src) + u64::from(head.dst);
    Sum::of_words(u64::from(front) + middle + u64::from(carried) + addresses).finish()
}

/// Writes a header with this checksum.
#[inline(always)]
fn write_with(bytes: &mut [u8], head: &IpHead, sum: u16)
    requires len { length bytes.old ≡ IP_HEADER }
    requires offset { head.now.offset ≤ MAX_OFFSET }
    ensures { bytes.new ≡ bytes_with head.now sum }
{
    put_u8(bytes, 0, VERSION_AND_LENGTH);
    put_u8(bytes, 1, head.tos);
    put_u16(bytes, 2, head.total);
    put_u16(bytes, 4, head.id);
    put_u16(bytes, 6, flags_of(head));
    put_u8(bytes, 8, head.ttl);
    put_u8(bytes, 9, head.proto);
    put_u16(bytes, 10, sum);
    put_u32(bytes, 12, head.src);
    put_u32(bytes, 16, head.dst);
}

/// Writes a header of 20 bytes with its checksum. `bytes` must have 20 bytes, and the offset must be a multiple of 8,
/// up to 65,528 (RFC 791, section 3.1).
#[inline(always)]
pub fn write_head(bytes: &mut [u8], head: IpHead)
    requires len { length bytes.old ≡ IP_HEADER }
    requires offset { head.offset ≤ MAX_OFFSET }
    requires unit { head.offset % FRAGMENT_UNIT ≡ 0 }
    ensures { bytes.new ≡ head_bytes head }
{
    let sum = checksum_of(&head);
    write_with(bytes, &head, sum);
}

/// Decodes the header in the first 20 bytes of a packet.
#[inline(always)]
fn head_in(bytes: &[u8]) -> IpHead
    requires { length bytes.now ≡ IP_HEADER }
    ensures { result ≡ head_in bytes.now }
{
    let flags = u16_at(bytes, 6);
    IpHead {
        tos: bytes[1],
        total: u16_at(bytes, 2),
        id: u16_at(bytes, 4),
        dont: flags / DONT_FRAGMENT % 2 > 0,
        more: flags / MORE_FRAGMENTS % 2 > 0,
        offset: u32::from(flags % MORE_FRAGMENTS) * FRAGMENT_UNIT,
        ttl: bytes[8],
        proto: bytes[9],
        src: u32_at(bytes, 12),
        dst: u32_at(bytes, 16),
    }
}

/// Returns the first test that a packet of `len` bytes fails, from its first 20 bytes.
#[inline(always)]
fn fault_in(bytes: &[u8; IP_HEADER as usize], len: u32) -> Option<Why>
    requires few { IP_HEADER ≤ len }
    ensures { (packet : List ℕ) → length packet ≡ len → bytes.now ≡ take IP_HEADER packet
        → result ≡ head_fault packet }
{
    if bytes[0] != VERSION_AND_LENGTH {
        if bytes[0] / 16 != VERSION {
            return Some(Why::BadVersion);
        }
        if bytes[0] % 16 < HEADER_WORDS {
            return Some(Why::BadHeaderLength);
        }
        return Some(Why::Options);
    }
    if sum_head(bytes) != u16::MAX {
        return Some(Why::BadSum);
    }
    let total = u32::from(u16_at(bytes, 2));
    if total < IP_HEADER {
        return Some(Why::BadLength);
    }
    if len < total {
        return Some(Why::TooShort);
    }
    None
}

/// Decodes the header in the first 20 bytes of a packet of `len` bytes. Returns the first test that fails.
#[inline(always)]
fn head_or_fault(bytes: &[u8; IP_HEADER as usize], len: u32) -> Result<IpHead, Why>
    requires few { IP_HEADER ≤ len }
    ensures ok { (packet : List ℕ) → length packet ≡ len → bytes.now ≡ take IP_HEADER packet
        → IfOk result (IsHeadOf packet) }
    ensures err { (packet : List ℕ) → length packet ≡ len → bytes.now ≡ take IP_HEADER packet
        → IfErr result (λ why. head_fault packet ≡ Some why) }
{
    match fault_in(bytes, len) {
        Some(why) => Err(why),
        None => Ok(head_in(bytes)),
    }
}

/// `read_head` for a packet of `len` bytes whose header is split across mbufs.
fn read_cut(pool: &Pool, chain: &Chain, len: u32) -> Result<IpHead, Why>
    requires live { IsLive pool.now chain.now }
    requires len { len ≡ length (string (chain_of pool.now chain.now)) }
    requires few { IP_HEADER ≤ len }
    ensures ok { IfOk result (IsHeadOf (string (chain_of pool.now chain.now))) }
    ensures err { IfErr result (λ why. head_fault (string (chain_of pool.now chain.now)) ≡ Some why) }
{
    let mut bytes = [0; IP_HEADER as usize];
    m_copydata(pool, chain, 0, &mut bytes);
    head_or_fault(&bytes, len)
}

/// Reads the header of a packet in a chain, which may be split anywhere and isn't changed.
///
/// # Errors
///
/// The first test that fails, in this order: fewer than 20 bytes, `TooSmall`; a version other than 4, `BadVersion`;
/// fewer than 5 words of header, `BadHeaderLength`; more than 5, `Options`, because none are supported; a header whose
/// folded sum isn't 65,535, `BadSum`; a total length below 20, `BadLength`; a total length above that of the chain,
/// `TooShort`. A chain may be longer than the total length (`ipintr` of TCP/IP Illustrated volume 2, chapter 8; RFC
/// 791, section 3.1; rejecting options is this project's own).
// Inlined, so that no field is moved through memory.
#[inline(always)]
pub fn read_head(pool: &Pool, chain: &Chain) -> Result<IpHead, Why>
    requires { IsLive pool.now chain.now }
    ensures ok { IfOk result (IsHeadOf (string (chain_of pool.now chain.now))) }
    ensures err { IfErr result (λ why. head_fault (string (chain_of pool.now chain.now)) ≡ Some why) }
{
    let len = pool.len(chain);
    if len < IP_HEADER {
        return Err(Why::TooSmall);
    }
    if !tries_one_buffer() {
        return read_cut(pool, chain, len);
    }
    // Usually it's in the first mbuf and is read in place.
    let first = pool.bytes(chain, pool.first(chain));
    match first.split_first_chunk() {
        Some((bytes, _)) => head_or_fault(bytes, len),
        None => read_cut(pool, chain, len),
    }
}

/// A packet whose IP header `read_packet` has read in place and found without a fault. The value proves it, so no
/// caller tests the header again.
#[derive(Clone, Copy, Drop)]
pub struct Headed<'a> {
    /// The bytes as received, possibly more than the header's total length.
    pub packet: &'a [u8],
    /// The tests that the header has passed.
    pub ghost is_headed: { IsFaultless packet.now },
}

/// Reads the IP header of a packet of at most 65,535 bytes in place. Returns the first test that fails, in the order of
/// `read_head`.
#[inline(always)]
pub fn read_packet(packet: &[u8]) -> Result<Headed<'_>, Why>
    requires { length packet.now ≤ IP_MAX_PACKET }
    ensures ok { IfOk result (λ h. h.packet.now ≡ packet.now) }
    ensures err { IfErr result (λ why. head_fault packet.now ≡ Some why) }
{
    let Some((bytes, _)) = packet.split_first_chunk() else {
        return Err(Why::TooSmall);
    };
    match fault_in(bytes, packet.len() as u32) {
        Some(why) => Err(why),
        None => Ok(Headed { packet }),
    }
}

impl<'a> Headed<'a> {
    /// Returns all fields of its header.
    // Inlined, so that the compiler reads only the fields that the caller uses.
    #[inline(always)]
    pub fn head(&self) -> IpHead
        ensures { result ≡ head_in self.now.packet.now }
    {
        let (bytes, _) = self.packet.split_at(IP_HEADER as usize);
        head_in(bytes)
    }

    /// Returns the bytes after its header, up to its total length.
    #[inline(always)]
    pub fn carried(&self) -> &'a [u8]
        ensures { result.now ≡ carried_of self.now.packet.now }
    {
        let total = u16_at(self.packet, 2) as usize;
        &self.packet[IP_HEADER as usize..total]
    }
}
