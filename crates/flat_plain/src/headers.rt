//! The bytes of a packet, and its decoded header.
ghost use Rattle.std.specs.Prelude.{◌≡◌, ◌+◌, ◌*◌, ◌<◌, ◌≤◌, ◌++◌, length, take, drop, IfOk};
ghost use Rattle.flat_model.specs.Packets.Header as Header;
ghost use Rattle.flat_plain.specs.Heads.{plain_head};

use crate::sums::checksum;
use byteorder::{BigEndian, ByteOrder};
use flat_model::{Addr, Why, fold};
use params::{IP_DEFAULT_TTL, IP_HEADER, IP_MAX_DATA, PROTOCOL_UDP, UDP_HEADER, UDP_MAX_DATA};
use std::alloc::{AllocError, Global};

/// The header fields that differ from packet to packet.
#[derive(Clone, Copy, Debug, PartialEq, Eq)]
pub struct Head {
    /// The identification of its datagram.
    pub id: u16,
    /// Whether more fragments follow it.
    pub more: bool,
    /// The offset of its data in the datagram, in bytes.
    pub offset: u32,
    /// The protocol number of its data.
    pub protocol: u8,
    /// The source address.
    pub source: u32,
    /// The destination address.
    pub destination: u32,
}

/// Returns the big-endian number in the two bytes from offset `at`.
pub fn u16_at(bytes: &[u8], at: usize) -> u16
    requires { at + 2 ≤ length bytes.now }
    ensures { result ≡ Header.u16_at at bytes.now }
{
    BigEndian::read_u16(&bytes[at..])
}

/// Returns the big-endian number in the four bytes from offset `at`.
pub fn u32_at(bytes: &[u8], at: usize) -> u32
    requires { at + 4 ≤ length bytes.now }
    ensures { result ≡ Header.u32_at at bytes.now }
{
    BigEndian::read_u32(&bytes[at..])
}

/// Decodes the header of a packet of 20 bytes or more.
pub fn head_of(bytes: &[u8]) -> Head
    requires { IP_HEADER ≤ length bytes.now }
    ensures { plain_head result ≡ Header.head_of bytes.now }
{
    let flags = u16_at(bytes, 6);
    Head {
        id: u16_at(bytes, 4),
        more: 0 < flags / 8192 % 2,
        offset: (flags % 8192) as u32 * 8,
        protocol: bytes[9],
        source: u32_at(bytes, 12),
        destination: u32_at(bytes, 16),
    }
}

/// Returns why the header of a packet is refused: the first test that it fails.
pub fn head_fault(bytes: &[u8]) -> Option<Why>
    ensures { result ≡ Header.head_fault bytes.now }
{
    if bytes.len() < IP_HEADER as usize {
        return Some(Why::TooSmall);
    }
    if bytes[0] / 16 != 4 {
        return Some(Why::BadVersion);
    }
    if bytes[0] % 16 < 5 {
        return Some(Why::BadHeaderLength);
    }
    if 5 < bytes[0] % 16 {
        return Some(Why::Options);
    }
    if fold(&bytes[..IP_HEADER as usize]) != 65_535 {
        return Some(Why::BadSum);
    }
    let total = u16_at(bytes, 2) as usize;
    if total < IP_HEADER as usize {
        return Some(Why::BadLength);
    }
    if bytes.len() < total {
        return Some(Why::TooShort);
    }
    None
}

/// Writes a 16-bit number over the bytes from offset `at`.
pub fn put_u16(bytes: &mut [u8], at: usize, n: u16)
    requires { at + 2 ≤ length bytes.old }
    ensures { bytes.new ≡ take at bytes.old ++ (Header.two_bytes n ++ drop (at + 2) bytes.old) }
{
    BigEndian::write_u16(&mut bytes[at..at + 2], n);
}

/// Writes a 32-bit number over the bytes from offset `at`.
pub fn put_u32(bytes: &mut [u8], at: usize, n: u32)
    requires { at + 4 ≤ length bytes.old }
    ensures { bytes.new ≡ take at bytes.old ++ (Header.four_bytes n ++ drop (at + 4) bytes.old) }
{
    BigEndian::write_u32(&mut bytes[at..at + 4], n);
}

/// Builds the header of a packet that carries `n` bytes: the ten bytes before the checksum, the checksum, and the
/// addresses.
fn header(head: Head, n: u16, sum: u16) -> [u8; 20]
    requires total { n ≤ IP_MAX_DATA }
    requires offset { head.offset ≤ 65528 }
    ensures { result ≡ Header.front_bytes (plain_head head) n
        ++ Header.two_bytes sum ++ Header.address_bytes head.source head.destination }
{
    let flags = if head.more { 8192 } else { 0 } + (head.offset / 8) as u16;
    let mut bytes = [0; 20];
    bytes[0] = 69;
    put_u16(&mut bytes, 2, IP_HEADER as u16 + n);
    put_u16(&mut bytes, 4, head.id);
    put_u16(&mut bytes, 6, flags);
    bytes[8] = IP_DEFAULT_TTL;
    bytes[9] = head.protocol;
    put_u16(&mut bytes, 10, sum);
    put_u32(&mut bytes, 12, head.source);
    put_u32(&mut bytes, 16, head.destination);
    bytes
}

/// Builds a packet that carries at most 65,515 bytes, at an offset of at most 65,528. Returns `AllocError` if the host
/// refuses memory for it.
pub fn packet(alloc: Global, head: Head, carried: &[u8]) -> Result<Vec<u8>, AllocError>
    requires total { length carried.now ≤ IP_MAX_DATA }
    requires offset { head.offset ≤ 65528 }
    ensures { IfOk result (λ v. v.items ≡ Header.packet (plain_head head) carried.now) }
{
    let n = carried.len() as u16;
    let blank = header(head, n, 0);
    let full = header(head, n, checksum(&blank));
    let mut bytes = Vec::from_slice(alloc, &full)?;
    bytes.extend_from_slice(carried)?;
    Ok(bytes)
}

/// Builds what the UDP checksum covers in addition to the UDP datagram.
pub fn pseudo_header(source: u32, destination: u32, n: u16) -> [u8; 12]
    ensures { result ≡ Header.pseudo_header source destination n }
{
    let mut bytes = [0; 12];
    put_u32(&mut bytes, 0, source);
    put_u32(&mut bytes, 4, destination);
    bytes[9] = PROTOCOL_UDP;
    put_u16(&mut bytes, 10, n);
    bytes
}

/// Builds the UDP header of a datagram of `n` bytes, header included.
fn udp_header(source_port: u16, destination_port: u16, n: u16, sum: u16) -> [u8; 8]
    ensures { result ≡ Header.two_bytes source_port ++ Header.two_bytes destination_port
        ++ Header.two_bytes n ++ Header.two_bytes sum }
{
    let mut bytes = [0; 8];
    put_u16(&mut bytes, 0, source_port);
    put_u16(&mut bytes, 2, destination_port);
    put_u16(&mut bytes, 4, n);
    put_u16(&mut bytes, 6, sum);
    bytes
}

/// A computed checksum of 0 is written as 65,535.
pub fn not_zero(sum: u16) -> u16
    ensures { result ≡ Header.not_zero sum }
{
    if sum == 0 { 65_535 } else { sum }
}

fn joined(alloc: Global, front: &[u8], middle: &[u8], back: &[u8]) -> Result<Vec<u8>, AllocError>
    ensures { IfOk result (λ v. v.items ≡ front.now ++ middle.now ++ back.now) }
{
    let mut bytes = Vec::from_slice(alloc, front)?;
    bytes.extend_from_slice(middle)?;
    bytes.extend_from_slice(back)?;
    Ok(bytes)
}

/// Builds a datagram of at most 65,507 bytes after its UDP header. Returns `AllocError` if the host refuses memory for
/// it.
pub fn udp(
    alloc: Global,
    source: Addr,
    destination: Addr,
    sent: &[u8],
) -> Result<Vec<u8>, AllocError>
    requires { length sent.now ≤ UDP_MAX_DATA }
    ensures { IfOk result (λ v.
        v.items ≡ Header.udp source.ip destination.ip source.port destination.port sent.now) }
{
    let n = UDP_HEADER as u16 + sent.len() as u16;
    let pseudo = pseudo_header(source.ip, destination.ip, n);
    let blank = udp_header(source.port, destination.port, n, 0);
    let covered = joined(alloc, &pseudo, &blank, sent)?;
    let sum = checksum(&covered);
    let front = udp_header(source.port, destination.port, n, not_zero(sum));
    let bytes = joined(alloc, &front, &[], sent)?;
    Ok(bytes)
}

/// Returns why a datagram of at most 65,515 bytes is refused: the first test that it fails. Returns `AllocError` if the
/// host refuses memory for the bytes that its checksum covers.
pub fn udp_fault(
    alloc: Global,
    source: u32,
    destination: u32,
    bytes: &[u8],
) -> Result<Option<Why>, AllocError>
    requires { length bytes.now ≤ IP_MAX_DATA }
    ensures { IfOk result (λ r. r ≡ Header.udp_fault source destination bytes.now) }
{
    if bytes.len() < UDP_HEADER as usize {
        return Ok(Some(Why::UdpHeaderDrops));
    }
    let n = u16_at(bytes, 4);
    if bytes.len() < n as usize {
        return Ok(Some(Why::UdpBadLength));
    }
    if n < UDP_HEADER as u16 {
        return Ok(Some(Why::UdpBadLength));
    }
    if u16_at(bytes, 6) == 0 {
        return Ok(None);
    }
    let covered = joined(
        alloc,
        &pseudo_header(source, destination, n),
        &bytes[..n as usize],
        &[],
    )?;
    if fold(&covered) != 65_535 {
        return Ok(Some(Why::UdpBadSum));
    }
    Ok(None)
}
