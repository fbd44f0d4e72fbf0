//! The byte encoding of heads.
ghost use Rattle.std.specs.Prelude.{◌≡◌, ◌+◌, ◌/◌, ◌%◌, ◌≤◌, length};
ghost use Rattle.raw_cells.specs.Cells.{head_size, IsHead, IsLink};
ghost use Rattle.raw_cells.specs.Inside.Layout.{cell_head_in, link_of, packet_header_in, cluster_in, head_flags, little_u16_at, little_u32_at};

use crate::head::{Head, PacketHeader};
use byteorder::{ByteOrder, LittleEndian};
use params::{MBUF_HEADER, PACKET_START};

/// The stored number that means "no mbuf".
const NO_MBUF: u32 = 0xffff_ffff;

/// Returns the number that encodes a link.
#[inline(always)]
pub(crate) fn link_number(link: Option<u32>) -> u32
    requires { IsLink link }
    ensures { link_of result ≡ link }
{
    link.unwrap_or(NO_MBUF)
}

fn read_u16(bytes: &[u8], at: usize) -> u16
    requires { at + 2 ≤ length bytes.now }
    ensures { result ≡ little_u16_at bytes.now at }
{
    LittleEndian::read_u16(&bytes[at..])
}

fn read_u32(bytes: &[u8], at: usize) -> u32
    requires { at + 4 ≤ length bytes.now }
    ensures { result ≡ little_u32_at bytes.now at }
{
    LittleEndian::read_u32(&bytes[at..])
}

fn read_link(bytes: &[u8], at: usize) -> Option<u32>
    requires { at + 4 ≤ length bytes.now }
    ensures link { result ≡ link_of (little_u32_at bytes.now at) }
    ensures storable { IsLink result }
{
    let number = read_u32(bytes, at);
    if number == NO_MBUF {
        None
    } else {
        Some(number)
    }
}

fn read_packet(bytes: &[u8], at: usize, flags: u16) -> Option<PacketHeader>
    requires { at + 8 ≤ length bytes.now }
    ensures { result ≡ packet_header_in bytes.now at flags }
{
    if flags / 2 % 2 == 0 {
        return None;
    }
    Some(PacketHeader {
        len: read_u32(bytes, at),
        arrival: read_u32(bytes, at + 4),
    })
}

fn read_cluster(bytes: &[u8], at: usize, flags: u16) -> Option<u32>
    requires { at + 4 ≤ length bytes.now }
    ensures { result ≡ cluster_in bytes.now at flags }
{
    if flags % 2 == 0 {
        None
    } else {
        Some(read_u32(bytes, at))
    }
}

/// Reads the head of the mbuf that begins at byte `at`.
#[inline(always)]
pub(crate) fn read_head(bytes: &[u8], at: usize) -> Head
    requires { at + 32 ≤ length bytes.now }
    ensures head { result ≡ cell_head_in bytes.now at }
    ensures storable { IsHead result }
{
    let flags = read_u16(bytes, at + 18);
    Head {
        next: read_link(bytes, at),
        next_packet: read_link(bytes, at + 4),
        len: read_u32(bytes, at + 8),
        start: read_u32(bytes, at + 12),
        kind: read_u16(bytes, at + 16),
        packet: read_packet(bytes, at + 20, flags),
        cluster: read_cluster(bytes, at + 28, flags),
    }
}

/// Returns how many bytes of the mbuf the head takes.
#[inline(always)]
pub(crate) fn head_len(head: &Head) -> usize
    ensures { result ≡ head_size head.now }
{
    if head.cluster.is_some() {
        32
    } else if head.packet.is_some() {
        PACKET_START as usize
    } else {
        MBUF_HEADER as usize
    }
}

#[inline(always)]
fn bytes_u16(x: u16) -> [u8; 2]
    ensures { little_u16_at result 0 ≡ x }
{
    let mut bytes = [0; 2];
    LittleEndian::write_u16(&mut bytes, x);
    bytes
}

#[inline(always)]
fn bytes_u32(x: u32) -> [u8; 4]
    ensures { little_u32_at result 0 ≡ x }
{
    let mut bytes = [0; 4];
    LittleEndian::write_u32(&mut bytes, x);
    bytes
}

/// Writes a number over four bytes.
#[inline(always)]
pub(crate) fn put_u32(bytes: &mut [u8], x: u32)
    requires { length bytes.old ≡ 4 }
    ensures value { little_u32_at bytes.new 0 ≡ x }
    ensures len { length bytes.new ≡ 4 }
{
    LittleEndian::write_u32(bytes, x);
}

/// Writes the length and the start of an mbuf's data over eight bytes.
#[inline(always)]
pub(crate) fn put_data(bytes: &mut [u8], len: u32, start: u32)
    requires { length bytes.old ≡ 8 }
    ensures len { little_u32_at bytes.new 0 ≡ len }
    ensures start { little_u32_at bytes.new 4 ≡ start }
    ensures long { length bytes.new ≡ 8 }
{
    let both = u64::from(len) + (u64::from(start) << 32);
    LittleEndian::write_u64(bytes, both);
}

/// Clears the packet header flag.
pub(crate) fn clear_packet(bytes: &mut [u8])
    requires { length bytes.old ≡ 2 }
    ensures packet { little_u16_at bytes.new 0 / 2 % 2 ≡ 0 }
    ensures cluster { little_u16_at bytes.new 0 % 2 ≡ little_u16_at bytes.old 0 % 2 }
    ensures len { length bytes.new ≡ 2 }
{
    let flags = LittleEndian::read_u16(bytes);
    LittleEndian::write_u16(bytes, flags % 2);
}

#[inline(always)]
fn flags(head: &Head) -> u16
    ensures { result ≡ head_flags head.now }
{
    u16::from(head.cluster.is_some()) + 2 * u16::from(head.packet.is_some())
}

/// Encodes a head, with zeros for the fields that it doesn't have.
#[inline(always)]
pub(crate) fn encode(head: &Head) -> [u8; 32]
    requires { IsHead head.now }
    ensures decoded { cell_head_in result 0 ≡ head.now }
    ensures len { length result ≡ 32 }
{
    let packet = head.packet.unwrap_or(PacketHeader { len: 0, arrival: 0 });
    let next = bytes_u32(link_number(head.next));
    let next_packet = bytes_u32(link_number(head.next_packet));
    let len = bytes_u32(head.len);
    let start = bytes_u32(head.start);
    let kind = bytes_u16(head.kind);
    let flags = bytes_u16(flags(head));
    let total = bytes_u32(packet.len);
    let arrival = bytes_u32(packet.arrival);
    let cluster = bytes_u32(head.cluster.unwrap_or(0));
    [
        next[0],
        next[1],
        next[2],
        next[3],
        next_packet[0],
        next_packet[1],
        next_packet[2],
        next_packet[3],
        len[0],
        len[1],
        len[2],
        len[3],
        start[0],
        start[1],
        start[2],
        start[3],
        kind[0],
        kind[1],
        flags[0],
        flags[1],
        total[0],
        total[1],
        total[2],
        total[3],
        arrival[0],
        arrival[1],
        arrival[2],
        arrival[3],
        cluster[0],
        cluster[1],
        cluster[2],
        cluster[3],
    ]
}
