//! Frames and ARP packets, parsed and written.
ghost use Rattle.std.specs.Prelude.{◌≡◌, ◌≤◌, ◌+◌, drop, length, take, if◌then◌else◌, ◌/◌, ◌^◌};
ghost use Rattle.flat_ether.specs.declared.sizes.TheConstants.{ETHER_HEADER};
ghost use Rattle.flat_ether.specs.Frames.{arp_bytes, arp_of, body_of, frame, header, is_arp, is_bad_source, is_martian, kind_of, packet_kind};

use crate::bytes::{mac_at, put_bytes};
use flat_ether::{
    ARP_BYTES, ARP_REPLY, ARP_REQUEST, Arp, ETHER_BROADCAST, ETHER_HEADER, ETHER_TYPE_ARP,
    ETHER_TYPE_IP, FrameKind, Mac,
};
use flat_model::Config;
use ip_out::{put_u16, put_u32, u16_at, u32_at};
use params::{FIRST_MULTICAST, IP_HEADER, LOOPBACK};

/// The offset of the body of a frame.
pub(crate) const BODY: usize = ETHER_HEADER as usize;

/// Bytes of an ARP packet, as the length of an array.
pub(crate) const ARP: usize = ARP_BYTES as usize;

/// The hardware type of Ethernet (RFC 826).
const HARDWARE_ETHERNET: u16 = 1;

/// The lengths of addresses: 6 and 4 bytes.
const LENGTHS: u16 = 0x0604;

/// The network of an address, its first byte.
fn network(ip: u32) -> u32
    ensures { result ≡ ip / 2 ^ 24 }
{
    ip >> 24
}

/// Whether no host sends from this address.
fn is_bad_source(config: &Config, ip: u32) -> bool
    ensures { result ≡ is_bad_source config.now ip }
{
    ip < 1 << 24 || FIRST_MULTICAST <= ip || network(ip) == network(LOOPBACK) || ip == config.bcast
}

/// Whether a packet has addresses that can't come from a link.
fn is_martian(config: &Config, packet: &[u8]) -> bool
    ensures { result ≡ is_martian config.now packet.now }
{
    packet.len() >= IP_HEADER as usize
        && (is_bad_source(config, u32_at(packet, 12))
            || network(u32_at(packet, 16)) == network(LOOPBACK))
}

/// The kind of a frame with a packet.
fn packet_kind(config: &Config, packet: &[u8]) -> FrameKind
    ensures { result ≡ packet_kind config.now packet.now }
{
    if is_martian(config, packet) {
        return FrameKind::Martian;
    }
    FrameKind::Packet
}

/// What a frame is for the host with this configuration and this hardware address.
pub(crate) fn kind_of(config: &Config, mac: Mac, frame: &[u8]) -> FrameKind
    ensures { result ≡ kind_of config.now mac frame.now }
{
    if frame.len() < BODY {
        return FrameKind::Other;
    }
    let destination = mac_at(frame, 0);
    if !destination.is(mac) && !destination.is(ETHER_BROADCAST) {
        return FrameKind::Other;
    }
    match u16_at(frame, 12) {
        ETHER_TYPE_IP => packet_kind(config, body_of(frame)),
        ETHER_TYPE_ARP => FrameKind::Arp,
        _ => FrameKind::Other,
    }
}

/// The header of a frame.
fn header(destination: Mac, source: Mac, kind: u16) -> [u8; BODY]
    ensures { result ≡ header destination source kind }
{
    let mut bytes = [0; BODY];
    put_u16(&mut bytes, 0, destination.high);
    put_u32(&mut bytes, 2, destination.low);
    put_u16(&mut bytes, 6, source.high);
    put_u32(&mut bytes, 8, source.low);
    put_u16(&mut bytes, 12, kind);
    bytes
}

/// Writes the header of a frame before its body of `len` bytes, which is in the buffer already. Returns how many bytes
/// the frame has.
pub(crate) fn put_frame(
    buffer: &mut [u8],
    destination: Mac,
    source: Mac,
    kind: u16,
    len: usize,
) -> usize
    requires { ETHER_HEADER + len ≤ length buffer.old }
    ensures frame { take result buffer.new ≡ frame destination source kind (take len (drop ETHER_HEADER buffer.old)) }
    ensures long { result ≡ ETHER_HEADER + len }
{
    let header = header(destination, source, kind);
    put_bytes(buffer, 0, &header);
    BODY + len
}

/// The body of a frame.
#[tactic(auto, using(crate::proofs::Rooms::rest_is))]
pub(crate) fn body_of(frame: &[u8]) -> &[u8]
    requires { ETHER_HEADER ≤ length frame.now }
    ensures { result.now ≡ body_of frame.now }
{
    &frame[BODY..]
}

/// The contents of an ARP packet, if it's for Ethernet and IPv4.
pub(crate) fn read_arp(body: &[u8]) -> Option<Arp>
    ensures { result ≡ (if is_arp body.now then Some (arp_of body.now) else None) }
{
    if body.len() < ARP
        || u16_at(body, 0) != HARDWARE_ETHERNET
        || u16_at(body, 2) != ETHER_TYPE_IP
        || u16_at(body, 4) != LENGTHS
    {
        return None;
    }
    let op = u16_at(body, 6);
    if op != ARP_REQUEST && op != ARP_REPLY {
        return None;
    }
    Some(Arp {
        op,
        mac: mac_at(body, 8),
        ip: u32_at(body, 14),
        target: u32_at(body, 24),
    })
}

/// The bytes of an ARP packet.
pub(crate) fn arp_bytes(op: u16, mac: Mac, ip: u32, target_mac: Mac, target: u32) -> [u8; ARP]
    ensures { result ≡ arp_bytes op mac ip target_mac target }
{
    let mut bytes = [0; ARP];
    put_u16(&mut bytes, 0, HARDWARE_ETHERNET);
    put_u16(&mut bytes, 2, ETHER_TYPE_IP);
    put_u16(&mut bytes, 4, LENGTHS);
    put_u16(&mut bytes, 6, op);
    put_u16(&mut bytes, 8, mac.high);
    put_u32(&mut bytes, 10, mac.low);
    put_u32(&mut bytes, 14, ip);
    put_u16(&mut bytes, 18, target_mac.high);
    put_u32(&mut bytes, 20, target_mac.low);
    put_u32(&mut bytes, 24, target);
    bytes
}
