//! The IPv4 packet in a frame.
ghost use Rattle.std.specs.Prelude.{◌≡◌, ◌+◌, ◌≤◌};
ghost use Rattle.std.specs.Int.{w32};
ghost use Rattle.capture.specs.File.{ReturnsBy, number_of};
ghost use Rattle.capture.specs.declared.pcap.header.Order.TheVariants.{Big};
ghost use Rattle.capture.specs.Frames.{after, by_family, by_ppp, by_protocol, by_version, host_family, packet_in_frame, unframed, unpadded, untagged};

use crate::pcap::link_type::LinkType;
use byteorder::{BigEndian, ByteOrder, LittleEndian};
use thiserror::Error;

/// Why there is no IPv4 packet in a frame.
#[derive(Clone, Copy, Debug, PartialEq, Eq, Error)]
pub enum NoPacket {
    /// The frame ends within its link-layer header, or within a VLAN tag; or a raw packet has no bytes.
    #[error("frame cut short")]
    FrameCut,
    /// The protocol (the "ethertype"), after at most two VLAN tags, isn't that of IPv4, 0x0800; or PPP's protocol isn't
    /// 0x0021.
    #[error("protocol {0:#06x}")]
    OtherProtocol(u16),
    /// The protocol family isn't that of IPv4, 2.
    #[error("protocol family {0}")]
    OtherFamily(u32),
    /// A raw packet's version isn't 4.
    #[error("IP version {0}")]
    OtherVersion(u8),
}

/// The protocol of IPv4.
const IPV4: u16 = 0x0800;

/// The protocol of a VLAN tag (IEEE 802.1Q), and that of the outer one of two (802.1ad).
const VLAN: u16 = 0x8100;

const OUTER_VLAN: u16 = 0x88a8;

/// The protocol of IPv4 in PPP (RFC 1332, section 2).
const PPP_IPV4: u16 = 0x0021;

/// The protocol family of IPv4.
const FAMILY_IPV4: u32 = 2;

/// The number of bytes of the shortest IPv4 header.
const IP_HEADER: usize = 20;

/// Returns a packet without the bytes after its total length.
fn without_padding(bytes: &[u8]) -> &[u8]
    ensures { result.now ≡ unpadded bytes.now }
{
    if bytes.len() < IP_HEADER {
        return bytes;
    }
    let total = BigEndian::read_u16(&bytes[2..]) as usize;
    if total < IP_HEADER || total > bytes.len() {
        bytes
    } else {
        &bytes[..total]
    }
}

/// Returns a protocol and the bytes after it, without a VLAN tag if there is one.
fn without_tag(protocol: u16, rest: &[u8]) -> Result<(u16, &[u8]), NoPacket>
    ensures { ReturnsBy (λ x. (x.0, x.1.now)) result (untagged protocol rest.now) }
{
    if protocol != VLAN && protocol != OUTER_VLAN {
        return Ok((protocol, rest));
    }
    if rest.len() < 4 {
        return Err(NoPacket::FrameCut);
    }
    Ok((BigEndian::read_u16(&rest[2..]), &rest[4..]))
}

/// Returns the packet after a protocol and at most two tags.
#[tactic(auto, unfolding(crate::specs::Frames::after))]
fn after_protocol(protocol: u16, rest: &[u8]) -> Result<&[u8], NoPacket>
    ensures { ReturnsBy (λ p. p.now) result (after protocol rest.now) }
{
    let (protocol, rest) = without_tag(protocol, rest)?;
    let (protocol, rest) = without_tag(protocol, rest)?;
    if protocol != IPV4 {
        return Err(NoPacket::OtherProtocol(protocol));
    }
    Ok(without_padding(rest))
}

/// Returns the packet of a frame with the protocol at offset `at`, in a header of `header` bytes.
fn in_frame(frame: &[u8], at: usize, header: usize) -> Result<&[u8], NoPacket>
    requires { at + 2 ≤ header }
    ensures { ReturnsBy (λ p. p.now) result (by_protocol at header frame.now) }
{
    if frame.len() < header {
        return Err(NoPacket::FrameCut);
    }
    after_protocol(BigEndian::read_u16(&frame[at..]), &frame[header..])
}

/// Returns the packet after a protocol family in the byte order of some host.
fn after_host_family(frame: &[u8]) -> Result<&[u8], NoPacket>
    ensures { ReturnsBy (λ p. p.now) result (by_family host_family frame.now) }
{
    if frame.len() < 4 {
        return Err(NoPacket::FrameCut);
    }
    let mut family = LittleEndian::read_u32(frame);
    if family >= 65_536 {
        family = BigEndian::read_u32(frame);
    }
    if family != FAMILY_IPV4 {
        return Err(NoPacket::OtherFamily(family));
    }
    Ok(without_padding(&frame[4..]))
}

/// Returns the packet after a protocol family with its high byte first.
fn after_family(frame: &[u8]) -> Result<&[u8], NoPacket>
    ensures { ReturnsBy (λ p. p.now) result (by_family (number_of Big w32) frame.now) }
{
    if frame.len() < 4 {
        return Err(NoPacket::FrameCut);
    }
    let family = BigEndian::read_u32(frame);
    if family != FAMILY_IPV4 {
        return Err(NoPacket::OtherFamily(family));
    }
    Ok(without_padding(&frame[4..]))
}

/// Returns a PPP frame without its address and control bytes, which it need not have (RFC 1662, section 3.1).
fn without_framing(frame: &[u8]) -> &[u8]
    ensures { result.now ≡ unframed frame.now }
{
    match frame {
        [0xff, 3, rest @ ..] => rest,
        _ => frame,
    }
}

/// Returns the packet after a PPP protocol, whose high byte may be left out if the low byte is odd (RFC 1661, section
/// 6.5).
fn after_ppp(frame: &[u8]) -> Result<&[u8], NoPacket>
    ensures { ReturnsBy (λ p. p.now) result (by_ppp frame.now) }
{
    let [first, rest @ ..] = frame else {
        return Err(NoPacket::FrameCut);
    };
    if *first % 2 == 1 {
        if u16::from(*first) == PPP_IPV4 {
            return Ok(without_padding(rest));
        }
        return Err(NoPacket::OtherProtocol(u16::from(*first)));
    }
    if rest.is_empty() {
        return Err(NoPacket::FrameCut);
    }
    let protocol = BigEndian::read_u16(frame);
    if protocol == PPP_IPV4 {
        Ok(without_padding(&rest[1..]))
    } else {
        Err(NoPacket::OtherProtocol(protocol))
    }
}

/// Returns a packet, if its version is that of IPv4.
fn of_version(frame: &[u8]) -> Result<&[u8], NoPacket>
    ensures { ReturnsBy (λ p. p.now) result (by_version frame.now) }
{
    match frame {
        [] => Err(NoPacket::FrameCut),
        [first, ..] if *first / 16 == 4 => Ok(without_padding(frame)),
        [first, ..] => Err(NoPacket::OtherVersion(*first / 16)),
    }
}

/// Returns the IPv4 packet in a frame of a link type, without the link layer's header before it and without padding
/// after its total length. A packet that is cut short, or whose header is malformed, is returned as it is: the receiver
/// tests it. Fails with `FrameCut` if the frame ends within the link layer's header; otherwise, if the frame has no
/// IPv4 packet, with `OtherProtocol` (Ethernet, PPP and Linux cooked), `OtherFamily` (Null and Loop) or `OtherVersion`
/// (Raw).
pub fn ipv4_packet(link: LinkType, frame: &[u8]) -> Result<&[u8], NoPacket>
    ensures { ReturnsBy (λ p. p.now) result (packet_in_frame link frame.now) }
{
    match link {
        LinkType::Ethernet => in_frame(frame, 12, 14),
        LinkType::LinuxCooked => in_frame(frame, 14, 16),
        LinkType::LinuxCooked2 => in_frame(frame, 0, 20),
        LinkType::Ppp => after_ppp(without_framing(frame)),
        LinkType::Null => after_host_family(frame),
        LinkType::Loop => after_family(frame),
        LinkType::Raw => of_version(frame),
        LinkType::Ipv4 => Ok(without_padding(frame)),
    }
}
