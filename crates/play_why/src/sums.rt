//! The checksums that would be right.
ghost use Rattle.std.specs.Prelude.{◌≡◌, ◌≤◌, length, take, drop};
ghost use Rattle.params.specs.declared.TheConstants.{IP_HEADER, UDP_HEADER};
ghost use Rattle.play_why.specs.Values as texts;

use flat_model::fold;
use flat_plain::{checksum, not_zero, pseudo_header, u16_at, u32_at};
use script_loop::Buffer;

/// The most bytes that a checksum covers.
pub const COVERED: usize = 65_600;

/// Returns the right checksum of a header of 20 bytes (RFC 791, section 3.1). `covered` is a buffer for the work.
#[tactic(auto, unfolding(crate::specs::Values::right_header_sum))]
pub fn right_header_sum(packet: &[u8], covered: &mut Buffer<COVERED>) -> u16
    requires { IP_HEADER ≤ length packet.now }
    ensures { result ≡ texts.right_header_sum packet.now }
{
    covered.clear();
    covered.append(&packet[..10]);
    covered.append(&[0, 0]);
    covered.append(&packet[12..20]);
    checksum(covered.as_slice())
}

/// Returns the pseudo header of a datagram in a packet.
#[tactic(auto, unfolding(crate::specs::Values::pseudo_of))]
fn pseudo_of(packet: &[u8], datagram: &[u8]) -> [u8; 12]
    requires packet { IP_HEADER ≤ length packet.now }
    requires datagram { UDP_HEADER ≤ length datagram.now }
    ensures { result ≡ texts.pseudo_of packet.now datagram.now }
{
    pseudo_header(u32_at(packet, 12), u32_at(packet, 16), u16_at(datagram, 4))
}

/// Returns the data of a datagram, by the UDP length and the datagram's own length.
fn sent_by(datagram: &[u8]) -> &[u8]
    requires { UDP_HEADER ≤ length datagram.now }
    ensures is { result.now ≡ take (texts.sent_by datagram.now) (drop 8 datagram.now) }
    ensures most { length result.now ≤ 65535 }
{
    let end = (u16_at(datagram, 4) as usize).min(datagram.len());
    let (_, rest) = datagram.split_at(8);
    &rest[..end.saturating_sub(8)]
}

/// Returns the right checksum of a datagram of 8 bytes or more, by its UDP length and the addresses of a packet (RFC
/// 768). `covered` is a buffer for the work.
#[tactic(auto, unfolding(crate::specs::Values::right_udp_sum))]
pub fn right_udp_sum(packet: &[u8], datagram: &[u8], covered: &mut Buffer<COVERED>) -> u16
    requires packet { IP_HEADER ≤ length packet.now }
    requires datagram { UDP_HEADER ≤ length datagram.now }
    ensures { result ≡ texts.right_udp_sum packet.now datagram.now }
{
    covered.clear();
    covered.append(&pseudo_of(packet, datagram));
    covered.append(&datagram[..6]);
    covered.append(&[0, 0]);
    covered.append(sent_by(datagram));
    not_zero(checksum(covered.as_slice()))
}

/// Returns the sum of only the pseudo header, which is in a datagram whose checksum the sender's card fills in.
#[tactic(auto, unfolding(crate::specs::Values::pseudo_sum))]
pub fn pseudo_sum(packet: &[u8], datagram: &[u8]) -> u16
    requires packet { IP_HEADER ≤ length packet.now }
    requires datagram { UDP_HEADER ≤ length datagram.now }
    ensures { result ≡ texts.pseudo_sum packet.now datagram.now }
{
    let covered = pseudo_of(packet, datagram);
    fold(&covered)
}
