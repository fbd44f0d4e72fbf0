//! Which datagram a fragment belongs to, and where in it.
ghost use Rattle.std.specs.Prelude.{◌≡◌, ◌≤◌, length, IfSome};
ghost use Rattle.params.specs.declared.TheConstants.{IP_HEADER};
ghost use Rattle.play_why.specs.Keys as keys;

use flat_model::FragmentKey;
use flat_plain::{u16_at, u32_at};
use params::IP_HEADER;

/// Returns whether two fragments belong to one datagram.
pub(crate) fn same_key(a: FragmentKey, b: FragmentKey) -> bool
    ensures { result ≡ keys.same_key a b }
{
    a.source == b.source
        && (a.destination == b.destination && (a.id == b.id && a.protocol == b.protocol))
}

/// Returns the key of a packet that is a fragment and has a complete header.
pub(crate) fn key_of(packet: &[u8]) -> Option<FragmentKey>
    ensures is { result ≡ keys.key_of packet.now }
    ensures least { IfSome result (λ k. IP_HEADER ≤ length packet.now) }
{
    if packet.len() < IP_HEADER as usize || packet[0] != 69 {
        return None;
    }
    if u16_at(packet, 6) % 16_384 == 0 {
        return None;
    }
    Some(FragmentKey {
        source: u32_at(packet, 12),
        destination: u32_at(packet, 16),
        id: u16_at(packet, 4),
        protocol: packet[9],
    })
}

/// Returns the offset of a fragment in its datagram.
pub(crate) fn offset_of(packet: &[u8]) -> usize
    requires { IP_HEADER ≤ length packet.now }
    ensures { result ≡ keys.offset_of packet.now }
{
    (u16_at(packet, 6) % 8192) as usize * 8
}
