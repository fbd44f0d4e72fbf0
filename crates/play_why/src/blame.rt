//! Who is to blame for a drop: the packet, this stack, a copy, the capture, the sender's card or the host.
ghost use Rattle.std.specs.Prelude.{◌≡◌, ◌≤◌, length};
ghost use Rattle.params.specs.declared.TheConstants.{IP_MAX_PACKET};
ghost use Rattle.play_why.specs.Findings as findings;
ghost use Rattle.play_why.specs.Values as values;

use crate::seen::Seen;
use crate::sums::pseudo_sum;
use flat_model::Why;
use flat_plain::u16_at;
use params::{IP_HEADER, UDP_HEADER};

/// Who is to blame for a cause.
#[derive(Clone, Copy, Debug, PartialEq, Eq)]
pub enum Blame {
    /// The packet, as it was on the wire.
    Packet,
    /// This stack, which lacks what other hosts have: protocols, IP options, longer receive queues and more buffers.
    Stack,
    /// Nobody: fragments that arrived before have all bytes of this one.
    Copy,
    /// The capture, which kept only a part of the record.
    Capture,
    /// The sender's card, which should have filled in the checksum after the packet was captured.
    Card,
    /// The host, which refused the packet with an ICMP error.
    Host,
}

/// Returns what a packet carries, by its total length.
#[tactic(auto, unfolding(crate::specs::Values::carried_of))]
pub(crate) fn carried_of(packet: &[u8]) -> &[u8]
    ensures is { result.now ≡ values.carried_of packet.now }
    ensures most { length result.now ≤ length packet.now }
{
    let least = IP_HEADER as usize;
    if packet.len() < least {
        return &packet[packet.len()..];
    }
    let end = (u16_at(packet, 2) as usize).min(packet.len());
    &packet[least..least + end.saturating_sub(least)]
}

/// Returns the datagram that a packet carries, or the reassembled one if there is one.
#[tactic(auto, unfolding(crate::specs::Values::datagram_of))]
pub(crate) fn datagram_of<'a>(seen: &Seen<'a>) -> &'a [u8]
    ensures is { result.now ≡ values.datagram_of seen.now.packet.now seen.now.whole.now }
    ensures most { length result.now ≤ IP_MAX_PACKET }
{
    if seen.whole.is_empty() {
        carried_of(seen.packet)
    } else {
        seen.whole
    }
}

/// Returns who is to blame for a packet that is shorter than its header says.
pub(crate) fn blame_short(seen: &Seen<'_>) -> Blame
    ensures { result ≡ findings.blame_short seen.now }
{
    if seen.captured < seen.original {
        Blame::Capture
    } else {
        Blame::Packet
    }
}

/// Returns who is to blame for a wrong UDP checksum.
#[tactic(auto, unfolding(crate::specs::Findings::blame_sum))]
fn blame_sum(packet: &[u8], datagram: &[u8]) -> Blame
    ensures { result ≡ findings.blame_sum packet.now datagram.now }
{
    if packet.len() < IP_HEADER as usize || datagram.len() < UDP_HEADER as usize {
        return Blame::Packet;
    }
    if u16_at(datagram, 6) == pseudo_sum(packet, datagram) {
        Blame::Card
    } else {
        Blame::Packet
    }
}

/// Returns who is to blame if no socket is bound to the port of a packet.
fn blame_port(refused: Option<u64>) -> Blame
    ensures { result ≡ findings.blame_port refused }
{
    match refused {
        Some(_) => Blame::Host,
        None => Blame::Packet,
    }
}

/// Returns who is to blame for a cause.
#[tactic(auto, unfolding(crate::specs::Findings::blame_of))]
pub(crate) fn blame_of(seen: &Seen<'_>, why: Why) -> Blame
    ensures { result ≡ findings.blame_of seen.now why }
{
    match why {
        Why::TooSmall | Why::TooShort => blame_short(seen),
        Why::UdpBadSum => blame_sum(seen.packet, datagram_of(seen)),
        Why::UdpNoPort => blame_port(seen.refused),
        Why::Options | Why::NoProtocol | Why::UdpFullSocket | Why::NoBufs => Blame::Stack,
        Why::FragmentDropped => Blame::Copy,
        _ => Blame::Packet,
    }
}
