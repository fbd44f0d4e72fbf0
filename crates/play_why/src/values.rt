//! What is in a packet that was dropped, and what would be right.
ghost use Rattle.std.specs.Prelude.{◌≡◌, ◌≤◌, length};
ghost use Rattle.params.specs.declared.TheConstants.{IP_HEADER, IP_MAX_PACKET, UDP_HEADER};
ghost use Rattle.play_why.specs.Values as values;

use crate::blame::datagram_of;
use crate::seen::Seen;
use crate::sums::{COVERED, right_header_sum, right_udp_sum};
use flat_model::Why;
use flat_plain::{head_of, u16_at, u32_at};
use params::{IP_HEADER, UDP_HEADER};
use script_loop::Buffer;

/// What is in a packet that was dropped for a cause, and what would be right.
#[derive(Clone, Copy, Debug, PartialEq, Eq)]
pub enum Value {
    /// How many bytes arrived, and how many a header has at least.
    Short(u32, u32),
    /// The version of the IP header, where 4 would be right.
    Version(u8),
    /// How many words of 4 bytes the IP header has, where 5 would be right.
    HeaderWords(u8),
    /// A checksum, and the one that would be right.
    Sums(u16, u16),
    /// The length in a header, and how many bytes arrived.
    Lengths(u16, u32),
    /// The destination of the packet, and the address of the host at which it arrived.
    Elsewhere(u32, u32),
    /// The offset of a fragment in its datagram, and how many bytes it carries.
    Carried(u32, u32),
    /// The number of a protocol other than UDP.
    Protocol(u8),
    /// How many bytes the datagram carries.
    Payload(u32),
    /// The destination port.
    Port(u16),
    /// No buffer of the pool is free.
    NoneLeft,
}

/// Returns the value in a packet's header, or in what it carries other than UDP, that shows the cause.
#[tactic(auto, unfolding(crate::specs::Values::header_value))]
fn header_value(why: Why, packet: &[u8], ours: u32, covered: &mut Buffer<COVERED>) -> Value
    requires least { IP_HEADER ≤ length packet.now }
    requires most { length packet.now ≤ IP_MAX_PACKET }
    ensures { result ≡ values.header_value why packet.now ours }
{
    match why {
        Why::TooSmall => Value::Short(packet.len() as u32, IP_HEADER),
        Why::BadVersion => Value::Version(packet[0] / 16),
        Why::BadHeaderLength | Why::Options => Value::HeaderWords(packet[0] % 16),
        Why::BadSum => Value::Sums(u16_at(packet, 10), right_header_sum(packet, covered)),
        Why::BadLength | Why::TooShort => { Value::Lengths(u16_at(packet, 2), packet.len() as u32) }
        Why::CantForward => Value::Elsewhere(u32_at(packet, 16), ours),
        Why::BadFragment | Why::FragmentDropped => {
            let carried = u32::from(u16_at(packet, 2)).saturating_sub(IP_HEADER);
            Value::Carried(head_of(packet).offset, carried)
        }
        Why::NoProtocol => Value::Protocol(packet[9]),
        Why::UdpHeaderDrops
        | Why::UdpBadLength
        | Why::UdpBadSum
        | Why::UdpNoPort
        | Why::UdpNoPortBroadcast
        | Why::UdpFullSocket
        | Why::NoBufs => Value::NoneLeft,
    }
}

/// Returns the value in a datagram of 8 bytes or more that shows the cause.
#[tactic(auto, unfolding(crate::specs::Values::datagram_value))]
fn datagram_value(why: Why, packet: &[u8], datagram: &[u8], covered: &mut Buffer<COVERED>) -> Value
    requires packet { IP_HEADER ≤ length packet.now }
    requires least { UDP_HEADER ≤ length datagram.now }
    requires most { length datagram.now ≤ IP_MAX_PACKET }
    ensures { result ≡ values.datagram_value why packet.now datagram.now }
{
    match why {
        Why::UdpBadLength => Value::Lengths(u16_at(datagram, 4), datagram.len() as u32),
        Why::UdpBadSum => Value::Sums(
            u16_at(datagram, 6),
            right_udp_sum(packet, datagram, covered),
        ),
        Why::UdpFullSocket => Value::Payload(datagram.len() as u32 - UDP_HEADER),
        _ => Value::Port(u16_at(datagram, 2)),
    }
}

/// Returns whether a cause is one of UDP.
fn is_of_udp(why: Why) -> bool
    ensures { result ≡ values.is_of_udp why }
{
    matches!(
        why,
        Why::UdpHeaderDrops
            | Why::UdpBadLength
            | Why::UdpBadSum
            | Why::UdpNoPort
            | Why::UdpNoPortBroadcast
            | Why::UdpFullSocket
    )
}

/// Returns the value that shows why a packet was dropped for this cause. `covered` is a buffer for the work.
#[tactic(auto, unfolding(crate::specs::Values::cause_value))]
pub(crate) fn value_of(why: Why, seen: &Seen<'_>, ours: u32, covered: &mut Buffer<COVERED>) -> Value
    ensures { result ≡ values.cause_value why seen.now.packet.now
        (values.datagram_of seen.now.packet.now seen.now.whole.now) ours }
{
    let packet = seen.packet;
    let datagram = datagram_of(seen);
    if packet.len() < IP_HEADER as usize {
        Value::Short(packet.len() as u32, IP_HEADER)
    } else if !is_of_udp(why) {
        header_value(why, packet, ours, covered)
    } else if datagram.len() < UDP_HEADER as usize {
        Value::Short(datagram.len() as u32, UDP_HEADER)
    } else {
        datagram_value(why, packet, datagram, covered)
    }
}
