//! Where a packet comes from, and where it goes.
ghost use Rattle.std.specs.Prelude.{◌≡◌};
ghost use Rattle.play_why.specs.Findings as findings;

use crate::ports::port_in;
use flat_plain::{u16_at, u32_at};
use params::IP_HEADER;

/// What the header of a packet says of its way.
#[derive(Clone, Copy, Debug, PartialEq, Eq)]
pub struct Ends {
    pub source: u32,
    pub destination: u32,
    pub protocol: u8,
    /// Its identification.
    pub id: u16,
    /// The ports, if the packet has the front of a UDP datagram after an IP header without options, or those of its
    /// datagram that the caller knew.
    pub source_port: Option<u16>,
    pub destination_port: Option<u16>,
}

/// Returns the source port of a packet with this destination port.
fn source_port(destination: Option<u16>, packet: &[u8]) -> Option<u16>
    requires { findings.HasPort destination packet.now }
    ensures { result ≡ findings.source_port destination packet.now }
{
    match destination {
        Some(_) => Some(u16_at(packet, 20)),
        None => None,
    }
}

/// Returns the port that a packet shows, or the one that is known.
fn shown_or(shown: Option<u16>, known: Option<u16>) -> Option<u16>
    ensures { result ≡ findings.shown_or shown known }
{
    match shown {
        Some(port) => Some(port),
        None => known,
    }
}

/// Returns the ends of a packet with a header of 20 bytes or more. `source` and `destination` are the ports of its
/// datagram, if they are known.
pub(crate) fn ends_of(packet: &[u8], source: Option<u16>, destination: Option<u16>) -> Option<Ends>
    ensures { result ≡ findings.ends_of packet.now source destination }
{
    if packet.len() < IP_HEADER as usize {
        return None;
    }
    let port = port_in(packet);
    Some(Ends {
        source: u32_at(packet, 12),
        destination: u32_at(packet, 16),
        protocol: packet[9],
        id: u16_at(packet, 4),
        source_port: shown_or(source_port(port, packet), source),
        destination_port: shown_or(port, destination),
    })
}
