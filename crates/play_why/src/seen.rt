//! A record of a capture, as the judge gets it.
ghost use Rattle.std.specs.Prelude.{◌≤◌, length};
ghost use Rattle.params.specs.declared.TheConstants.{IP_MAX_PACKET};

/// A record with an IPv4 packet that has arrived at a host.
#[derive(Clone, Copy)]
pub(crate) struct Seen<'a> {
    /// Its number in the capture, from 1.
    pub(crate) number: u64,
    /// How many bytes the record had on the wire.
    pub(crate) original: u32,
    /// How many of them the capture kept.
    pub(crate) captured: u32,
    /// The packet, with its IP header first.
    pub(crate) packet: &'a [u8],
    /// The reassembled datagram without an IP header, if the packet completed one that was dropped; otherwise empty.
    pub(crate) whole: &'a [u8],
    /// Whether its UDP checksum was left to the sender's card, and filled in before it arrived.
    pub(crate) filled: bool,
    /// The record of the ICMP error with which the host refused it, if there is one.
    pub(crate) refused: Option<u64>,
    /// The ports of its datagram, if they are known from another fragment.
    pub(crate) source_port: Option<u16>,
    pub(crate) destination_port: Option<u16>,
    ghost packet_len: { length packet.now ≤ IP_MAX_PACKET },
    ghost whole_len: { length whole.now ≤ IP_MAX_PACKET },
}
