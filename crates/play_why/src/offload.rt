//! Checksums that the sender's card should have filled in after the packet was captured.
ghost use Rattle.std.specs.Prelude.{◌≡◌, ◌≤◌, IsTrue, length, if◌then◌else◌};
ghost use Rattle.params.specs.declared.TheConstants.{IP_MAX_PACKET, IP_UDP_HEADERS, UDP_HEADER};
ghost use Rattle.play_why.specs.Offload as offload;
ghost use Rattle.play_why.specs.Values.{carried_of};

use crate::blame;
use crate::sums::{COVERED, pseudo_sum, right_udp_sum};
use flat_plain::u16_at;
use params::{IP_UDP_HEADERS, PROTOCOL_UDP, UDP_HEADER};
use script_loop::Buffer;
use std::alloc::{AllocError, Global};

/// The most bytes of a packet.
const PACKET: usize = 65_535;

/// Returns whether a packet has a UDP datagram that isn't in fragments, after an IP header without options.
fn is_whole(packet: &[u8]) -> bool
    ensures { result ≡ offload.is_whole packet.now }
{
    IP_UDP_HEADERS as usize <= packet.len()
        && (packet[0] == 69 && (packet[9] == PROTOCOL_UDP && u16_at(packet, 6) % 16_384 == 0))
}

/// Returns whether a packet with a datagram has the sum of only the pseudo header as the datagram's checksum.
#[tactic(auto, unfolding(crate::specs::Offload::is_left_to_card))]
fn is_left(packet: &[u8]) -> bool
    ensures is { result ≡ offload.is_left_to_card packet.now }
    ensures packet { IsTrue result → IP_UDP_HEADERS ≤ length packet.now }
    ensures datagram { IsTrue result → UDP_HEADER ≤ length (carried_of packet.now) }
{
    if !is_whole(packet) {
        return false;
    }
    let datagram = blame::carried_of(packet);
    if datagram.len() < UDP_HEADER as usize {
        return false;
    }
    u16_at(datagram, 6) == pseudo_sum(packet, datagram)
}

/// Puts a packet with another UDP checksum into a buffer.
fn put_with_sum(filled: &mut Buffer<PACKET>, packet: &[u8], sum: u16)
    requires least { IP_UDP_HEADERS ≤ length packet.now }
    requires most { length packet.now ≤ IP_MAX_PACKET }
    ensures { filled.new ≡ offload.with_sum sum packet.now }
{
    let (front, _) = packet.split_at(26);
    let (_, rest) = packet.split_at(28);
    filled.clear();
    filled.append(front);
    filled.append(&[(sum / 256) as u8, (sum % 256) as u8]);
    filled.append(rest);
}

/// Does the work of a sender's card.
#[derive(Drop)]
pub struct Card {
    covered: Buffer<COVERED>,
    packet: Buffer<PACKET>,
}

impl Card {
    /// A card with its memory. Fails if the host has no memory.
    pub fn new(alloc: Global) -> Result<Card, AllocError> {
        Ok(Card {
            covered: Buffer::new(alloc)?,
            packet: Buffer::new(alloc)?,
        })
    }

    /// Puts a packet with the right UDP checksum into the buffer.
    #[tactic(auto, unfolding(crate::specs::Offload::filled_in))]
    fn put_filled(&mut self, packet: &[u8])
        requires packet { IP_UDP_HEADERS ≤ length packet.now }
        requires datagram { UDP_HEADER ≤ length (carried_of packet.now) }
        requires most { length packet.now ≤ IP_MAX_PACKET }
        ensures { self.new.packet ≡ offload.filled_in packet.now }
    {
        let sum = right_udp_sum(packet, blame::carried_of(packet), &mut self.covered);
        put_with_sum(&mut self.packet, packet, sum);
    }

    /// Returns whether a packet's UDP checksum was left to the sender's card: it's the sum of only the pseudo header.
    /// If so, `packet` then returns the packet with the right checksum. Datagrams in fragments are left as they are.
    pub fn fill(&mut self, packet: &[u8]) -> bool
        requires { length packet.now ≤ IP_MAX_PACKET }
        ensures left { result ≡ offload.is_left_to_card packet.now }
        ensures packet { self.new.packet
            ≡ (if offload.is_left_to_card packet.now then offload.filled_in packet.now else self.old.packet) }
    {
        if !is_left(packet) {
            return false;
        }
        self.put_filled(packet);
        true
    }

    /// Returns the packet that was filled in last.
    pub fn packet(&self) -> &[u8]
        ensures is { result.now ≡ self.now.packet }
        ensures most { length result.now ≤ IP_MAX_PACKET }
    {
        let _at_most = self.packet.len();
        self.packet.as_slice()
    }
}
