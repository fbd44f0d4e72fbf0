//! What the link sends by itself: ARP replies and requests, packets that waited, the ICMP reply, and the frames for its
//! address.
ghost use Rattle.std.specs.Prelude.{◌≡◌, ◌+◌, ◌<◌, ◌≤◌, drop, length, map, take, IfSome};
ghost use Rattle.flat_ether.specs.declared.sizes.TheConstants.{ETHER_HEADER, ETHER_MTU};
ghost use Rattle.flat_ether.specs.Claims.{claim_sent};
ghost use Rattle.flat_ether.specs.Frames.{ether_broadcast};
ghost use Rattle.flat_ether.specs.Links.{first_ready, gives_answer, gives_claim, gives_held, gives_own, gives_reply, gives_request, request};
ghost use Rattle.ether_host.specs.Fronts.{IsFrameGiven};
ghost use Rattle.ether_host.specs.Buffers.{held_in};

use crate::buffer::{PacketBuffer, drop_at};
use crate::bytes::put_bytes;
use crate::frames::{ARP, BODY, arp_bytes, put_frame};
use crate::layer::LinkLayer;
use crate::table::{asked_again, asked_at, due, mac_of};
use flat_ether::{
    ARP_REPLY, ARP_REQUEST, ClaimFrame, ETHER_BROADCAST, ETHER_TYPE_ARP, Mac, NO_MAC, Neighbour,
};

/// The place of the first packet whose next hop is known, and that hop's hardware address.
fn first_ready(neighbours: &[Neighbour], held: &[PacketBuffer]) -> Option<(usize, Mac)>
    ensures is { result ≡ first_ready neighbours.now (map held_in held.now) }
    ensures within { IfSome result (λ found. found.0 < length held.now) }
{
    for at in 0..held.len() {
        if let Some(mac) = mac_of(neighbours, held[at].hop) {
            return Some((at, mac));
        }
    }
    None
}

/// Writes the body of a frame after the place of its header.
fn put_body(buffer: &mut [u8], body: &[u8])
    requires { ETHER_HEADER + length body.now ≤ length buffer.old }
    ensures { take (length body.now) (drop ETHER_HEADER buffer.new) ≡ body.now }
{
    put_bytes(buffer, BODY, body);
}

impl LinkLayer {
    ghost use Rattle.ether_host.specs.Inside.{link_seen};

    /// Writes an ARP request for an address, with `sender` as the sender's address. Returns how many bytes the frame
    /// has.
    fn request(&self, buffer: &mut [u8], to: Mac, sender: u32, target: u32) -> usize
        requires { ETHER_HEADER + ETHER_MTU ≤ length buffer.old }
        ensures frame { take result buffer.new ≡ request (link_seen self.now) to sender target }
        ensures fits { result ≤ length buffer.new }
    {
        let body = arp_bytes(ARP_REQUEST, self.link.mac, sender, NO_MAC, target);
        put_body(buffer, &body);
        put_frame(buffer, to, self.link.mac, ETHER_TYPE_ARP, ARP)
    }

    /// Writes a request for the host's own address, with `sender` as the sender's address: 0 makes it a probe, the
    /// host's address an announcement.
    fn ask_for_own(&mut self, buffer: &mut [u8], sender: u32) -> usize
        requires { ETHER_HEADER + ETHER_MTU ≤ length buffer.old }
        ensures frame { take result buffer.new
            ≡ request (link_seen self.old) ether_broadcast sender (link_seen self.old).config.addr }
        ensures link { link_seen self.new
            ≡ record (link_seen self.old) { claim = claim_sent (link_seen self.old).claim } }
        ensures fits { result ≤ length buffer.new }
    {
        self.claim = self.claim.sent();
        self.request(buffer, ETHER_BROADCAST, sender, self.config.addr)
    }

    /// A probe or an announcement of the host's address, if one is due.
    pub(crate) fn give_claim(&mut self, buffer: &mut [u8]) -> Option<usize>
        requires { ETHER_HEADER + ETHER_MTU ≤ length buffer.old }
        ensures { IsFrameGiven (gives_claim (link_seen self.old)) result buffer.new (link_seen self.new) }
    {
        match self.claim.due() {
            ClaimFrame::Probe => Some(self.ask_for_own(buffer, 0)),
            ClaimFrame::Announcement => Some(self.ask_for_own(buffer, self.config.addr)),
            ClaimFrame::Nothing => None,
        }
    }

    /// The ARP reply that has been due longest.
    fn give_reply(&mut self, buffer: &mut [u8]) -> Option<usize>
        requires { ETHER_HEADER + ETHER_MTU ≤ length buffer.old }
        ensures { IsFrameGiven (gives_reply (link_seen self.old)) result buffer.new (link_seen self.new) }
    {
        if self.replies.is_empty() {
            return None;
        }
        let asker = self.replies.remove(0);
        let body = arp_bytes(
            ARP_REPLY,
            self.link.mac,
            self.config.addr,
            asker.mac,
            asker.ip,
        );
        put_body(buffer, &body);
        Some(put_frame(buffer, asker.mac, self.link.mac, ETHER_TYPE_ARP, ARP))
    }

    /// A request for the first neighbour for which one is due.
    fn give_request(&mut self, buffer: &mut [u8]) -> Option<usize>
        requires { ETHER_HEADER + ETHER_MTU ≤ length buffer.old }
        ensures { IsFrameGiven (gives_request (link_seen self.old)) result buffer.new (link_seen self.new) }
    {
        let at = due(self.neighbours.as_slice())?;
        let neighbour = self.neighbours[at];
        let to = asked_at(neighbour.mac);
        self.neighbours[at] = asked_again(neighbour);
        Some(self.request(buffer, to, self.config.addr, neighbour.ip))
    }

    /// The first packet that waited and whose next hop is known now.
    fn give_held(&mut self, buffer: &mut [u8]) -> Option<usize>
        requires { ETHER_HEADER + ETHER_MTU ≤ length buffer.old }
        ensures { IsFrameGiven (gives_held (link_seen self.old)) result buffer.new (link_seen self.new) }
    {
        let (at, mac) = first_ready(self.neighbours.as_slice(), self.held.as_slice())?;
        let waiting = &self.held[at];
        let bytes = waiting.bytes();
        let len = bytes.len();
        put_body(buffer, bytes);
        drop_at(&mut self.held, at);
        Some(self.framed(buffer, mac, len))
    }

    /// The next packet of the reply that waits, if the hardware address of its next hop is known.
    fn give_answer(&mut self, buffer: &mut [u8]) -> Option<usize>
        requires { ETHER_HEADER + ETHER_MTU ≤ length buffer.old }
        ensures { IsFrameGiven (gives_answer (link_seen self.old)) result buffer.new (link_seen self.new) }
    {
        let mac = mac_of(self.neighbours.as_slice(), self.answer_hop)?;
        let len = self.answer.next(buffer)?;
        Some(self.framed(buffer, mac, len))
    }

    /// The next of these frames.
    pub(crate) fn give_own(&mut self, buffer: &mut [u8]) -> Option<usize>
        requires { ETHER_HEADER + ETHER_MTU ≤ length buffer.old }
        ensures { IsFrameGiven (gives_own (link_seen self.old)) result buffer.new (link_seen self.new) }
    {
        if let Some(len) = self.give_claim(buffer) {
            return Some(len);
        }
        if let Some(len) = self.give_reply(buffer) {
            return Some(len);
        }
        if let Some(len) = self.give_request(buffer) {
            return Some(len);
        }
        if let Some(len) = self.give_held(buffer) {
            return Some(len);
        }
        self.give_answer(buffer)
    }
}
