//! Sends a packet to its next hop, or holds it in a buffer until the hop's hardware address is known.
ghost use Rattle.std.specs.Prelude.{◌≡◌, ◌+◌, ◌<◌, ◌≤◌, ◌∷◌, ◌++◌, [], length, map, take, drop, IfSome, vec_capacity, vec_len};
ghost use Rattle.params.specs.declared.TheConstants.{IP_HEADER};
ghost use Rattle.flat_ether.specs.declared.sizes.TheConstants.{ETHER_HEADER, ETHER_MTU, ETHER_TYPE_IP};
ghost use Rattle.flat_ether.specs.Frames.{frame};
ghost use Rattle.flat_ether.specs.Links.{asks, counts_no_route, holds_packet, sends, route_of, with_place};
ghost use Rattle.ether_host.specs.Buffers.{held_in};
ghost use Rattle.ether_host.specs.Fronts.{buffer_front};

use crate::buffer::{PacketBuffer, ROOM, drop_at};
use crate::frames::{BODY, put_frame};
use crate::layer::LinkLayer;
use crate::table::{mac_of, place_of, put};
use flat_ether::{ETHER_BROADCAST, ETHER_TYPE_IP, HELD_PACKETS, Mac, Neighbour, Route};
use ip_out::u32_at;
use params::IP_HEADER;

/// Adds a packet, with its next hop, after those that wait already. It's written in its place, so that no copy of a
/// whole buffer is on the call stack.
fn put_packet(held: &mut Vec<PacketBuffer>, hop: u32, packet: &[u8])
    requires capacity { vec_len held.old < vec_capacity held.old }
    requires fits { length packet.now ≤ ETHER_MTU }
    ensures items { map held_in held.new.items
        ≡ map held_in held.old.items ++ record { hop = hop; packet = packet.now } ∷ [] }
    ensures capacity { vec_capacity held.new ≡ vec_capacity held.old }
{
    held.push_reserved(PacketBuffer::blank());
    if let Some(place) = held.last_mut() {
        place.fill(hop, packet);
    }
}

impl LinkLayer {
    ghost use Rattle.ether_host.specs.Inside.{link_seen};

    /// A place for a packet that waits is free then: if need be, that of the one that has waited longest.
    pub(crate) fn make_place(&mut self)
        ensures is { link_seen self.new ≡ with_place (link_seen self.old) }
        ensures some { vec_len self.new.held < vec_capacity self.new.held }
    {
        if self.held.len() >= HELD_PACKETS {
            drop_at(&mut self.held, 0);
            self.tallies.held_dropped = self.tallies.held_dropped.saturating_add(1);
        }
    }

    /// A packet waits for the hardware address of its next hop; if no place is free, the one that has waited longest is
    /// dropped.
    fn hold(&mut self, hop: u32, packet: &[u8])
        ensures { link_seen self.new ≡ holds_packet hop packet.now (link_seen self.old) }
    {
        if packet.len() > ROOM {
            self.tallies.too_long = self.tallies.too_long.saturating_add(1);
            return;
        }
        self.make_place();
        put_packet(&mut self.held, hop, packet);
    }

    /// Requests the hardware address of a next hop that isn't known.
    pub(crate) fn ask(&mut self, hop: u32)
        ensures { link_seen self.new ≡ asks hop (link_seen self.old) }
    {
        if place_of(self.neighbours.as_slice(), hop).is_none() {
            put(
                &mut self.neighbours,
                Neighbour {
                    ip: hop,
                    mac: None,
                    ticks: 0,
                    tries: 0,
                },
            );
        }
    }

    /// A packet or a reply without a route.
    pub(crate) fn count_no_route(&mut self)
        ensures { link_seen self.new ≡ counts_no_route (link_seen self.old) }
    {
        self.tallies.no_route = self.tallies.no_route.saturating_add(1);
    }

    /// The route of a packet; one without a header has none.
    fn route_of(&self, packet: &[u8]) -> Route
        ensures { result ≡ route_of (link_seen self.now) packet.now }
    {
        if packet.len() < IP_HEADER as usize {
            return Route::NoRoute;
        }
        self.link.route(&self.config, u32_at(packet, 16))
    }

    /// Sends the packet of `len` bytes that is in the buffer after the place of a header. Returns how many bytes the
    /// frame has, or `None` if the packet waits or has no route.
    pub(crate) fn send(&mut self, buffer: &mut [u8], len: usize) -> Option<usize>
        requires { ETHER_HEADER + len ≤ length buffer.old }
        ensures frame { buffer_front result buffer.new
            ≡ (sends (take len (drop ETHER_HEADER buffer.old)) (link_seen self.old)).0 }
        ensures link { link_seen self.new ≡ (sends (take len (drop ETHER_HEADER buffer.old)) (link_seen self.old)).1 }
        ensures fits { IfSome result (λ n. n ≤ length buffer.new) }
    {
        let route = self.route_of(&buffer[BODY..BODY + len]);
        let hop = match route {
            Route::All => return Some(self.framed(buffer, ETHER_BROADCAST, len)),
            Route::Hop(hop) => hop,
            Route::NoRoute => {
                self.count_no_route();
                return None;
            }
        };
        match mac_of(self.neighbours.as_slice(), hop) {
            Some(mac) => Some(self.framed(buffer, mac, len)),
            None => {
                self.hold(hop, &buffer[BODY..BODY + len]);
                self.ask(hop);
                None
            }
        }
    }

    /// Makes a frame of the packet of `len` bytes in the buffer.
    pub(crate) fn framed(&self, buffer: &mut [u8], mac: Mac, len: usize) -> usize
        requires { ETHER_HEADER + len ≤ length buffer.old }
        ensures frame { take result buffer.new
            ≡ frame mac self.now.link.mac ETHER_TYPE_IP (take len (drop ETHER_HEADER buffer.old)) }
        ensures long { result ≡ ETHER_HEADER + len }
    {
        put_frame(buffer, mac, self.link.mac, ETHER_TYPE_IP, len)
    }
}
