//! The clock.
ghost use Rattle.std.specs.Prelude.{◌≡◌, ◌≤◌, filter, length, map, vec_capacity};
ghost use Rattle.flat_ether.specs.Hosts.{Ticks};
ghost use Rattle.flat_ether.specs.Links.{ages, keeps_answer, neighbour_aged, neighbour_stays};
ghost use Rattle.ether_host.specs.Buffers.{is_resolvable_in};
ghost use Rattle.ether_host.specs.View.{halves};

use crate::buffer::{PacketBuffer, drop_at};
use crate::layer::LinkLayer;
use crate::table::place_of;
use arrayvec::ArrayVec;
use flat_ether::{ARP_TRIES, ERRORS_A_TICK, EXPIRED_DATAGRAMS, NEIGHBOURS, Neighbour};
use flat_model::FragmentKey;
use net_stack::{Expired, Stack};

/// A place for a datagram that expires.
const NONE_EXPIRED: Expired = Expired {
    key: FragmentKey {
        source: 0,
        destination: 0,
        id: 0,
        protocol: 0,
    },
    has_first: false,
};

/// A neighbour a tick later.
fn aged(neighbour: Neighbour) -> Neighbour
    ensures { result ≡ neighbour_aged neighbour }
{
    let ticks = neighbour.ticks.saturating_sub(1);
    Neighbour { ticks, ..neighbour }
}

/// Whether it's still known, or another request may be sent.
fn stays(neighbour: &Neighbour) -> bool
    ensures { result ≡ neighbour_stays neighbour.now }
{
    neighbour.ticks > 0 || (neighbour.mac.is_none() && neighbour.tries < ARP_TRIES)
}

/// The neighbours a tick later.
fn age(neighbours: &[Neighbour]) -> ArrayVec<Neighbour, NEIGHBOURS>
    requires { length neighbours.now ≤ NEIGHBOURS }
    ensures { result.items ≡ filter neighbour_stays (map neighbour_aged neighbours.now) }
{
    let mut kept = ArrayVec::new();
    for at in 0..neighbours.len() {
        let older = aged(neighbours[at]);
        if stays(&older) {
            kept.push(older);
        }
    }
    kept
}

/// Drops the packets whose next hop is neither known nor requested.
fn keep(held: &mut Vec<PacketBuffer>, neighbours: &[Neighbour])
    ensures kept { held.new.items ≡ filter (is_resolvable_in neighbours.now) held.old.items }
    ensures room { vec_capacity held.new ≡ vec_capacity held.old }
{
    let mut at = 0;
    'walk: while at < held.len() {
        if place_of(neighbours, held[at].hop).is_some() {
            at += 1;
        } else {
            drop_at(held, at);
        }
    }
}

impl LinkLayer {
    ghost use Rattle.ether_host.specs.Inside.{link_seen};

    /// Removes entries that expired, and drops the packets that waited for them.
    fn remove_expired(&mut self)
        ensures { link_seen self.new ≡ ages (link_seen self.old) }
    {
        self.claim = self.claim.ticked();
        self.errors_left = ERRORS_A_TICK;
        self.neighbours = age(self.neighbours.as_slice());
        let before = self.held.len();
        keep(&mut self.held, self.neighbours.as_slice());
        let lost = before.saturating_sub(self.held.len());
        self.tallies.unresolved = self.tallies.unresolved.saturating_add(lost as u64);
    }

    /// Drops the reply that waits if its next hop is neither known nor requested.
    fn keep_answer(&mut self)
        ensures { link_seen self.new ≡ keeps_answer (link_seen self.old) }
    {
        if self.answer.waits() && place_of(self.neighbours.as_slice(), self.answer_hop).is_none() {
            self.answer.clear();
            self.count_icmp_dropped();
        }
    }

    /// A tick of the stack and of its link. Neighbours that expired are removed, and what waited for them is dropped
    /// (`arptimer` of volume 2, chapter 21). An unfinished datagram that the stack drops may get an error, if its first
    /// fragment has arrived (RFC 792, "Time Exceeded"; RFC 1122, section 3.3.2).
    pub fn tick(&mut self, stack: &mut Stack)
        ensures { Ticks (halves stack.old (link_seen self.old)) (halves stack.new (link_seen self.new)) }
    {
        let mut expired = [NONE_EXPIRED; EXPIRED_DATAGRAMS];
        let count = stack.tick_told(&mut expired);
        self.remove_expired();
        self.keep_answer();
        self.report_expired(&expired[..count.min(EXPIRED_DATAGRAMS)]);
    }
}
