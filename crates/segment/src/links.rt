//! Hosts on an Ethernet: their links send frames, and frames arrive at them.
ghost use Rattle.std.specs.Prelude.{◌≡◌, ◌≤◌, ◌∷◌, [], if◌then◌else◌, take, Some, None, map, slice_get, length};
ghost use Rattle.params.specs.declared.TheConstants.{MAX_MTU};
ghost use Rattle.ether_host.specs.Inside.{link_seen};
ghost use Rattle.ether_host.specs.View.{halves};
ghost use Rattle.segment.specs.Flying.{sent_by};
ghost use Rattle.segment.specs.Frames.{AreFramesCollected, AreFramesDelivered, ReceiveEach, frames_below, frames_given, frames_received, frames_to, gives_short, hosts_of};
ghost use Rattle.segment.specs.Segment.{AtEach};
ghost use Rattle.segment.specs.declared.segment.TheConstants.{MAX_HOSTS};
ghost use Rattle.segment.specs.Tallies.{with_received};
ghost use Rattle.segment.specs.Inside.{AreSentBy, EachHost, flying, view};

use crate::chances::Impairment;
use crate::flight::Flight;
use crate::frame::Frame;
use crate::segment::Segment;
use crate::tally::Tally;
use crate::watch::{NoWatcher, Watch};
use crate::ways::{Arrival, show_due};
use ether_host::{LinkLayer, Mac};
use flat_ether::ETHER_MTU;
use net_stack::Stack;

/// The most frames that a host gives in a carry. If it has more, they wait for the next one.
pub const FRAMES: u32 = 256;

/// Lists the limits of a segment next to their values, which are this project's own. The function does nothing; its
/// contract is the list.
pub const fn numbers()
    ensures { (FRAMES ≡ 256) × (MAX_HOSTS ≡ 64) }
{}

impl Frame {
    /// Takes the next frame of this host. Returns whether it has one.
    pub(crate) fn give(&mut self, sender: usize, stack: &mut Stack, link: &mut LinkLayer) -> bool
        ensures step { (
          if result then Some (take self.new.len self.new.room.value) else None,
          halves stack.new
              (link_seen link.new),
        )
            ≡ gives_short (halves stack.old (link_seen link.old)) }
        ensures sender { self.new.sender ≡ sender }
        ensures wait { self.new.wait ≡ 0 }
    {
        self.sender = sender;
        self.wait = 0;
        if u32::from(stack.mtu()) > ETHER_MTU {
            return false;
        }
        match link.transmit(stack, &mut *self.room) {
            Some(len) => {
                self.len = len;
                true
            }
            None => false,
        }
    }
}

/// The frame in `hand` is sent by its fate. Beyond the capacity it's lost.
fn send<W: Watch>(flight: &mut Flight, impairment: &mut Impairment, watch: &mut W)
    ensures { AreSentBy flight.old impairment.old (flying flight.old.hand ∷ []) flight.new impairment.new }
{
    let fate = impairment.fate(flight.hand.sender);
    flight.enter(fate, watch);
}

/// Takes the frames that the host at a place gives.
fn take_frames<W: Watch>(
    flight: &mut Flight,
    impairment: &mut Impairment,
    sender: usize,
    stack: &mut Stack,
    link: &mut LinkLayer,
    watch: &mut W,
)
    ensures host { halves stack.new (link_seen link.new)
        ≡ (frames_given FRAMES (halves stack.old (link_seen link.old))).1 }
    ensures sent { AreSentBy flight.old impairment.old
        (sent_by sender (frames_given FRAMES (halves stack.old (link_seen link.old))).0) flight.new impairment.new }
{
    for _ in 0..FRAMES {
        if !flight.hand.give(sender, stack, link) {
            return;
        }
        send(flight, impairment, watch);
    }
}

/// Each host gives its frames.
fn collect_frames<W: Watch>(
    flight: &mut Flight,
    impairment: &mut Impairment,
    stacks: &mut Vec<Stack>,
    links: &mut Vec<LinkLayer>,
    watch: &mut W,
)
    ensures hosts { EachHost (λ place h k. k ≡ (frames_given FRAMES h).1)
        stacks.old.items links.old.items stacks.new.items links.new.items }
    ensures sent { AreSentBy flight.old impairment.old
        (frames_below (hosts_of stacks.old.items (map link_seen links.old.items)) (length links.old.items))
        flight.new impairment.new }
{
    for place in 0..links.len() {
        if place < stacks.len() {
            take_frames(
                flight,
                impairment,
                place,
                &mut stacks[place],
                &mut links[place],
                watch,
            );
        }
    }
}

/// The counters of the host at a place with this hardware address, after these frames arrived.
fn counted_to(due: &[Frame], place: usize, mac: Mac, before: Tally) -> Tally
    ensures { result ≡ with_received (length (frames_to place mac (map flying due.now))) before }
{
    let mut tally = before;
    for at in 0..due.len() {
        if due[at].is_addressed(place, mac) {
            tally = tally.with_one();
        }
    }
    tally
}

/// The counters of the host at a place, after these frames arrived.
fn counted(due: &[Frame], place: usize, links: &[LinkLayer], before: Tally) -> Tally
    ensures { result ≡ with_received
        (length (frames_received place (slice_get (map link_seen links.now) place) (map flying due.now))) before }
{
    match links.get(place) {
        Some(link) => counted_to(due, place, link.link().mac, before),
        None => before,
    }
}

/// Counts at each host the frames that arrive at it.
fn count_frames(due: &[Frame], links: &[LinkLayer], tallies: &mut Vec<Tally>)
    ensures { AtEach (λ place t u.
        u ≡ with_received
        (length (frames_received place (slice_get (map link_seen links.now) place) (map flying due.now))) t)
        tallies.old.items tallies.new.items }
{
    for place in 0..tallies.len() {
        tallies[place] = counted(due, place, links, tallies[place]);
    }
}

/// A frame arrives at a host.
fn hand_over<W: Watch>(
    stack: &mut Stack,
    link: &mut LinkLayer,
    frame: &[u8],
    at: Arrival,
    watch: &mut W,
)
    requires { length frame.now ≤ MAX_MTU }
    ensures { ReceiveEach (frame.now ∷ []) (halves stack.old (link_seen link.old))
        (halves stack.new (link_seen link.new)) }
{
    watch.arriving(at.number, at.place, stack, link.tallies());
    link.receive(stack, frame);
    watch.arrived(at.number, at.place, stack, link.tallies());
}

/// Passes to the host at a place all of these frames that are for it.
fn hand_frames<W: Watch>(
    due: &[Frame],
    place: usize,
    stack: &mut Stack,
    link: &mut LinkLayer,
    watch: &mut W,
)
    ensures { ReceiveEach (frames_to place (link_seen link.old).link.mac (map flying due.now))
        (halves stack.old (link_seen link.old)) (halves stack.new (link_seen link.new)) }
{
    let mac = link.link().mac;
    for at in 0..due.len() {
        let frame = &due[at];
        if frame.is_addressed(place, mac) {
            hand_over(
                stack,
                link,
                frame.bytes(),
                Arrival { number: at, place },
                watch,
            );
        }
    }
}

/// All frames for a host are passed to it.
fn deliver_frames<W: Watch>(
    due: &[Frame],
    stacks: &mut Vec<Stack>,
    links: &mut Vec<LinkLayer>,
    watch: &mut W,
)
    ensures { EachHost (λ place h k. ReceiveEach (frames_to place h.link.link.mac (map flying due.now)) h k)
        stacks.old.items links.old.items stacks.new.items links.new.items }
{
    for place in 0..links.len() {
        if place < stacks.len() {
            hand_frames(due, place, &mut stacks[place], &mut links[place], watch);
        }
    }
}

impl Segment {
    /// Each host on an Ethernet gives the frames that its link has, at most 256, from place 0 on. The fate of a frame
    /// is drawn then, as in `collect` for a packet.
    pub fn collect_frames(&mut self)
        ensures { AreFramesCollected (view self.old) (view self.new) }
    {
        self.collect_frames_watched(&mut NoWatcher);
    }

    /// Like `collect_frames`, and calls `sent` for each frame, in the order in which they are sent.
    pub fn collect_frames_watched<W: Watch>(&mut self, watch: &mut W)
        ensures { AreFramesCollected (view self.old) (view self.new) }
    {
        collect_frames(
            &mut self.flight,
            &mut self.impairment,
            &mut self.stacks,
            &mut self.links,
            watch,
        );
    }

    /// What is due arrives: each frame at the host with its destination address, a broadcast at all others, and none at
    /// its sender. The order is drawn before, as in `deliver`.
    pub fn deliver_frames(&mut self)
        ensures { AreFramesDelivered (view self.old) (view self.new) }
    {
        self.deliver_frames_watched(&mut NoWatcher);
    }

    /// Like `deliver_frames`, with the calls of `deliver_watched`.
    pub fn deliver_frames_watched<W: Watch>(&mut self, watch: &mut W)
        ensures { AreFramesDelivered (view self.old) (view self.new) }
    {
        let flight = &mut self.flight;
        flight.leave();
        self.impairment.shuffle(&mut flight.due);
        count_frames(
            flight.due.as_slice(),
            self.links.as_slice(),
            &mut self.impairment.tallies,
        );
        show_due(flight.due.as_slice(), watch);
        deliver_frames(
            flight.due.as_slice(),
            &mut self.stacks,
            &mut self.links,
            watch,
        );
    }
}
