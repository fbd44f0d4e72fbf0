//! A packet that is due arrives: at the host with its destination address, or at all others.
ghost use Rattle.std.specs.Prelude.{◌≡◌, ◌∷◌, [], if◌then◌else◌, length, map, slice_get, take, IfSome};
ghost use Rattle.net_stack.specs.Runs.{AreCalls};
ghost use Rattle.segment.specs.Flying.{comes};
ghost use Rattle.segment.specs.Tallies.{with_received};
ghost use Rattle.segment.specs.Segment.{AtEach, received_in};
ghost use Rattle.segment.specs.Inside.{IsChangedAt, IsOnly, arriving_at, flying};

use crate::directory::Directory;
use crate::frame::Frame;
use crate::tally::Tally;
use crate::watch::Watch;
use crate::ways::{Arrival, hand_over};
use net_stack::Stack;
use params::LIMITED_BROADCAST;

/// A packet that is due, by its number, and the place of the only host that may receive it; `None` if each may.
#[derive(Clone, Copy)]
struct Due {
    number: usize,
    to: Option<usize>,
}

/// Whether a packet is for the host at a place.
fn is_for(frame: &Frame, place: usize, directory: &Directory) -> bool
    ensures { arriving_at place directory.now.configs.items (flying frame.now)
        ≡ (if result then take frame.now.len frame.now.room.value ∷ [] else []) }
{
    match directory.configs.get(place) {
        Some(config) => frame.goes_to(place, config),
        None => false,
    }
}

/// The place of the only host that may receive a packet: the one with its destination address. `None` if there is no
/// such host, so that the packet may be a broadcast.
fn receiver(frame: &Frame, directory: &Directory) -> Option<usize>
    ensures { IfSome result (IsOnly directory.now.configs.items (flying frame.now)) }
{
    let ip = frame.destination()?;
    if ip == LIMITED_BROADCAST {
        None
    } else {
        directory.find(ip)
    }
}

/// Counts a packet that is due at the host at a place, if it's for this host.
fn count_at(frame: &Frame, place: usize, directory: &Directory, tallies: &mut Vec<Tally>)
    ensures { IsChangedAt
        (λ t u. u ≡ with_received (length (arriving_at place directory.now.configs.items (flying frame.now))) t)
        place tallies.old.items tallies.new.items }
{
    if place < tallies.len() && is_for(frame, place, directory) {
        tallies[place] = tallies[place].with_one();
    }
}

/// Counts a packet that is due at each host that it's for.
fn count_due(frame: &Frame, due: Due, directory: &Directory, tallies: &mut Vec<Tally>)
    requires { IfSome due.to (IsOnly directory.now.configs.items (flying frame.now)) }
    ensures { AtEach
        (λ place t u. u ≡ with_received (length (arriving_at place directory.now.configs.items (flying frame.now))) t)
        tallies.old.items tallies.new.items }
{
    if let Some(place) = due.to {
        count_at(frame, place, directory, tallies);
        return;
    }
    for place in 0..tallies.len() {
        count_at(frame, place, directory, tallies);
    }
}

/// Passes a packet that is due to the host at a place, if it's for this host.
fn hand_at<W: Watch>(
    frame: &Frame,
    at: Arrival,
    directory: &Directory,
    stacks: &mut Vec<Stack>,
    watch: &mut W,
)
    ensures { IsChangedAt
        (λ s t. AreCalls s (comes (arriving_at at.place directory.now.configs.items (flying frame.now))) t)
        at.place stacks.old.items stacks.new.items }
{
    if at.place < stacks.len() && is_for(frame, at.place, directory) {
        hand_over(&mut stacks[at.place], frame.bytes(), at, watch);
    }
}

/// Passes a packet that is due to each host that it's for.
fn hand_due<W: Watch>(
    frame: &Frame,
    due: Due,
    directory: &Directory,
    stacks: &mut Vec<Stack>,
    watch: &mut W,
)
    requires { IfSome due.to (IsOnly directory.now.configs.items (flying frame.now)) }
    ensures { AtEach
        (λ place s t. AreCalls s (comes (arriving_at place directory.now.configs.items (flying frame.now))) t)
        stacks.old.items stacks.new.items }
{
    let number = due.number;
    if let Some(place) = due.to {
        hand_at(frame, Arrival { number, place }, directory, stacks, watch);
        return;
    }
    for place in 0..stacks.len() {
        hand_at(frame, Arrival { number, place }, directory, stacks, watch);
    }
}

/// All packets that are due arrive, and are counted.
pub(crate) fn deliver_all<W: Watch>(
    all: &[Frame],
    directory: &Directory,
    tallies: &mut Vec<Tally>,
    stacks: &mut Vec<Stack>,
    watch: &mut W,
)
    ensures counted { AtEach (λ place t u. u ≡ with_received
        (length (received_in place (slice_get directory.now.configs.items place) (map flying all.now))) t)
        tallies.old.items tallies.new.items }
    ensures hosts { AtEach (λ place s t. AreCalls s
        (comes (received_in place (slice_get directory.now.configs.items place) (map flying all.now))) t)
        stacks.old.items stacks.new.items }
{
    for number in 0..all.len() {
        let frame = &all[number];
        let to = receiver(frame, directory);
        let due = Due { number, to };
        count_due(frame, due, directory, tallies);
        hand_due(frame, due, directory, stacks, watch);
    }
}
