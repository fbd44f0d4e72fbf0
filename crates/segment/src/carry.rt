//! Packets that wait in the output queues are carried.
ghost use Rattle.std.specs.Prelude.{◌≡◌, ◌-◌, length};
ghost use Rattle.std.specs.List.{list_all};
ghost use Rattle.net_stack.specs.Runs.{AreCalls};
ghost use Rattle.segment.specs.Flying.{transmits_of, waiting};
ghost use Rattle.segment.specs.Segment.{AreCarried, AtEach, IsCarried, IsCollected, HasComeDue, given_below, is_quiet_segment, is_silent};
ghost use Rattle.segment.specs.Inside.{AreSentBy, view};

use crate::chances::Impairment;
use crate::deliver::deliver_all;
use crate::flight::Flight;
use crate::segment::Segment;
use crate::watch::{NoWatcher, Watch};
use crate::ways::{show_due, take_all};
use net_stack::Stack;

/// Whether no packet waits for the link of any of these.
fn nothing_waits(stacks: &[Stack]) -> bool
    ensures { result ≡ list_all is_silent stacks.now }
{
    let mut rest = stacks;
    while let [stack, left @ ..] = rest {
        if stack.output_len() != 0 {
            return false;
        }
        rest = left;
    }
    true
}

/// Each host gives all packets that wait for its link.
fn collect_all<W: Watch>(
    flight: &mut Flight,
    impairment: &mut Impairment,
    stacks: &mut Vec<Stack>,
    watch: &mut W,
)
    ensures hosts { AtEach (λ place s t. AreCalls s (transmits_of (waiting s)) t) stacks.old.items stacks.new.items }
    ensures sent { AreSentBy flight.old impairment.old (given_below stacks.old.items (length stacks.old.items))
        flight.new impairment.new }
{
    for place in 0..stacks.len() {
        take_all(flight, impairment, place, &mut stacks[place], watch);
    }
}

impl Segment {
    /// Each host gives all that waits for its link, from place 0 on. The fate of a packet is drawn then, by the chances
    /// of the host that sends it: whether it's lost; if not, whether it's repeated; and the delay of each copy, in
    /// carries. A copy beyond the capacity is lost too.
    pub fn collect(&mut self)
        ensures { IsCollected (view self.old) (view self.new) }
    {
        self.collect_watched(&mut NoWatcher);
    }

    /// Like `collect`, and calls `sent` for each packet, in the order in which they are sent.
    pub fn collect_watched<W: Watch>(&mut self, watch: &mut W)
        ensures { IsCollected (view self.old) (view self.new) }
    {
        collect_all(
            &mut self.flight,
            &mut self.impairment,
            &mut self.stacks,
            watch,
        );
    }

    /// What is due arrives: each packet at the host with its destination address, a broadcast at all others, and none
    /// at its sender. Before that it's drawn for each but the last, from the first on, whether it's exchanged with the
    /// one after it. What isn't due yet is then one carry closer.
    pub fn deliver(&mut self)
        ensures { HasComeDue (view self.old) (view self.new) }
    {
        self.deliver_watched(&mut NoWatcher);
    }

    /// Like `deliver`, and calls `due` for each packet that is due. Then, packet by packet, it calls for each host that
    /// receives it, from place 0 on, `arriving` before the packet arrives, and `arrived` after it.
    pub fn deliver_watched<W: Watch>(&mut self, watch: &mut W)
        ensures { HasComeDue (view self.old) (view self.new) }
    {
        let flight = &mut self.flight;
        flight.leave();
        self.impairment.shuffle(&mut flight.due);
        show_due(flight.due.as_slice(), watch);
        deliver_all(
            flight.due.as_slice(),
            &self.directory,
            &mut self.impairment.tallies,
            &mut self.stacks,
            watch,
        );
    }

    /// Carries what waits in the output queues once: `collect`, and then `deliver`.
    pub fn carry(&mut self)
        ensures { IsCarried (view self.old) (view self.new) }
    {
        self.collect();
        self.deliver();
    }

    /// Whether nothing is under way, and nothing waits for a link.
    pub fn is_quiet(&self) -> bool
        ensures { result ≡ is_quiet_segment (view self.now) }
    {
        self.flight.frames.is_empty() && nothing_waits(self.stacks.as_slice())
    }

    /// Carries until nothing is under way and nothing waits for a link, but at most `most` times. Returns whether
    /// nothing is left.
    pub fn carry_all(&mut self, most: u32) -> bool
        ensures carried { AreCarried most (view self.old) (view self.new) }
        ensures quiet { result ≡ is_quiet_segment (view self.new) }
    {
        for _ in 0..most {
            if self.is_quiet() {
                return true;
            }
            self.carry();
        }
        self.is_quiet()
    }
}
