//! Ticks of hosts.
ghost use Rattle.std.specs.Prelude.{◌≡◌, true, replicate};
ghost use Rattle.flat_model.specs.Amounts.Choice.{Choice};
ghost use Rattle.flat_model.specs.Machine.Event.{Tick, Done};
ghost use Rattle.net_stack.specs.Runs.{AreCalls};
ghost use Rattle.segment.specs.Inside.{view};
ghost use Rattle.segment.specs.Law.{AreActs, Ether, TicksHost};
ghost use Rattle.segment.specs.Segment.{is_linked};
ghost use Rattle.play_wire.specs.Acts.{AreLedTo, call_turn};
ghost use Rattle.play_wire.specs.Inside.{IsExchanged, IsKept};

use net_stack::Stack;
use segment::Segment;
use std::mem;

/// Exchanges a stack with that of a host. Returns whether there is such a host.
pub(crate) fn exchange(segment: &mut Segment, place: usize, stack: &mut Stack) -> bool
    ensures { Choice result (IsExchanged place (view segment.old) stack.old (view segment.new) stack.new)
        (IsKept place (view segment.old) (view segment.new)) }
{
    match segment.stack(place) {
        Some(here) => {
            mem::swap(here, stack);
            true
        }
        None => false,
    }
}

/// Lets this many ticks pass at a stack.
pub(crate) fn tick_stack(stack: &mut Stack, count: u32)
    ensures { AreCalls stack.old (replicate count (call_turn Tick Done)) stack.new }
{
    let mut passed = 0;
    while passed < count {
        stack.tick();
        passed += 1;
    }
}

/// Lets this many ticks pass at the host at a place, which is on an Ethernet.
pub(crate) fn tick_linked(segment: &mut Segment, place: usize, count: u32)
    requires { is_linked place (view segment.old) ≡ true }
    ensures { AreActs (view segment.old) (replicate count (Ether (TicksHost place))) (view segment.new) }
{
    let mut ticked = 0;
    while ticked < count {
        segment.tick_host(place);
        ticked += 1;
    }
}

/// Lets this many ticks pass at the stack of the host at a place, if there is such a host. Meanwhile the host has the
/// spare stack.
fn tick_bare(segment: &mut Segment, spare: &mut Stack, place: usize, count: u32)
    ensures { AreLedTo (view segment.old) (view segment.new) }
{
    if exchange(segment, place, spare) {
        tick_stack(spare, count);
        exchange(segment, place, spare);
    }
}

/// Lets this many ticks pass at the host at a place, with its link, if it has one; if there is no such host, does
/// nothing.
fn tick_host(segment: &mut Segment, spare: &mut Stack, place: usize, count: u32)
    ensures { AreLedTo (view segment.old) (view segment.new) }
{
    if segment.is_linked(place) {
        tick_linked(segment, place, count);
    } else {
        tick_bare(segment, spare, place, count);
    }
}

/// Lets this many ticks pass at each host.
pub(crate) fn tick_all(segment: &mut Segment, spare: &mut Stack, count: u32)
    ensures { AreLedTo (view segment.old) (view segment.new) }
{
    for place in 0..segment.hosts() {
        tick_host(segment, spare, place, count);
    }
}
