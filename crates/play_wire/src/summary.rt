//! The counters of each host.
ghost use Rattle.std.specs.Prelude.{◌≡◌, option_map, slice_get};
ghost use Rattle.net_stack.specs.Stack.{state_of};
ghost use Rattle.segment.specs.Inside.{view};
ghost use Rattle.play_wire.specs.Acts.{AreLedTo};

use crate::add::{add, add_number};
use crate::names::NAME;
use crate::show::name_at;
use crate::ticks::exchange;
use flat_model::{Counter, Counters};
use net_stack::Stack;
use play_show::SHOWN;
use play_text::causes;
use script_loop::Buffer;
use segment::{Segment, Tally};

/// Appends a count.
fn add_count(text: &mut Buffer<SHOWN>, what: &[u8], count: u64) {
    add(text, what);
    add_number(text, count);
}

/// Appends how many packets were dropped, by the counters that count them.
fn add_drops(text: &mut Buffer<SHOWN>, counters: &Counters) {
    for why in causes() {
        let count = counters.value(why.counter());
        if count != 0 {
            add(text, b", ");
            add(text, why.counter().name().as_bytes());
            add_count(text, b" ", count);
        }
    }
}

/// Appends what was counted of a host, as a line.
fn add_host(text: &mut Buffer<SHOWN>, name: &[u8], tally: Tally, counters: &Counters) {
    add(text, b"    ");
    add(text, name);
    add_count(text, b": sent ", tally.sent);
    add_count(text, b", lost ", tally.lost);
    add_count(text, b", repeated ", tally.repeated);
    add_count(text, b", received ", tally.received);
    add_count(
        text,
        b", reassembled ",
        counters.value(Counter::IpReassembled),
    );
    add_drops(text, counters);
    add(text, b"\n");
}

/// Returns the counters of the host at a place. Nothing changes.
pub(crate) fn counters_at(
    segment: &mut Segment,
    spare: &mut Stack,
    place: usize,
) -> Option<Counters>
    ensures same { view segment.new ≡ view segment.old }
    ensures is { result ≡ option_map (λ s. (state_of s).counters) (slice_get (view segment.old).stacks place) }
{
    if exchange(segment, place, spare) {
        let counters = spare.counters();
        exchange(segment, place, spare);
        Some(counters)
    } else {
        None
    }
}

/// Reports the counters of the host at a place, if there is one.
fn report_host(
    segment: &mut Segment,
    spare: &mut Stack,
    names: &[Buffer<NAME>],
    place: usize,
    below: &mut Buffer<SHOWN>,
)
    ensures { AreLedTo (view segment.old) (view segment.new) }
{
    let counters = counters_at(segment, spare, place);
    if let (Some(tally), Some(counters)) = (segment.tally(place), counters) {
        add_host(below, name_at(names, place), tally, &counters);
    }
}

/// Reports the counters of each host, a line for each.
pub(crate) fn report_summary(
    segment: &mut Segment,
    spare: &mut Stack,
    names: &[Buffer<NAME>],
    below: &mut Buffer<SHOWN>,
)
    ensures { AreLedTo (view segment.old) (view segment.new) }
{
    for place in 0..segment.hosts() {
        report_host(segment, spare, names, place, below);
    }
}
