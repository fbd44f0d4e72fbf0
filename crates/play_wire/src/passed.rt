//! What hosts counted during a line `carry`, as text.
ghost use Rattle.segment.specs.Inside.{view};
ghost use Rattle.play_wire.specs.Acts.{AreLedTo};

use crate::add::{add, add_number};
use crate::log::Log;
use crate::names::NAME;
use crate::show::name_at;
use crate::spare::Counting;
use crate::summary::counters_at;
use flat_model::Counters;
use net_stack::Stack;
use play_script::{DROPS, bytes_of, put_drops};
use play_show::SHOWN;
use script_loop::Buffer;
use segment::{Segment, Tally};

/// The counters of a host.
#[derive(Clone, Copy)]
pub(crate) struct Counted {
    tally: Tally,
    counters: Counters,
}

impl Counted {
    /// Nothing.
    pub(crate) fn none() -> Counted {
        Counted {
            tally: Tally::default(),
            counters: Counters::none(),
        }
    }
}

/// Returns the counters of the host at a place. Nothing changes.
fn counted_at(segment: &mut Segment, spare: &mut Stack, place: usize) -> Counted
    ensures { AreLedTo (view segment.old) (view segment.new) }
{
    let counters = counters_at(segment, spare, place);
    match (segment.tally(place), counters) {
        (Some(tally), Some(counters)) => Counted { tally, counters },
        _ => Counted::none(),
    }
}

/// Records the counters of each host.
pub(crate) fn take_counts(segment: &mut Segment, spare: &mut Stack, counts: &mut [Counted])
    ensures { AreLedTo (view segment.old) (view segment.new) }
{
    for place in 0..counts.len() {
        let now = counted_at(segment, spare, place);
        counts[place] = now;
    }
}

/// The name of a host, and what is counted: packets or frames.
#[derive(Clone, Copy)]
struct Counter<'a> {
    name: &'a [u8],
    unit: &'a [u8],
}

/// Appends a line that says to how many packets or frames of a host this happened, if it happened to any.
fn add_fate(text: &mut Buffer<SHOWN>, by: Counter<'_>, fate: &[u8], count: u64) {
    if count == 0 {
        return;
    }
    add(text, b"    ");
    add(text, by.name);
    add(text, b": ");
    add(text, fate);
    add(text, b" ");
    add_number(text, count);
    add(text, b" ");
    add(text, by.unit);
    add(text, if count == 1 { b"\n".as_slice() } else { b"s\n" });
}

/// Appends what a host did with packets: how many it lost, repeated and received, and why some were dropped.
fn add_counts(
    text: &mut Buffer<SHOWN>,
    drops: &mut Buffer<DROPS>,
    by: Counter<'_>,
    old: &Counted,
    new: &Counted,
) {
    let (was, is) = (old.tally, new.tally);
    add_fate(text, by, b"lost", is.lost.saturating_sub(was.lost));
    add_fate(
        text,
        by,
        b"repeated",
        is.repeated.saturating_sub(was.repeated),
    );
    add_fate(
        text,
        by,
        b"received",
        is.received.saturating_sub(was.received),
    );
    put_drops(drops, &old.counters, &new.counters);
    if !drops.is_empty() {
        add(text, b"    ");
        add(text, by.name);
        add(text, b":");
        add(text, bytes_of(drops));
        add(text, b"\n");
    }
}

/// Writes what each host did with packets since its counts were taken, if some of them weren't printed one by one.
pub(crate) fn add_all(
    log: &mut Log,
    segment: &mut Segment,
    counting: &mut Counting,
    names: &[Buffer<NAME>],
    counts: &[Counted],
)
    ensures { AreLedTo (view segment.old) (view segment.new) }
{
    let unit = if segment.is_ether() {
        b"frame".as_slice()
    } else {
        b"packet"
    };
    for place in 0..counts.len() {
        let old = counts[place];
        let new = counted_at(segment, &mut counting.stack, place);
        let name = name_at(names, place);
        if log.missed {
            let by = Counter { name, unit };
            add_counts(&mut log.text, &mut counting.drops, by, &old, &new);
        }
    }
}
