//! What happened to a packet, by what a machine counted before and after it.
ghost use Rattle.std.specs.Prelude.{◌≡◌};
ghost use Rattle.play_text.specs.Fates as fates;

use crate::words::{CAUSES, causes, rose};
use flat_model::{Counter, Counters, Why};

/// What happened to a packet's fragment.
#[derive(Clone, Copy, Debug, PartialEq, Eq)]
pub enum Fate {
    /// It completed its datagram.
    Whole,
    /// The machine keeps it until its datagram is whole.
    Kept,
    /// It was dropped, or the packet isn't a fragment.
    Other,
}

/// Returns whether packets were dropped for a cause.
fn is_dropped_for(why: Why, before: &Counters, after: &Counters) -> bool
    ensures { result ≡ fates.is_dropped_for before.now after.now why }
{
    rose(why.counter(), before, after)
}

/// For which causes packets were dropped, in the order of [`causes`].
pub fn drops_between(before: &Counters, after: &Counters) -> [bool; CAUSES]
    ensures { result ≡ fates.drops_of before.now after.now }
{
    let whys = causes();
    let mut drops = [false; CAUSES];
    'places: for place in 0..CAUSES {
        drops[place] = is_dropped_for(whys[place], before, after);
    }
    drops
}

/// Returns whether one of these is true.
pub fn is_any(all: &[bool]) -> bool
    ensures { result ≡ fates.is_some_true all.now }
{
    match all {
        [] => false,
        [first, more @ ..] => *first || is_any(more),
    }
}

/// Returns whether a fragment is kept: it passed its test, and neither completed its datagram nor was dropped.
pub fn is_kept(before: &Counters, after: &Counters) -> bool
    ensures { result ≡ fates.is_kept before.now after.now }
{
    rose(Counter::IpFragments, before, after)
        && (!rose(Counter::IpReassembled, before, after) && !is_any(&drops_between(before, after)))
}

/// Returns what happened to a packet's fragment.
pub fn fate_of(before: &Counters, after: &Counters) -> Fate
    ensures { result ≡ fates.fate_of before.now after.now }
{
    if rose(Counter::IpReassembled, before, after) {
        Fate::Whole
    } else if is_kept(before, after) {
        Fate::Kept
    } else {
        Fate::Other
    }
}
