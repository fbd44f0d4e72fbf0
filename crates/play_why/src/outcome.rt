//! What happened to a packet, in one word.
ghost use Rattle.std.specs.Prelude.{◌≡◌, ◌≤◌, Some, None, length};
ghost use Rattle.net_stack.specs.Stack.{state_of};
ghost use Rattle.play_why.specs.Findings as findings;
ghost use Rattle.play_why.specs.Objects.{outcome_words};

use crate::blame::{Blame, blame_of, blame_short};
use crate::finding::Counted;
use crate::seen::Seen;
use flat_model::Why;
use net_stack::Stack;
use play_text::{is_kept, rose};

/// What happened to a packet.
#[derive(Clone, Copy, Debug, PartialEq, Eq)]
pub enum Outcome {
    /// A socket received its datagram, even if another one didn't.
    Delivered,
    /// Its fragment is kept.
    Kept,
    /// The host refused it with an ICMP error, so no socket was bound for it.
    Refused,
    /// It was dropped only for its UDP checksum, which the sender's card should have filled in after it was captured.
    Offload,
    /// The stack dropped it only because the capture kept a part of it.
    Cut,
    /// It was dropped.
    Dropped,
}

/// Returns whether the sender's card is to blame.
fn is_card(blame: Blame) -> bool
    ensures { result ≡ findings.is_card blame }
{
    matches!(blame, Blame::Card)
}

/// Returns whether a packet was dropped for the checksum that the sender's card should have filled in.
fn is_offload(seen: &Seen<'_>, counted: &Counted<'_>) -> bool
    ensures { result ≡ findings.is_offload seen.now counted.now.before.now counted.now.after.now }
{
    rose(Why::UdpBadSum.counter(), counted.before, counted.after)
        && is_card(blame_of(seen, Why::UdpBadSum))
}

/// Returns whether the capture is to blame.
fn is_capture(blame: Blame) -> bool
    ensures { result ≡ findings.is_capture blame }
{
    matches!(blame, Blame::Capture)
}

/// Returns whether a packet was dropped because the capture has only a part of it.
fn is_cut(seen: &Seen<'_>, counted: &Counted<'_>) -> bool
    ensures { result ≡ findings.is_cut seen.now counted.now.before.now counted.now.after.now }
{
    (rose(Why::TooSmall.counter(), counted.before, counted.after)
        || rose(Why::TooShort.counter(), counted.before, counted.after))
        && is_capture(blame_short(seen))
}

/// Returns the outcome of a packet that was delivered, kept, refused, left to the card or cut; the first of these
/// counts.
fn outcome_by(
    is_delivered: bool,
    kept_as_fragment: bool,
    refused: Option<u64>,
    is_left: bool,
    is_cut: bool,
) -> Outcome
    ensures { result ≡ findings.outcome_by is_delivered kept_as_fragment refused is_left is_cut }
{
    if is_delivered {
        return Outcome::Delivered;
    }
    if kept_as_fragment {
        return Outcome::Kept;
    }
    match refused {
        Some(_) => Outcome::Refused,
        None => {
            if is_left {
                Outcome::Offload
            } else if is_cut {
                Outcome::Cut
            } else {
                Outcome::Dropped
            }
        }
    }
}

/// Returns the outcome of a packet, by the counters before and after it, and by the stack after it.
pub(crate) fn outcome_of(seen: &Seen<'_>, counted: &Counted<'_>, here: &Stack) -> Outcome
    ensures { result ≡ findings.outcome_in seen.now counted.now.before.now counted.now.after.now (state_of here.now) }
{
    outcome_by(
        here.readable() != 0,
        is_kept(counted.before, counted.after),
        seen.refused,
        is_offload(seen, counted),
        is_cut(seen, counted),
    )
}

impl Outcome {
    /// Returns the outcome in a word.
    pub(crate) fn words(self) -> &'static str
        ensures is { result.now ≡ outcome_words self }
        ensures short { length result.now ≤ 12 }
    {
        match self {
            Outcome::Delivered => "delivered",
            Outcome::Kept => "kept",
            Outcome::Refused => "refused",
            Outcome::Offload => "offload",
            Outcome::Cut => "cut",
            Outcome::Dropped => "dropped",
        }
    }
}
