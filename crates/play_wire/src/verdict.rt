//! The effect of a packet on a host, by snapshots of the host before and after it.
ghost use Rattle.std.specs.Prelude.{◌≡◌};
ghost use Rattle.net_stack.specs.Stack.{state_of};
ghost use Rattle.play_show.specs.Changes.{IsEffect, IsSnapshot};
ghost use Rattle.play_wire.specs.Verdicts as verdicts;
ghost use Rattle.play_text.specs.Fates.{is_some_true};
ghost use Rattle.stack_call.specs.Moves.{StackSteps};

use crate::add::{add, add_number};
use crate::link_count::{LinkCount, link_counts};
use net_stack::Stack;
use params::{FIRST_DESCRIPTOR, MAX_SOCKETS};
use play_show::{Effect, SHOWN, Snapshot, effect_of, snapshot_of};
use play_text::{CAUSES, Fate, causes, is_any, words_for};
use script_loop::Buffer;
use segment::Tallies;

/// How many sockets there can be.
const SOCKETS: usize = MAX_SOCKETS as usize;

/// How many counts a link has.
const COUNTS: usize = 14;

/// A snapshot of a host: of its stack, and of its link's counters.
#[derive(Clone, Copy)]
pub(crate) struct Look {
    stack: Snapshot,
    link: Tallies,
}

impl Look {
    /// Takes a snapshot of a host.
    pub(crate) fn at(stack: &Stack, link: Tallies) -> Look
        ensures stack { IsSnapshot StackSteps (state_of stack.now) result.stack }
        ensures link { result.link ≡ link }
    {
        Look {
            stack: snapshot_of(stack),
            link,
        }
    }
}

/// The effect of a packet on a host.
#[derive(Clone, Copy)]
pub(crate) struct Verdict {
    effect: Effect,
    /// Which of the link's counts went up, in the order of [`link_counts`].
    counted: [bool; COUNTS],
}

/// Returns whether a count of the link went up.
fn is_counted(which: LinkCount, before: &Tallies, after: &Tallies) -> bool
    ensures { result ≡ verdicts.is_counted before.now after.now which }
{
    which.value(before) < which.value(after)
}

/// Returns which of the link's counts went up.
fn counts_between(before: &Tallies, after: &Tallies) -> [bool; COUNTS]
    ensures { result ≡ verdicts.counted_between before.now after.now }
{
    let which = link_counts();
    let mut counted = [false; COUNTS];
    'places: for place in 0..COUNTS {
        counted[place] = is_counted(which[place], before, after);
    }
    counted
}

/// Appends the numbers of the sockets to which a datagram was delivered.
fn add_sockets(text: &mut Buffer<SHOWN>, sockets: &[bool; SOCKETS]) {
    let mut comma = b" to socket ".as_slice();
    for place in 0..SOCKETS {
        if sockets[place] {
            add(text, comma);
            add_number(text, u64::from(FIRST_DESCRIPTOR) + place as u64);
            comma = b", ";
        }
    }
}

/// Appends why a packet was dropped, with `first` before the first cause.
fn add_causes<const N: usize>(text: &mut Buffer<N>, first: &'static [u8], drops: &[bool; CAUSES]) {
    let whys = causes();
    let mut comma = first;
    for place in 0..CAUSES {
        if drops[place] {
            add(text, comma);
            add(text, words_for(whys[place]).as_bytes());
            comma = b", ";
        }
    }
}

/// Appends what the link counted.
fn add_counted(text: &mut Buffer<SHOWN>, counted: &[bool; COUNTS]) {
    let which = link_counts();
    for place in 0..COUNTS {
        if counted[place] {
            add(text, b", counted ");
            add(text, which[place].name().as_bytes());
        }
    }
}

impl Verdict {
    /// Compares snapshots of the host before the packet and after it.
    pub(crate) fn of(before: &Look, after: &Look) -> Verdict
        ensures effect { IsEffect before.now.stack after.now.stack result.effect }
        ensures counted { result.counted ≡ verdicts.counted_between before.now.link after.now.link }
    {
        Verdict {
            effect: effect_of(&before.stack, &after.stack),
            counted: counts_between(&before.link, &after.link),
        }
    }

    /// Returns whether the packet was dropped, or a copy of it.
    pub(crate) fn is_dropped(&self) -> bool
        ensures { result ≡ is_some_true self.now.effect.drops }
    {
        is_any(&self.effect.drops)
    }

    /// Appends why it was dropped, with `first` before the first cause.
    pub(crate) fn put_causes<const N: usize>(&self, text: &mut Buffer<N>, first: &'static [u8]) {
        add_causes(text, first, &self.effect.drops);
    }

    /// Returns what happened to the packet, in a word.
    pub(crate) fn word(&self) -> &'static [u8]
        ensures { result.now ≡ verdicts.word_of self.now.effect }
    {
        if is_any(&self.effect.delivered) {
            b"delivered"
        } else if self.is_dropped() {
            b"dropped"
        } else {
            match self.effect.fate {
                Fate::Kept => b"kept",
                Fate::Whole | Fate::Other => b"received",
            }
        }
    }

    /// Appends what the host did, after its name.
    pub(crate) fn put(&self, text: &mut Buffer<SHOWN>) {
        let (delivered, dropped) = (is_any(&self.effect.delivered), self.is_dropped());
        let what = if matches!(self.effect.fate, Fate::Whole) {
            b" the whole datagram".as_slice()
        } else {
            b" it"
        };
        if delivered {
            add(text, b" delivered");
            add(text, what);
            add_sockets(text, &self.effect.delivered);
        }
        if dropped {
            let (verb, what) = if delivered {
                (b" and dropped".as_slice(), b" a copy".as_slice())
            } else {
                (b" dropped".as_slice(), what)
            };
            add(text, verb);
            add(text, what);
            add_causes(text, b": ", &self.effect.drops);
        }
        if !delivered && !dropped {
            add(
                text,
                if matches!(self.effect.fate, Fate::Kept) {
                    b" kept it until its datagram is whole".as_slice()
                } else {
                    b" received it"
                },
            );
        }
        add_counted(text, &self.counted);
    }
}
