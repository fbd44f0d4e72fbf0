//! The request of a line to the wire: a line is parsed once, into a value.
ghost use Rattle.std.specs.Prelude.{◌≡◌, ℕ, [], MatchOption};
ghost use Rattle.script_loop.specs.Left.{left};
ghost use Rattle.play_wire.specs.Inside.{ReadsAfter, wire_asks};
ghost use Rattle.play_wire.specs.Verbs.{IsOneNumber, IsTickCount};
ghost use Rattle.play_wire.specs.Wires.{AsksWire, IsBound, IsSeed};
ghost use Rattle.play_forms.specs.declared.command.Command.TheVariants as command;

use crate::carries::Bound;
use crate::link::value_in;
use play_forms::{Command, Player, command_of};
use script_loop::{first_word, is_end, number, one, two};
use std::str;

/// The most carries that a line can request.
const MOST_CARRIES: u32 = 1_000_000;

/// The most carries of `carry all` if it doesn't give a number.
const ALL: u32 = 1000;

/// The last place of a packet, and the most ticks.
const MOST: u32 = 65_535;

/// The request of a line to the wire. Names and settings are borrowed from the line.
#[derive(Clone, Copy)]
pub(crate) enum WireAsk<'l> {
    /// A host of this name joins, with the settings after the name. The name is empty if it's missing.
    Host(&'l [u8], Option<&'l [u8]>),
    /// The hosts of these names are joined.
    Wire(Option<&'l [u8]>),
    /// What waits for the links is carried.
    Carry(Bound),
    /// What waits for the links is sent onto the wire.
    Collect,
    /// What is due is delivered.
    Deliver,
    /// This many ticks pass at each host.
    Tick(u32),
    /// The choices of the wire start with this seed.
    Seed(u64),
    /// The packet in flight at this place, from 0 on, is lost.
    Drop(usize),
    /// It's duplicated.
    Repeat(usize),
    /// Two of them are swapped.
    Swap(usize, usize),
    /// A chance or a delay is set, by these words.
    Impair(Command, Option<&'l [u8]>),
    /// What is in flight is reported.
    Show,
    /// The counters of each host are reported.
    Summary,
}

/// Returns the one number that is left.
pub(crate) fn one_number(rest: Option<&[u8]>, most: u32) -> Option<u32>
    ensures { MatchOption result ((n : ℕ) → IsOneNumber most (left rest.entry) n → ⊥)
        (IsOneNumber most (left rest.entry)) }
{
    number(one(rest)?, most)
}

/// Returns the request if no word is left.
fn if_last<'l>(rest: Option<&[u8]>, ask: WireAsk<'l>) -> Option<WireAsk<'l>>
    ensures { MatchOption result (left rest.entry ≡ [] → ⊥) (λ r. (r ≡ ask.entry) × (left rest.entry ≡ [])) }
{
    if is_end(rest) { Some(ask) } else { None }
}

/// Returns how many carries the words after `carry` request.
fn bound_of(rest: Option<&[u8]>) -> Option<Bound>
    ensures { MatchOption result ((bound : Bound) → IsBound (left rest.entry) bound → ⊥)
        (IsBound (left rest.entry)) }
{
    let Some(words) = rest else {
        return Some(Bound::Times(1));
    };
    let (word, after) = first_word(words);
    if word != b"all".as_slice() {
        return Some(Bound::Times(one_number(rest, MOST_CARRIES)?));
    }
    if is_end(after) {
        return Some(Bound::Quiet(ALL));
    }
    Some(Bound::Quiet(one_number(after, MOST_CARRIES)?))
}

fn carry_of(rest: Option<&[u8]>) -> Option<WireAsk<'static>>
    ensures { ReadsAfter command.Carry (left rest.entry) result }
{
    Some(WireAsk::Carry(bound_of(rest)?))
}

/// Returns how many ticks the words after `tick` request.
pub(crate) fn ticks_of(rest: Option<&[u8]>) -> Option<u32>
    ensures { MatchOption result ((n : ℕ) → IsTickCount (left rest.entry) n → ⊥) (IsTickCount (left rest.entry)) }
{
    if is_end(rest) {
        return Some(1);
    }
    let count = one_number(rest, MOST)?;
    if count == 0 { None } else { Some(count) }
}

fn tick_of(rest: Option<&[u8]>) -> Option<WireAsk<'static>>
    ensures { ReadsAfter command.Tick (left rest.entry) result }
{
    Some(WireAsk::Tick(ticks_of(rest)?))
}

/// Returns the seed that the word after `seed` writes.
fn seed_in(rest: Option<&[u8]>) -> Option<u64>
    ensures { MatchOption result ((seed : ℕ) → IsSeed (left rest.entry) seed → ⊥) (IsSeed (left rest.entry)) }
{
    let word = one(rest)?;
    let Ok(text) = str::from_utf8(word) else {
        return None;
    };
    let Ok(seed) = text.parse::<u64>() else {
        return None;
    };
    Some(seed)
}

fn seed_of(rest: Option<&[u8]>) -> Option<WireAsk<'static>>
    ensures { ReadsAfter command.Seed (left rest.entry) result }
{
    Some(WireAsk::Seed(seed_in(rest)?))
}

fn drop_of(rest: Option<&[u8]>) -> Option<WireAsk<'static>>
    ensures { ReadsAfter command.Drop (left rest.entry) result }
{
    Some(WireAsk::Drop(one_number(rest, MOST)? as usize))
}

fn swap_of(rest: Option<&[u8]>) -> Option<WireAsk<'static>>
    ensures { ReadsAfter command.Swap (left rest.entry) result }
{
    let (first, second) = two(rest)?;
    let at = number(first, MOST)?;
    let other = number(second, MOST)?;
    Some(WireAsk::Swap(at as usize, other as usize))
}

/// `repeat I` by hand, or `repeat C`, which is a chance.
fn repeat_of(rest: Option<&[u8]>) -> WireAsk<'_>
    ensures { ReadsAfter command.Repeat (left rest.entry) (Some result) }
{
    match one_number(rest, MOST) {
        Some(at) => WireAsk::Repeat(at as usize),
        None => WireAsk::Impair(Command::Repeat, rest),
    }
}

fn show_of(rest: Option<&[u8]>) -> Option<WireAsk<'static>>
    ensures { ReadsAfter command.ShowWire (left rest.entry) result }
{
    let word = one(rest)?;
    if word == b"wire".as_slice() {
        Some(WireAsk::Show)
    } else {
        None
    }
}

fn host_of(rest: Option<&[u8]>) -> WireAsk<'_>
    ensures { ReadsAfter command.Host (left rest.entry) (Some result) }
{
    let (name, settings) = value_in(rest);
    WireAsk::Host(name, settings)
}

/// Returns the request of a command and the words after it.
fn form_of<'l>(asked: Command, rest: Option<&'l [u8]>) -> Option<WireAsk<'l>>
    ensures { ReadsAfter asked (left rest.entry) result }
{
    match asked {
        Command::Host => Some(host_of(rest)),
        Command::Wire => Some(WireAsk::Wire(rest)),
        Command::Carry => carry_of(rest),
        Command::Collect => if_last(rest, WireAsk::Collect),
        Command::Deliver => if_last(rest, WireAsk::Deliver),
        Command::Tick => tick_of(rest),
        Command::Seed => seed_of(rest),
        Command::Drop => drop_of(rest),
        Command::Repeat => Some(repeat_of(rest)),
        Command::Swap => swap_of(rest),
        Command::Loss | Command::Reorder | Command::Delay => Some(WireAsk::Impair(asked, rest)),
        Command::ShowWire => show_of(rest),
        Command::Summary => if_last(rest, WireAsk::Summary),
        Command::Socket
        | Command::Bind
        | Command::Connect
        | Command::SendTo
        | Command::Send
        | Command::RecvFrom
        | Command::Close
        | Command::SetSockOpt
        | Command::SetRcvBuf
        | Command::Rx
        | Command::RxPcap
        | Command::RxUdp
        | Command::RxRaw
        | Command::Tx
        | Command::Stat
        | Command::MbStat
        | Command::Show
        | Command::Frame
        | Command::LastError
        | Command::ShowOfHost => None,
    }
}

/// Returns the request of a plain line to the wire, or `None` if it has none. A plain line has one space between each
/// two words.
pub(crate) fn wire_ask_of(plain: &[u8]) -> Option<WireAsk<'_>>
    ensures { AsksWire plain.now (wire_asks result) }
{
    let (word, rest) = first_word(plain);
    match command_of(Player::Wire, word) {
        Some(asked) => form_of(asked, rest),
        None => None,
    }
}
