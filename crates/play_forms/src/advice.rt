//! What the author of a line without a request probably meant.
ghost use Rattle.std.specs.Prelude.{◌≡◌};
ghost use Rattle.std.specs.List.{find};
ghost use Rattle.script_loop.specs.Left.{left};
ghost use Rattle.play_forms.specs.Advice as advice;
ghost use Rattle.play_forms.specs.Advice.{Advises, AdvisesAfter, AdvisesArguments};
ghost use Rattle.play_forms.specs.Inside.{advice_of};
ghost use Rattle.play_forms.specs.Near as near;
ghost use Rattle.play_forms.specs.Table.{arguments_of};

use crate::argument::Argument;
use crate::command::{Command, host_commands, wire_commands};
use crate::hosted::hosted_commands;
use crate::nearest::{named, nearest};
use script_loop::first_word;

/// The player that executes a line.
#[derive(Clone, Copy)]
pub enum Player {
    /// One machine.
    Machine,
    /// One host of many; the line begins with its name.
    Host,
    /// All hosts and their wire.
    Wire,
}

/// What is wrong with a line.
#[derive(Clone, Copy)]
pub enum Advice<'l> {
    /// It has no word.
    Empty,
    /// Its first word isn't a command. The command that it's near to.
    Unknown(&'l [u8], Option<Command>),
    /// It's a command for a host, but the line names no host.
    OfHost(Command),
    /// A word isn't a valid argument at its position.
    Wrong(&'l [u8], Argument, Command),
    /// A word is missing.
    Missing(Argument, Command),
    /// The first word that is superfluous.
    More(&'l [u8], Command),
    /// It has another form.
    Otherwise(Command),
}

/// Returns the first of these arguments that is missing or that a word isn't, or the first word that is superfluous.
fn advice_by<'l>(asked: Command, wanted: &[Argument], rest: Option<&'l [u8]>) -> Advice<'l>
    ensures { AdvisesAfter asked wanted.now (left rest.entry) (advice_of result) }
{
    match (wanted, rest) {
        ([], None) => Advice::Otherwise(asked),
        ([], Some(words)) => {
            let (word, _) = first_word(words);
            Advice::More(word, asked)
        }
        ([first, ..], None) => Advice::Missing(*first, asked),
        ([first, more @ ..], Some(words)) => {
            let (word, rest) = first_word(words);
            if first.takes(word) {
                advice_by(asked, more, rest)
            } else {
                Advice::Wrong(word, *first, asked)
            }
        }
    }
}

/// Returns what is wrong with the words after a command.
fn advice_after<'l>(asked: Command, rest: Option<&'l [u8]>) -> Advice<'l>
    ensures { AdvisesArguments asked (arguments_of asked) (left rest.entry) (advice_of result) }
{
    match asked.row().arguments {
        Some(wanted) => advice_by(asked, wanted, rest),
        None => Advice::Otherwise(asked),
    }
}

/// Returns whether the first word that is left is this one.
fn begins_so(word: &[u8], rest: Option<&[u8]>) -> bool
    ensures { result ≡ advice.begins_so word.now (left rest.entry) }
{
    match rest {
        Some(words) => {
            let (first, _) = first_word(words);
            first == word
        }
        None => false,
    }
}

/// Returns the command of a line `rx`: `rx pcap`, `rx udp` and `rx raw` have forms of their own.
fn arrival_form(rest: Option<&[u8]>) -> Command
    ensures { result ≡ advice.arrival_form (left rest.entry) }
{
    if begins_so(b"pcap", rest) {
        Command::RxPcap
    } else if begins_so(b"udp", rest) {
        Command::RxUdp
    } else if begins_so(b"raw", rest) {
        Command::RxRaw
    } else {
        Command::Rx
    }
}

/// Returns the command of a line `setsockopt`: `setsockopt FD rcvbuf` has a form of its own.
fn set_form(rest: Option<&[u8]>) -> Command
    ensures { result ≡ advice.set_form (left rest.entry) }
{
    let Some(words) = rest else {
        return Command::SetSockOpt;
    };
    let (_, more) = first_word(words);
    if begins_so(b"rcvbuf", more) {
        Command::SetRcvBuf
    } else {
        Command::SetSockOpt
    }
}

/// Returns the command, or the one with a form of its own.
fn narrowed(asked: Command, rest: Option<&[u8]>) -> Command
    ensures { result ≡ advice.narrowed asked (left rest.entry) }
{
    match asked {
        Command::Rx => arrival_form(rest),
        Command::SetSockOpt => set_form(rest),
        _ => asked,
    }
}

/// Returns a word that no line of the player begins with.
fn unknown<'l>(player: Player, word: &'l [u8]) -> Advice<'l>
    ensures { advice_of result ≡ advice.unknown player word.now }
{
    match player {
        Player::Machine => Advice::Unknown(word, nearest(word, &host_commands())),
        Player::Host => Advice::Unknown(word, nearest(word, &hosted_commands())),
        Player::Wire => match named(word, &hosted_commands()) {
            Some(asked) => Advice::OfHost(asked),
            None => Advice::Unknown(word, nearest(word, &wire_commands())),
        },
    }
}

/// Returns the command of the player that has this name.
pub fn command_of(player: Player, word: &[u8]) -> Option<Command>
    ensures { result ≡ find (near.has_name word.now) (advice.commands_of player) }
{
    match player {
        Player::Machine => named(word, &host_commands()),
        Player::Host => named(word, &hosted_commands()),
        Player::Wire => named(word, &wire_commands()),
    }
}

/// Returns what is wrong with a plain line that isn't a request to the player: the word that is wrong, and the command
/// that was meant. A plain line has one space between each two words.
pub fn advice_on<'l>(player: Player, plain: &'l [u8]) -> Advice<'l>
    ensures { Advises player plain.now (advice_of result) }
{
    let (word, rest) = first_word(plain);
    if word.is_empty() {
        return Advice::Empty;
    }
    match command_of(player, word) {
        Some(asked) => advice_after(narrowed(asked, rest), rest),
        None => unknown(player, word),
    }
}
