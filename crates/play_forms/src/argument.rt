//! The words after a command.
ghost use Rattle.std.specs.Prelude.{◌≡◌, MatchBool};
ghost use Rattle.play_forms.specs.Table.{IsCount, Takes, is_host_topic, is_topic};
ghost use Rattle.play_forms.specs.declared.argument.Argument.TheVariants as argument;

use request::address_of;
use script_loop::number;

/// An argument: a word after a command.
#[derive(Clone, Copy)]
pub enum Argument {
    /// A descriptor.
    Fd,
    /// An address.
    Addr,
    /// A port.
    Port,
    /// How many bytes are received at most.
    Len,
    /// How many times.
    Count,
    /// A socket option.
    Option,
    /// Whether it's set.
    Switch,
    /// The bytes of a packet or a datagram. They were parsed before, or have a fault of their own.
    Bytes,
    /// A query about a machine.
    Topic,
    /// A query about one host of many.
    HostTopic,
}

/// Returns whether a word is one of those that `show` takes.
fn is_shown(word: &[u8]) -> bool
    ensures { result ≡ is_topic word.now }
{
    word == b"sockets".as_slice()
        || (word == b"unfinished".as_slice()
            || (word == b"queue".as_slice()
                || (word == b"counters".as_slice() || word == b"pool".as_slice())))
}

/// Returns whether a word is one of those that `show` takes of one host of many.
fn is_shown_of_host(word: &[u8]) -> bool
    ensures { result ≡ is_host_topic word.now }
{
    is_shown(word) || (word == b"neighbours".as_slice() || word == b"link".as_slice())
}

/// Returns whether a word is a number of 1 to 65,535.
fn is_count(word: &[u8]) -> bool
    ensures { MatchBool result (IsCount word.now) (¬ IsCount word.now) }
{
    word != b"0".as_slice() && number(word, 65_535).is_some()
}

/// Returns whether a word is a socket option.
fn is_option(word: &[u8]) -> bool
    ensures { MatchBool result (Takes argument.Option word.now) (¬ Takes argument.Option word.now) }
{
    word == b"broadcast".as_slice()
        || (word == b"reuseport".as_slice() || word == b"rcvbuf".as_slice())
}

/// Returns whether a word sets an option or clears it.
fn is_switch(word: &[u8]) -> bool
    ensures { MatchBool result (Takes argument.Switch word.now) (¬ Takes argument.Switch word.now) }
{
    match word {
        b"0" | b"1" => true,
        _ => false,
    }
}

impl Argument {
    /// Its name in forms, and in brackets what it may be.
    pub(crate) fn label(self) -> &'static str {
        match self {
            Argument::Fd => "FD (0 to 4294967295)",
            Argument::Addr => "ADDR (such as 10.0.0.2)",
            Argument::Port => "PORT (0 to 65535)",
            Argument::Len => "LEN (1 to 65535)",
            Argument::Count => "N (1 to 65535)",
            Argument::Option => "OPT (broadcast, reuseport or rcvbuf)",
            Argument::Switch => "ON (1 or 0)",
            Argument::Bytes => "BYTES (digits, \"text\" or @N)",
            Argument::Topic => "WHAT (sockets, unfinished, queue, counters or pool)",
            Argument::HostTopic => {
                "WHAT (sockets, unfinished, queue, counters, pool, neighbours, link)"
            }
        }
    }

    /// Returns whether a word is such an argument.
    pub(crate) fn takes(self, word: &[u8]) -> bool
        ensures { MatchBool result (Takes self word.now) (¬ Takes self word.now) }
    {
        match self {
            Argument::Fd => number(word, u32::MAX).is_some(),
            Argument::Addr => address_of(word).is_some(),
            Argument::Port => number(word, 65_535).is_some(),
            Argument::Len => is_count(word),
            Argument::Count => is_count(word),
            Argument::Option => is_option(word),
            Argument::Switch => is_switch(word),
            Argument::Bytes => true,
            Argument::Topic => is_shown(word),
            Argument::HostTopic => is_shown_of_host(word),
        }
    }
}
