//! Lines that play a capture file.
ghost use Rattle.std.specs.Prelude.{◌≡◌, ◌<◌, ◌==◌, ℕ, List, position, MatchOption, IfSome, Some};
ghost use Rattle.script_loop.specs.Left.{left};
ghost use Rattle.play_pcap.specs.Asks.{IsAsked, IsDetails, IsPair, IsRange};
ghost use Rattle.play_pcap.specs.Events.{IsOrdered};

use script_loop::{first_word, is_end, number};

/// A range of records of a capture. The first record of a capture is number 1.
#[derive(Clone, Copy, Debug, PartialEq, Eq)]
pub struct Range {
    /// The first record, 1 or more.
    pub first: u32,
    /// The last record, `first` or more.
    pub last: u32,
}

/// How a capture is played.
#[derive(Clone, Copy, Debug, PartialEq, Eq)]
pub struct Details {
    /// The records that are played; `None` means all.
    pub range: Option<Range>,
    /// Whether ticks pass between packets, by the times of their records.
    pub ticks: bool,
}

/// The request of a line: a capture file, by name.
#[derive(Clone, Copy, Debug)]
pub struct Ask<'a> {
    /// The file's name.
    pub name: &'a [u8],
    /// How it is played.
    pub details: Details,
}

/// Returns the index of the first dash of a word.
fn place_of(word: &[u8], sought: u8) -> Option<usize>
    ensures { result ≡ position (λ byte. byte == sought) word.now }
{
    word.iter().position(|byte| *byte == sought)
}

/// Returns the records from one number to another.
fn range_from(first: &[u8], last: &[u8]) -> Option<Range>
    ensures ordered { IfSome result (λ r. IsOrdered (Some r)) }
    ensures is { MatchOption result ((r : Range) → IsPair first.now last.now r → ⊥) (IsPair first.now last.now) }
{
    let from = number(first, u32::MAX)?;
    let to = number(last, u32::MAX)?;
    if from == 0 {
        return None;
    }
    if to < from {
        return None;
    }
    Some(Range {
        first: from,
        last: to,
    })
}

/// Parses a range of records such as `3-17`: two numbers of at most 4,294,967,295 without leading zeros. The first
/// isn't 0, and the second isn't less than the first. Returns `None` for any other word.
pub fn range_of(word: &[u8]) -> Option<Range>
    ensures ordered { IfSome result (λ r. IsOrdered (Some r)) }
    ensures is { MatchOption result ((r : Range) → IsRange word.now r → ⊥) (IsRange word.now) }
{
    match place_of(word, b'-') {
        Some(at) => range_from(&word[..at], &word[at + 1..]),
        None => None,
    }
}

/// Parses the words after a file's name.
fn details_of(rest: Option<&[u8]>) -> Option<Details>
    ensures ordered { IfSome result (λ d. IsOrdered d.range) }
    ensures is { MatchOption result ((d : Details) → IsDetails (left rest.entry) d → ⊥) (IsDetails (left rest.entry)) }
{
    let Some(text) = rest else {
        return Some(Details {
            range: None,
            ticks: false,
        });
    };
    let (word, more) = first_word(text);
    if word == b"ticks".as_slice() {
        if !is_end(more) {
            return None;
        }
        return Some(Details {
            range: None,
            ticks: true,
        });
    }
    let range = range_of(word)?;
    let Some(text) = more else {
        return Some(Details {
            range: Some(range),
            ticks: false,
        });
    };
    let (word, more) = first_word(text);
    if word != b"ticks".as_slice() || !is_end(more) {
        return None;
    }
    Some(Details {
        range: Some(range),
        ticks: true,
    })
}

/// Returns the request of a plain line, or `None` if it doesn't play a capture. The line is `rx pcap FILE`, optionally
/// followed by `N-M` to play only these records, and by `ticks` for ticks between packets (this project's own).
pub fn ask_of(line: &[u8]) -> Option<Ask<'_>>
    ensures ordered { IfSome result (λ a. IsOrdered a.details.range) }
    ensures is { MatchOption result ((name : List ℕ) (d : Details) → IsAsked line.now name d → ⊥)
        (λ a. IsAsked line.now a.name.now a.details) }
{
    let (word, rest) = first_word(line);
    if word != b"rx".as_slice() {
        return None;
    }
    let (second, rest) = first_word(rest?);
    if second != b"pcap".as_slice() {
        return None;
    }
    let (name, rest) = first_word(rest?);
    let details = details_of(rest)?;
    Some(Ask { name, details })
}
