//! The time that passes before a line.
ghost use Rattle.std.specs.Prelude.{◌≡◌, ◌<◌, ◌≤◌, Err, length, position, IfOk, IfSome};
ghost use Rattle.play_line.specs.Bytes as bytes;
ghost use Rattle.play_line.specs.Time as times;

use crate::bytes::{Class, after_first, front, is_in, is_next, skip, value_of};
use crate::fault::{Fault, SyntaxError};
use crate::line::{column_at, is_end};

/// The most ticks that can pass before a line.
const MOST_TICKS: u32 = 65_535;

/// The most bytes in a time after its `+`.
const MOST_WORD: usize = 8;

/// A line, and the time that passes before it.
#[derive(Clone, Copy)]
pub struct Timed<'a> {
    /// How many ticks pass first, each half a second: at most 65,535, and 0 if the line has no time.
    pub ticks: u32,
    /// The line after the time and the blanks that follow it.
    pub part: &'a [u8],
}

/// Returns how many ticks the text after the whole seconds adds.
fn half_of(word: &[u8]) -> Option<u32>
    ensures is { result ≡ times.half_of word.now }
    ensures most { IfSome result (λ n. n ≤ 1) }
{
    if word == b"s".as_slice() || word == b".0s".as_slice() {
        Some(0)
    } else if word == b".5s".as_slice() {
        Some(1)
    } else {
        None
    }
}

/// Returns the ticks of whole seconds and an optional half second.
fn ticks_by(seconds: u32, half: Option<u32>) -> Option<u32>
    requires seconds { seconds ≤ 65536 }
    requires half { IfSome half (λ n. n ≤ 1) }
    ensures is { result ≡ times.ticks_by seconds half }
    ensures most { IfSome result (λ n. n ≤ 65535) }
{
    match half {
        Some(half) => {
            let ticks = 2 * seconds + half;
            if MOST_TICKS < ticks {
                None
            } else {
                Some(ticks)
            }
        }
        None => None,
    }
}

/// Parses a word after `+` into ticks.
fn ticks_in(word: &[u8]) -> Option<u32>
    ensures is { result ≡ times.ticks_in word.now }
    ensures most { IfSome result (λ n. n ≤ 65535) }
{
    let n = front(Class::Decimal, word);
    if n == 0 || MOST_WORD < word.len() {
        return None;
    }
    let (seconds, rest) = word.split_at(n);
    ticks_by(value_of(seconds), half_of(rest))
}

/// Returns the index of the first blank.
fn first_blank(left: &[u8]) -> Option<usize>
    ensures is { result ≡ position (λ byte. bytes.is_blank byte) left.now }
    ensures most { IfSome result (λ at. at < length left.now) }
{
    left.iter().position(|byte| is_in(Class::Blank, *byte))
}

/// Returns how many bytes come before the first blank.
fn word_end(left: &[u8]) -> usize
    ensures is { result ≡ times.word_end left.now }
    ensures most { result ≤ length left.now }
{
    match first_blank(left) {
        Some(at) => at,
        None => left.len(),
    }
}

/// Returns the error for a line whose time begins here.
fn no_time(line: &[u8], at: &[u8]) -> SyntaxError
    ensures { Err result ≡ times.no_time line.now at.now }
{
    SyntaxError {
        fault: Fault::NoTime,
        column: column_at(line, at.len()),
    }
}

/// Returns the time at the beginning of a line, and the line after it. A time is `+`, whole seconds of 0 to 32,767, and
/// `s`, `.0s` or `.5s`. It has at most eight bytes after the `+`, and a tick is half a second. A line that doesn't
/// begin with `+` has no time.
///
/// # Errors
///
/// `Fault::NoTime` if a line begins with `+` in any other way, or if no line follows its time. The column is that of
/// the `+`.
pub fn read_time(line: &[u8]) -> Result<Timed<'_>, SyntaxError>
    ensures is { times.timed_or result ≡ times.timed line.now }
    ensures most { IfOk result (λ t. t.ticks ≤ 65535) }
    ensures shorter { IfOk result (λ t. length t.part.now ≤ length line.now) }
{
    let at = skip(line);
    if !is_next(b'+', at) {
        return Ok(Timed {
            ticks: 0,
            part: line,
        });
    }
    let left = after_first(at);
    let (word, rest) = left.split_at(word_end(left));
    let part = skip(rest);
    match ticks_in(word) {
        Some(ticks) => {
            if is_end(part) {
                Err(no_time(line, at))
            } else {
                Ok(Timed { ticks, part })
            }
        }
        None => Err(no_time(line, at)),
    }
}
