//! The chances that a line sets.
use play_forms::Command;
use script_loop::number;
use segment::Chances;

/// The most digits after the point of a chance.
const PLACES: usize = 6;

/// The greatest number in a chance, and the longest delay.
const MOST: u32 = 1_000_000;

/// A setting of the wire's chances.
#[derive(Clone, Copy)]
pub(crate) enum Part {
    Loss(u64),
    Repeat(u64),
    Reorder(u64),
    /// The least delay, and by how many carries the longest one is longer.
    Delay(u32, u32),
}

impl Part {
    /// Returns the chances with this one set.
    pub(crate) fn put(self, chances: Chances) -> Chances {
        match self {
            Part::Loss(loss) => Chances { loss, ..chances },
            Part::Repeat(repeat) => Chances { repeat, ..chances },
            Part::Reorder(reorder) => Chances { reorder, ..chances },
            Part::Delay(delay, jitter) => Chances {
                delay,
                jitter,
                ..chances
            },
        }
    }
}

/// Returns a chance of `part` in `whole`, in units of 2 to the power of -32, rounded down. `None` if it isn't a chance.
fn limit_of(part: u32, whole: u32) -> Option<u64> {
    if whole == 0 || part > whole {
        return None;
    }
    Some((u64::from(part) << 32) / u64::from(whole))
}

/// Splits a word at the first such byte.
fn cut(word: &[u8], byte: u8) -> Option<(&[u8], &[u8])> {
    let at = word.iter().position(|it| *it == byte)?;
    if at < word.len() {
        Some((&word[..at], &word[at + 1..]))
    } else {
        None
    }
}

/// Returns the number that at most six decimal digits write, with or without leading zeros.
fn digits_in(word: &[u8]) -> Option<u32> {
    if word.is_empty() || word.len() > PLACES {
        return None;
    }
    let mut value = 0u32;
    for byte in word {
        if !byte.is_ascii_digit() {
            return None;
        }
        value = value
            .saturating_mul(10)
            .saturating_add(u32::from(*byte - b'0'));
    }
    Some(value)
}

/// Returns 10 to the power of `places`, which is at most 6.
fn power_of_ten(places: usize) -> u32 {
    match places {
        0 => 1,
        1 => 10,
        2 => 100,
        3 => 1000,
        4 => 10_000,
        5 => 100_000,
        _ => 1_000_000,
    }
}

/// Parses a chance written as a number, for example `0.05`; `of` is the number for certainty.
fn decimal(word: &[u8], of: u32) -> Option<u64> {
    match cut(word, b'.') {
        Some((front, back)) => {
            let scale = power_of_ten(back.len());
            let part = number(front, of)?.saturating_mul(scale);
            limit_of(
                part.saturating_add(digits_in(back)?),
                of.saturating_mul(scale),
            )
        }
        None => limit_of(number(word, of)?, of),
    }
}

/// Returns a chance as it's written: `10%`, `0.05` or `1/20`.
fn chance_in(word: &[u8]) -> Option<u64> {
    if let Some((front, back)) = cut(word, b'%') {
        return if back.is_empty() {
            decimal(front, 100)
        } else {
            None
        };
    }
    match cut(word, b'/') {
        Some((part, whole)) => limit_of(number(part, MOST)?, number(whole, MOST)?),
        None => decimal(word, 1),
    }
}

/// Returns a delay as it's written, `0-3`: the least and the most carries.
fn delay_in(word: &[u8]) -> Option<Part> {
    let (front, back) = cut(word, b'-')?;
    let least = number(front, MOST)?;
    let most = number(back, MOST)?;
    Some(Part::Delay(least, most.checked_sub(least)?))
}

/// Returns the setting of a line of this kind with this value.
pub(crate) fn part_in(kind: Command, value: &[u8]) -> Option<Part> {
    match kind {
        Command::Loss => Some(Part::Loss(chance_in(value)?)),
        Command::Repeat => Some(Part::Repeat(chance_in(value)?)),
        Command::Reorder => Some(Part::Reorder(chance_in(value)?)),
        Command::Delay => delay_in(value),
        _ => None,
    }
}
