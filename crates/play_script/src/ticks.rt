//! Lines that request several ticks.
ghost use Rattle.std.specs.Prelude.{ℕ, MatchOption};
ghost use Rattle.play_script.specs.Asks.{IsTicks};

use script_loop::{first_word, number, one};

/// The most ticks that a line can request.
const MOST_TICKS: u32 = 65_535;

/// Returns the number of ticks that a line requests with `tick N`, 1 to 65,535.
pub fn ticks_of(words: &[u8]) -> Option<u32>
    ensures { MatchOption result ((n : ℕ) → IsTicks words.now n → ⊥) (IsTicks words.now) }
{
    let (word, rest) = first_word(words);
    if word != b"tick".as_slice() {
        return None;
    }
    let count = number(one(rest)?, MOST_TICKS)?;
    if count == 0 {
        return None;
    }
    Some(count)
}
