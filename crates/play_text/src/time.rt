//! Times in words.
ghost use Rattle.std.specs.Prelude.{◌≡◌, ◌+◌, ◌<◌, ◌≤◌, ◌++◌, length};
ghost use Rattle.play_text.specs.Times as times;

use crate::piece::Piece::{Long, Text};
use crate::piece::put;
use script_loop::Buffer;

/// How many bytes a time has at most.
pub const TIME: usize = 30;

/// Returns the six digits of a number below 1,000,000.
#[tactic(auto, unfolding(crate::specs::Times::six_digits))]
fn six_digits(n: u32) -> [u8; 6]
    requires { n < 1000000 }
    ensures { result ≡ times.six_digits n }
{
    [
        48 + (n / 100_000 % 10) as u8,
        48 + (n / 10_000 % 10) as u8,
        48 + (n / 1_000 % 10) as u8,
        48 + (n / 100 % 10) as u8,
        48 + (n / 10 % 10) as u8,
        48 + (n % 10) as u8,
    ]
}

/// Appends a time in nanoseconds as seconds with six decimals, rounded down.
#[tactic(auto, unfolding(crate::specs::Times::time_text))]
pub fn put_time<const N: usize>(text: &mut Buffer<N>, time: u64)
    requires { length text.old + TIME ≤ N }
    ensures items { text.new ≡ text.old ++ times.time_text time }
    ensures len { length text.new ≤ length text.old + TIME }
{
    let microseconds = (time / 1_000 % 1_000_000) as u32;
    put(
        text,
        &[
            Long(time / 1_000_000_000),
            Text(b"."),
            Text(&six_digits(microseconds)),
        ],
    );
}
