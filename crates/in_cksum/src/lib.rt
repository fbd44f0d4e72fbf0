//! The Internet checksum (RFC 1071) of bytes given whole or in pieces of any length.
//!
//! The sum adds the bytes as big-endian words of 16 bits. An odd last byte is the high half of a word. The sum is then
//! folded: its part above 16 bits is added to its low 16 bits until it fits into 16 bits. The checksum is the
//! complement of that. An IPv4 header with its checksum in place has the folded sum 65,535.
#![tactic(auto)]

ghost use Rattle.std.specs.Prelude.{◌≡◌, ℕ, ◌+◌, ◌*◌, ◌^◌, ◌<◌, ◌++◌, if◌then◌else◌, false, List, [], length};
ghost use Rattle.flat_model.specs.Packets.Checksum.{checksum, fold16, folded_sum};
ghost use Rattle.in_cksum.specs.Inside.{CountsAs, TakesUpTo, swapped_sum};
ghost use Rattle.in_cksum.specs.Partial.{Partial, sum_of};

use std::marker::Model;

mod chain;
mod lanes;

pub use chain::cksum_chain;
use lanes::{BLOCK_LEN, PART_LEN, sum_part};
use params::IP_HEADER;

/// 65,536 counts as 1, so the result is a remainder modulo 65,535, in 1 to 65,535. It is 0 only for 0.
#[inline(always)]
fn fold(sum: u64) -> u16
    ensures { result ≡ fold16 sum }
{
    if sum == 0 {
        0
    } else {
        ((sum - 1) % 65_535 + 1) as u16
    }
}

/// Returns the folded sum of the words of `bytes`, which may have any length. For no bytes it is 0.
pub fn sum_slice(bytes: &[u8]) -> u16
    ensures { result ≡ folded_sum bytes.now }
{
    let mut sum = Sum::new();
    sum.add(bytes);
    !sum.finish()
}

/// Adds the next 8 bytes, if that many are left, as two words of 32 bits. The high half of each counts 65,536 times,
/// which the fold reduces to 1.
#[inline(always)]
fn add_eight(sum: u64, bytes: &[u8]) -> (u64, &[u8])
    requires { sum < 2 ^ 40 }
    ensures { TakesUpTo 8 sum bytes.now result.0 result.1.now }
{
    match bytes {
        [a, b, c, d, e, f, g, h, after @ ..] => {
            let words = u64::from_le_bytes([*a, *b, *c, *d, *e, *f, *g, *h]);
            (sum + (words & 0xffff_ffff) + (words >> 32), after)
        }
        _ => (sum, bytes),
    }
}

#[inline(always)]
fn add_four(sum: u64, bytes: &[u8]) -> (u64, &[u8])
    requires { sum < 2 ^ 40 }
    ensures { TakesUpTo 4 sum bytes.now result.0 result.1.now }
{
    match bytes {
        [a, b, c, d, after @ ..] => {
            let word = u32::from_le_bytes([*a, *b, *c, *d]);
            (sum + word as u64, after)
        }
        _ => (sum, bytes),
    }
}

/// Sums the words of fewer bytes than one block. It has no loop: headers are so short that a loop costs more.
#[inline(always)]
fn sum_rest(bytes: &[u8]) -> u64
    requires { length bytes.now < BLOCK_LEN }
    ensures counts { CountsAs result (swapped_sum bytes.now) }
    ensures small { result < 2 ^ 50 }
{
    let (sum, rest) = add_eight(0, bytes);
    let (sum, rest) = add_eight(sum, rest);
    let (sum, rest) = add_eight(sum, rest);
    let (sum, rest) = add_four(sum, rest);
    match rest {
        [] => sum,
        [a] => sum + *a as u64,
        [a, b] => sum + u16::from_le_bytes([*a, *b]) as u64,
        [a, b, c, ..] => sum + u16::from_le_bytes([*a, *b]) as u64 + *c as u64,
    }
}

/// Sums the words in memory order, up to what the fold makes equal.
// Inlined, so that a caller whose length is known to be below PART_LEN calls `sum_part` directly.
#[inline(always)]
fn sum_long(bytes: &[u8]) -> u64
    ensures folded { fold16 result ≡ fold16 (swapped_sum bytes.now) }
    ensures small { result < 2 ^ 52 }
{
    let mut total = 0u16;
    let mut rest = bytes;
    while rest.len() > PART_LEN {
        let (part, after) = rest.split_at(PART_LEN);
        total = fold(total as u64 + sum_part(part));
        rest = after;
    }
    total as u64 + sum_part(rest)
}

/// Returns the folded sum of the words of an IPv4 header without options: 65,535 if its checksum is right.
///
/// The length is known at compile time, so it needs no test (RFC 791, section 3.1).
#[inline(always)]
pub fn sum_head(bytes: &[u8; IP_HEADER as usize]) -> u16
    ensures { result ≡ folded_sum bytes.now }
{
    fold(sum_rest(bytes)).swap_bytes()
}

/// Adjusts a piece's sum to the parity of the number of bytes before the piece. After an even number, each byte in
/// memory order is in the other half of its word, and a shift by 8 bits corrects that.
#[inline(always)]
fn turned(sum: u64, is_odd: bool) -> u64
    requires { sum < 2 ^ 52 }
    ensures { result ≡ (if is_odd then sum else 256 * sum) }
{
    if is_odd { sum } else { 256 * sum }
}

/// Adds two sums. The carry out of 64 bits is added at the low end: 2^64 counts as 1, as 65,536 does ("end-around
/// carry", RFC 1071 section 1).
#[inline(always)]
fn add_around(a: u64, b: u64) -> u64
    ensures { fold16 result ≡ fold16 (a + b) }
{
    let (sum, carry) = a.overflowing_add(b);
    sum + u64::from(carry)
}

/// The checksum of bytes that are added piece by piece.
///
/// A piece may have any length, and the result doesn't depend on how the bytes are cut: if a piece ends after the
/// high half of a word, the low half is at the beginning of the next piece.
#[derive(Clone, Debug, Drop)]
pub struct Sum {
    // not folded yet
    total: u64,
    is_odd: bool,
}

impl Model for Sum {
    ghost Value = { Partial };

    ghost view = { λ s. record { total = fold16 s.total; is_odd = s.is_odd } };
}

impl Sum {
    /// Creates the sum of no bytes.
    pub fn new() -> Self
        ensures { result ≡ sum_of [] }
    {
        Self::of_words(0)
    }

    /// Creates the sum of an even number of bytes that are known as numbers. `words` is the sum of their 16-bit words.
    /// A 32-bit number may be added whole, because 65,536 counts as 1.
    // Inlined, so that the numbers are added in the caller.
    #[inline(always)]
    pub fn of_words(words: u64) -> Self
        ensures { result ≡ record { total = fold16 words; is_odd = false } }
    {
        Sum {
            total: words,
            is_odd: false,
        }
    }

    /// Adds `bytes`, of any length, after those added before.
    // Inlined, so that a caller's sum stays in registers.
    #[inline(always)]
    pub fn add(&mut self, bytes: &[u8])
        ensures { (before : List ℕ) → self.old ≡ sum_of before → self.new ≡ sum_of (before ++ bytes.now) }
    {
        // most headers are shorter than one block, and take no call
        let sum = if bytes.len() < BLOCK_LEN {
            sum_rest(bytes)
        } else {
            sum_long(bytes)
        };
        self.total = add_around(self.total, turned(sum, self.is_odd));
        self.is_odd ^= bytes.len() % 2 == 1;
    }

    /// Returns the checksum of all bytes that were added, to be written big-endian.
    ///
    /// It can be 0. UDP writes 65,535 instead, because 0 in its header means "no checksum" (RFC 768). The caller has to
    /// do that.
    pub fn finish(self) -> u16
        ensures { (bytes : List ℕ) → self ≡ sum_of bytes → result ≡ checksum bytes }
    {
        !fold(self.total)
    }
}

impl Default for Sum {
    ghost is_default = { λ sum. sum ≡ sum_of [] };

    fn default() -> Sum {
        Self::new()
    }
}
