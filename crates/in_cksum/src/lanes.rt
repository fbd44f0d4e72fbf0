//! The sum of one part of the bytes, as words in memory order: of each 256 bytes, half in SIMD lanes.
ghost use Rattle.std.specs.Prelude.{◌≡◌, ◌+◌, ◌*◌, ◌%◌, ◌<◌, ◌≤◌, ◌^◌, length};
ghost use Rattle.flat_model.specs.Packets.Checksum.{fold16};
ghost use Rattle.in_cksum.specs.Inside.{AddsNext, AddsWords, CanCarry, lanes_total, swapped_sum};

use crate::sum_rest;
use std::simd::prelude::*;

/// The number of bytes added at a time.
pub(crate) const BLOCK_LEN: usize = 32;

/// The number of bytes of a number of 64 bits.
const NUMBER_LEN: usize = 8;

/// The number of bytes of a turn: eight blocks.
const TURN_LEN: usize = 8 * BLOCK_LEN;

/// How many of them are added in lanes: four blocks.
const LANES_LEN: usize = 4 * BLOCK_LEN;

/// The most bytes that are added up before their sum is folded. These are whole blocks, whose words add up to less than
/// 2^32.
pub(crate) const PART_LEN: usize = 65_536;

/// Adds the words of a block: the lanes to `all`, which wraps, and the high halves of the lanes to `high`. So the low
/// halves need no mask: at the end, they are the remainder of `all`.
#[inline(always)]
fn add_block(all: u32x8, high: u32x8, block: &[u8]) -> (u32x8, u32x8)
    requires long { length block.now ≡ BLOCK_LEN }
    requires fits { lanes_total all high + swapped_sum block.now < 2 ^ 32 }
    ensures { lanes_total result.0 result.1 ≡ lanes_total all high + swapped_sum block.now }
{
    let words = u32x8::from_le_bytes(u8x32::from_slice(block));
    let halves = words >> u32x8::splat(16);
    (all + words, high.strict_add(halves))
}

/// Adds the words of whole blocks.
// Inlined, so that the compiler unrolls the loop, as in `add_numbers`.
#[inline(always)]
fn add_blocks(start: (u32x8, u32x8), bytes: &[u8]) -> (u32x8, u32x8)
    requires whole { length bytes.now % BLOCK_LEN ≡ 0 }
    requires fits { lanes_total start.0 start.1 + swapped_sum bytes.now < 2 ^ 32 }
    ensures { lanes_total result.0 result.1 ≡ lanes_total start.0 start.1 + swapped_sum bytes.now }
{
    let (mut all, mut high) = start;
    let mut rest = bytes;
    'lanes: while rest.len() >= BLOCK_LEN {
        let (block, after) = rest.split_at(BLOCK_LEN);
        (all, high) = add_block(all, high, block);
        rest = after;
    }
    (all, high)
}

#[inline(always)]
fn sum_lanes(all: u32x8, high: u32x8) -> u32
    requires { lanes_total all high < 2 ^ 32 }
    ensures { result ≡ lanes_total all high }
{
    let low = all - (high << u32x8::splat(16));
    low.strict_reduce_sum() + high.strict_reduce_sum()
}

/// Adds two numbers and a carry. Returns the low 64 bits and the carry out of them.
// In this form, the compiler makes it one instruction.
#[inline(always)]
fn add_carrying(a: u64, b: u64, carry: u64) -> (u64, u64)
    requires { CanCarry a carry }
    ensures sum { result.0 + 2 ^ 64 * result.1 ≡ a + b + carry }
    ensures fits { CanCarry result.0 result.1 }
{
    let part = a.wrapping_add(b);
    let sum = part.wrapping_add(carry);
    (sum, u64::from(part < a) | u64::from(sum < part))
}

/// Adds the words of 8 bytes as one number.
#[inline(always)]
fn add_number(sum: u64, carry: u64, bytes: &[u8]) -> (u64, u64)
    requires long { length bytes.now ≡ NUMBER_LEN }
    requires fits { CanCarry sum carry }
    ensures { AddsWords (sum + carry) bytes.now result.0 result.1 }
{
    match bytes {
        [a, b, c, d, e, f, g, h, ..] => {
            let number = u64::from_le_bytes([*a, *b, *c, *d, *e, *f, *g, *h]);
            add_carrying(sum, number, carry)
        }
        _ => unreachable!(),
    }
}

/// Adds the words of whole numbers.
#[inline(always)]
fn add_numbers(start: u64, bytes: &[u8]) -> (u64, u64)
    requires { length bytes.now % NUMBER_LEN ≡ 0 }
    ensures { AddsWords start bytes.now result.0 result.1 }
{
    let mut sum = start;
    let mut carry = 0;
    let mut rest = bytes;
    'numbers: while rest.len() >= NUMBER_LEN {
        let (number, after) = rest.split_at(NUMBER_LEN);
        (sum, carry) = add_number(sum, carry, number);
        rest = after;
    }
    (sum, carry)
}

/// Adds the words of the next `n` bytes, if that many are left.
#[inline(always)]
fn add_next(sum: u64, n: usize, bytes: &[u8]) -> (u64, &[u8])
    requires { n % NUMBER_LEN ≡ 0 }
    ensures { AddsNext n sum bytes.now result.0 result.1.now }
{
    if bytes.len() < n {
        return (sum, bytes);
    }
    let (numbers, after) = bytes.split_at(n);
    let (low, carry) = add_numbers(sum, numbers);
    (low + carry, after)
}

/// Adds both halves of a number: the high one counts 2^32 times, which the fold reduces to 1.
#[inline(always)]
fn halves(sum: u64) -> u64
    ensures folded { fold16 result ≡ fold16 sum }
    ensures small { result < 2 ^ 33 }
{
    (sum & 0xffff_ffff) + (sum >> 32)
}

/// What whole turns have added, and the bytes after them.
#[derive(Clone, Copy, Drop)]
struct Turns<'a> {
    lanes: u32,
    sum: u64,
    rest: &'a [u8],
}

/// Adds the words of whole turns: one half of each in lanes, and the other as numbers of 64 bits. So they keep
/// different units of the processor busy. A turn's numbers have a sum of their own, so it needn't wait for the last
/// turn's.
#[inline(always)]
fn sum_turns(bytes: &[u8]) -> Turns<'_>
    requires { length bytes.now ≤ PART_LEN }
    ensures folded { fold16 (result.lanes + result.sum + swapped_sum result.rest.now) ≡ fold16 (swapped_sum bytes.now) }
    ensures left { length result.rest.now < TURN_LEN }
{
    let mut all = u32x8::splat(0);
    let mut high = u32x8::splat(0);
    let mut sum = 0u64;
    let mut rest = bytes;
    'turns: while rest.len() >= TURN_LEN {
        let (turn, after) = rest.split_at(TURN_LEN);
        let (first, second) = turn.split_at(LANES_LEN);
        (all, high) = add_blocks((all, high), first);
        let (numbers, carry) = add_numbers(0, second);
        let (low, more) = add_carrying(numbers, sum, carry);
        sum = low + more;
        rest = after;
    }
    Turns {
        lanes: sum_lanes(all, high),
        sum,
        rest,
    }
}

/// Adds the words of fewer bytes than a turn to a sum. It has no loop, which would test the length more often.
#[inline(always)]
fn sum_numbers(start: u64, bytes: &[u8]) -> u64
    requires { length bytes.now < TURN_LEN }
    ensures folded { fold16 result ≡ fold16 (start + swapped_sum bytes.now) }
    ensures small { result < 2 ^ 50 + 2 ^ 33 }
{
    let (sum, rest) = add_next(start, 4 * BLOCK_LEN, bytes);
    let (sum, rest) = add_next(sum, 2 * BLOCK_LEN, rest);
    let (sum, rest) = add_next(sum, BLOCK_LEN, rest);
    halves(sum) + sum_rest(rest)
}

/// Sums the words in memory order, up to what the fold makes equal. An odd last byte is the low half of a word.
#[inline(never)]
pub(crate) fn sum_part(bytes: &[u8]) -> u64
    requires { length bytes.now ≤ PART_LEN }
    ensures folded { fold16 result ≡ fold16 (swapped_sum bytes.now) }
    ensures small { result < 2 ^ 51 }
{
    if bytes.len() < TURN_LEN {
        return sum_numbers(0, bytes);
    }
    let turns = sum_turns(bytes);
    u64::from(turns.lanes) + sum_numbers(turns.sum, turns.rest)
}
