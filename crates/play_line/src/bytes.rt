//! Tokens at the front of the rest of a line: texts, numbers, and other words.
ghost use Rattle.std.specs.Prelude.{◌≡◌, ◌≤◌, ◌<◌, true, false, not, length, drop, position, [], IfSome, IfOk};
ghost use Rattle.play_line.specs.Bytes as bytes;

use crate::fault::{Fault, Misread, stop};
use crate::part::MOST_DIGITS;
use script_loop::Buffer;

/// Classes of bytes that form a token.
#[derive(Clone, Copy)]
pub(crate) enum Class {
    /// Spaces, tabs and carriage returns.
    Blank,
    /// Decimal digits.
    Decimal,
    /// Hexadecimal digits of either case.
    Hex,
    /// Bytes of words that aren't texts.
    Word,
}

/// Returns whether a byte is in a class.
pub(crate) fn is_in(class: Class, byte: u8) -> bool
    ensures { result ≡ bytes.is_in class byte }
{
    let is_blank = byte == b' ' || (byte == b'\t' || byte == b'\r');
    match class {
        Class::Blank => is_blank,
        Class::Decimal => byte.is_ascii_digit(),
        Class::Hex => byte.is_ascii_hexdigit(),
        Class::Word => match byte {
            b'#' | b'"' | b'+' | b'*' | b'@' | b'=' => false,
            _ => !is_blank,
        },
    }
}

/// Returns the index of the first byte that isn't in a class.
fn first_other(class: Class, left: &[u8]) -> Option<usize>
    ensures is { result ≡ position (λ byte. not (bytes.is_in class byte)) left.now }
    ensures most { IfSome result (λ at. at < length left.now) }
{
    left.iter().position(|byte| !is_in(class, *byte))
}

/// Returns how many bytes at the front are in a class.
pub(crate) fn front(class: Class, left: &[u8]) -> usize
    ensures is { result ≡ bytes.front class left.now }
    ensures most { result ≤ length left.now }
{
    match first_other(class, left) {
        Some(at) => at,
        None => left.len(),
    }
}

/// Returns the rest without its leading blanks.
pub(crate) fn skip(left: &[u8]) -> &[u8]
    ensures is { result.now ≡ bytes.skip left.now }
    ensures most { length result.now ≤ length left.now }
{
    &left[front(Class::Blank, left)..]
}

/// Returns whether the first byte is this one.
pub(crate) fn is_next(byte: u8, left: &[u8]) -> bool
    ensures is { result ≡ bytes.is_next byte left.now }
    ensures some { result ≡ true → 0 < length left.now }
{
    match left.first() {
        Some(first) => *first == byte,
        None => false,
    }
}

/// Returns the bytes after the first one.
pub(crate) fn after_first(left: &[u8]) -> &[u8]
    ensures { result.now ≡ drop 1 left.now }
{
    match left {
        [] => left,
        [_, rest @ ..] => rest,
    }
}

/// Returns the two hexadecimal digits of a byte, in lower case.
pub(crate) fn digits(byte: u8) -> [u8; 2]
    ensures { result ≡ bytes.digits byte }
{
    let mut digits = [0; 2];
    let _ = hex::encode_to_slice(&[byte], &mut digits);
    digits
}

/// Returns the byte that a byte of a text represents, after a backslash or without one.
fn meaning(escaped: bool, byte: u8) -> Option<u8>
    ensures { result ≡ bytes.meaning escaped byte }
{
    if !escaped {
        return Some(byte);
    }
    match byte {
        b'n' => Some(b'\n'),
        b'r' => Some(b'\r'),
        b't' => Some(b'\t'),
        b'0' => Some(0),
        b'\\' => Some(b'\\'),
        b'"' => Some(b'"'),
        _ => None,
    }
}

/// Appends the digits of a text to a buffer, and returns the rest after the end of the text.
pub(crate) fn read_text<'a>(
    piece: &mut Buffer<MOST_DIGITS>,
    text: &'a [u8],
) -> Result<&'a [u8], Misread>
    ensures { bytes.with_left piece.new result ≡ bytes.text_after [] false text.now }
{
    piece.clear();
    let mut escaped = false;
    let mut at = 0;
    for byte in text {
        if !escaped && *byte == b'"' {
            if piece.is_empty() {
                return stop(Fault::EmptyText, &text[at..]);
            }
            return Ok(&text[at + 1..]);
        }
        if !escaped && *byte == b'\\' {
            escaped = true;
        } else if MOST_DIGITS < piece.len() + 2 {
            return stop(Fault::TooManyBytes, &text[at..]);
        } else {
            match meaning(escaped, *byte) {
                Some(meant) => piece.append(&digits(meant)),
                None => return stop(Fault::UnknownEscape, &text[at..]),
            }
            escaped = false;
        }
        at += 1;
    }
    stop(Fault::UnendedText, &[])
}

/// Returns the number for these decimal digits, or 65,536 if it is larger than that.
pub(crate) fn value_of(word: &[u8]) -> u32
    ensures is { result ≡ bytes.digits_value word.now }
    ensures most { result ≤ 65536 }
{
    let mut value = 0u32;
    for byte in word {
        value = 65_536.min(10 * value + u32::from(byte.saturating_sub(b'0')));
    }
    value
}

/// Parses a number of 1 to 65,535, and returns it with the rest after it.
pub(crate) fn read_count(left: &[u8]) -> Result<(u32, &[u8]), Misread>
    ensures is { bytes.count_now result ≡ bytes.count_at left.now }
    ensures most { IfOk result (λ t. t.0 ≤ 65535) }
{
    let n = front(Class::Decimal, left);
    let (word, rest) = left.split_at(n);
    let value = value_of(word);
    if n == 0 {
        stop(Fault::NoCount, left)
    } else if value == 0 {
        stop(Fault::ZeroCount, rest)
    } else if value > 65_535 {
        stop(Fault::TooManyBytes, rest)
    } else {
        Ok((value, rest))
    }
}
