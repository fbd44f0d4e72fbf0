//! A part of the bytes of a word: a text, a pattern or digits, and how often it is repeated.
ghost use Rattle.std.specs.Prelude.{◌≡◌, ◌≤◌, length};
ghost use Rattle.play_line.specs.Bytes as bytes;

use crate::bytes::{Class, after_first, digits, front, is_in, is_next, read_count, read_text};
use crate::fault::{Fault, Misread, stop};
use script_loop::Buffer;

/// The most hexadecimal digits that bytes may have.
pub(crate) const MOST_DIGITS: usize = 131_070;

/// A part of the bytes of a word.
#[derive(Drop)]
pub(crate) struct Part {
    /// Its digits, or the word as it is written.
    pub(crate) piece: Buffer<MOST_DIGITS>,
    /// How often the digits are repeated in the plain line.
    pub(crate) count: u32,
}

/// Writes the digits of the bytes 0, 1, 2 .. into a buffer, `count` bytes in all.
fn put_pattern(piece: &mut Buffer<MOST_DIGITS>, count: u32)
    requires { count ≤ 65535 }
    ensures { piece.new ≡ bytes.counting count }
{
    piece.clear();
    let mut next = 0;
    while next < count {
        piece.append(&digits((next % 256) as u8));
        next += 1;
    }
}

/// Copies the next `n` bytes into a buffer, and returns the rest. If `hex`, they must be hexadecimal digits.
fn read_word<'a>(
    piece: &mut Buffer<MOST_DIGITS>,
    hex: bool,
    n: usize,
    left: &'a [u8],
) -> Result<&'a [u8], Misread>
    requires { n ≤ length left.now }
    ensures { bytes.with_left piece.new result ≡ bytes.word_read hex n left.now }
{
    let good = front(Class::Hex, left);
    if n == 0 {
        stop(Fault::NoBytes, left)
    } else if MOST_DIGITS < n {
        stop(Fault::TooManyBytes, &left[n..])
    } else if hex && good < n {
        stop(Fault::NotHex, &left[good..])
    } else if hex && n % 2 == 1 {
        stop(Fault::OddDigits, &left[n..])
    } else {
        piece.clear();
        piece.append(&left[..n]);
        Ok(&left[n..])
    }
}

/// Writes the digits of a text, or copies the next `n` bytes, into a buffer, and returns the rest.
fn read_piece<'a>(
    piece: &mut Buffer<MOST_DIGITS>,
    hex: bool,
    n: usize,
    left: &'a [u8],
) -> Result<&'a [u8], Misread>
    requires { n ≤ length left.now }
    ensures { bytes.with_left piece.new result ≡ bytes.piece_read hex n left.now }
{
    if is_next(b'"', left) {
        read_text(piece, after_first(left))
    } else {
        read_word(piece, hex, n, left)
    }
}

/// Returns whether the word ends here, or `+` follows.
fn is_closed(left: &[u8]) -> bool
    ensures { result ≡ bytes.is_closed left.now }
{
    match left.first() {
        None => true,
        Some(byte) => {
            is_in(Class::Blank, *byte) || (*byte == b'#' || (*byte == b'+' || *byte == b'='))
        }
    }
}

impl Part {
    /// Sets the number of copies of the piece. After it the word must end, or `+` must follow.
    fn end<'a>(&mut self, count: u32, left: &'a [u8]) -> Result<&'a [u8], Misread>
        ensures { bytes.with_left self.new result ≡ bytes.copies self.old.piece count left.now }
    {
        self.count = count;
        if is_closed(left) {
            Ok(left)
        } else {
            stop(Fault::NotJoined, left)
        }
    }

    /// Reads the number of copies after `*`; without `*` it is one.
    fn read_times<'a>(&mut self, left: &'a [u8]) -> Result<&'a [u8], Misread>
        ensures { bytes.with_left self.new result ≡ bytes.repeated self.old.piece left.now }
    {
        if !is_next(b'*', left) {
            return self.end(1, left);
        }
        match read_count(after_first(left)) {
            Ok((count, rest)) => self.end(count, rest),
            Err(e) => Err(e),
        }
    }

    /// Reads a pattern, a text, or the next `n` bytes as they are written.
    pub(crate) fn read<'a>(
        &mut self,
        hex: bool,
        n: usize,
        left: &'a [u8],
    ) -> Result<&'a [u8], Misread>
        requires { n ≤ length left.now }
        ensures { bytes.with_left self.new result ≡ bytes.part_at hex n left.now }
    {
        if is_next(b'@', left) {
            return match read_count(after_first(left)) {
                Ok((count, rest)) => {
                    put_pattern(&mut self.piece, count);
                    self.end(1, rest)
                }
                Err(e) => Err(e),
            };
        }
        match read_piece(&mut self.piece, hex, n, left) {
            Ok(rest) => self.read_times(rest),
            Err(e) => Err(e),
        }
    }
}
