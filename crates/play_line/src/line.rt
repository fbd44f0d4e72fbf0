//! Expanding a whole line, word by word.
ghost use Rattle.std.specs.Prelude.{◌≡◌, ◌≤◌, ◌<◌, ◌+◌, ◌*◌, true, length};
ghost use Rattle.play_line.specs.Line as line_specs;

use crate::bytes::{Class, after_first, front, is_next, skip};
use crate::fault::{Fault, Misread, SyntaxError, stop};
use crate::part::{MOST_DIGITS, Part};
use script_loop::Buffer;
use std::alloc::{AllocError, Global};

/// The most bytes in a line, and in its plain line.
pub const LONGEST: usize = 262_144;

/// A position at which no word of a plain line begins.
const WHOLE: usize = LONGEST + 1;

/// Expands lines. It has the memory for the plain line.
#[derive(Drop)]
pub struct Reader {
    /// The plain line so far.
    pub(crate) plain: Buffer<LONGEST>,
    /// The part that was read last.
    pub(crate) part: Part,
    /// The position in the plain line at which the last word begins.
    pub(crate) begin: usize,
    /// The number of words before the bytes of the line, or 0.
    pub(crate) awaits: usize,
    /// Whether the line is finished.
    pub(crate) ended: bool,
}

/// Appends `count` copies of a piece.
fn put_copies(done: &mut Buffer<LONGEST>, piece: &[u8], count: u32)
    requires { length done.old + count * length piece.now ≤ LONGEST }
    ensures { done.new ≡ line_specs.appended done.old count piece.now }
{
    let mut copies = 0;
    while copies < count {
        done.append(piece);
        copies += 1;
    }
}

/// Returns the number of words between this first word of a line and its bytes.
fn places(word: &[u8]) -> usize
    ensures { result ≡ line_specs.places word.now }
{
    if word == b"rx".as_slice() {
        1
    } else if word == b"send".as_slice() {
        2
    } else if word == b"sendto".as_slice() {
        4
    } else {
        0
    }
}

/// Returns whether this word after `rx` begins the description of a packet.
fn begins_packet(word: &[u8]) -> bool
    ensures { result ≡ line_specs.begins_packet word.now }
{
    word == b"udp".as_slice() || word == b"raw".as_slice()
}

/// Returns the length of the first word, if it is neither a text nor a pattern.
fn word_len(at: &[u8]) -> usize
    ensures is { result ≡ line_specs.word_len at.now }
    ensures most { result ≤ length at.now }
{
    if is_next(b'=', at) {
        1 + front(Class::Word, after_first(at))
    } else {
        front(Class::Word, at)
    }
}

/// Returns the position of the next word in a plain line of this length.
fn begin_after(apart: bool, len: usize) -> usize
    requires { len ≤ LONGEST }
    ensures { result ≡ line_specs.begin_after apart len }
{
    if apart { len + 1 } else { len }
}

/// Returns whether the line ends here, or its comment begins.
pub(crate) fn is_end(left: &[u8]) -> bool
    ensures { result ≡ line_specs.is_end left.now }
{
    match left.first() {
        Some(byte) => *byte == b'#',
        None => true,
    }
}

/// Returns the column of the first byte that wasn't read.
pub(crate) fn column_at(line: &[u8], left: usize) -> u64
    ensures { result ≡ line_specs.column_at line.now left }
{
    1 + line.len().saturating_sub(left) as u64
}

impl Reader {
    /// Creates a reader and allocates its memory.
    ///
    /// # Errors
    ///
    /// If the host refuses memory.
    pub fn new(alloc: Global) -> Result<Reader, AllocError> {
        Ok(Reader {
            plain: Buffer::new(alloc)?,
            part: Part {
                piece: Buffer::new(alloc)?,
                count: 1,
            },
            begin: 0,
            awaits: 0,
            ended: false,
        })
    }

    /// Returns the number of words before the bytes of the line, after one more word.
    fn next_awaits(&self, word: &[u8]) -> usize
        ensures { result ≡ line_specs.next_awaits self.now.plain self.now.awaits word.now }
    {
        if is_next(b'=', word) {
            0
        } else if self.plain.is_empty() {
            places(word)
        } else if self.plain.as_slice() == b"rx".as_slice() && begins_packet(word) {
            4
        } else {
            self.awaits.saturating_sub(1)
        }
    }

    /// Returns whether a word at the position of the bytes needs no digits.
    fn needs_no_digits(&self, word: &[u8]) -> bool
        ensures { result ≡ line_specs.needs_no_digits self.now.plain word.now }
    {
        word == b"-".as_slice()
            || (self.plain.as_slice() == b"rx".as_slice()
                && (begins_packet(word) || word == b"pcap".as_slice()))
    }

    /// Returns whether a word must be digits, because of its position or of what follows it.
    fn has_digits(&self, word: &[u8], rest: &[u8]) -> bool
        ensures { result ≡ line_specs.has_digits self.now.plain self.now.awaits word.now rest.now }
    {
        is_next(b'*', rest)
            || (is_next(b'+', skip(rest)) || (self.awaits == 1 && !self.needs_no_digits(word)))
    }

    /// Appends the part that was read to the plain line.
    fn put_part(&mut self, rest: &[u8]) -> Result<(), Misread>
        ensures { line_specs.done_or result (line_specs.reader_front self.new rest.now)
            ≡ line_specs.with_part (line_specs.reader_front self.old rest.now) (self.old.part, rest.now) }
    {
        let more = self.part.count as usize * self.part.piece.len();
        if MOST_DIGITS < self.plain.len().saturating_sub(self.begin) + more {
            stop(Fault::TooManyBytes, rest)
        } else if LONGEST < self.plain.len() + more {
            stop(Fault::TooLong, rest)
        } else {
            put_copies(&mut self.plain, self.part.piece.as_slice(), self.part.count);
            Ok(())
        }
    }

    /// Reads a part of bytes, and appends it to the plain line.
    fn read_part<'a>(&mut self, hex: bool, n: usize, at: &'a [u8]) -> Result<&'a [u8], Misread>
        requires { n ≤ length at.now }
        ensures { line_specs.front_or result self.new
            ≡ line_specs.part_in hex n (line_specs.reader_front self.old at.now) }
    {
        match self.part.read(hex, n, at) {
            Ok(rest) => match self.put_part(rest) {
                Ok(()) => Ok(rest),
                Err(e) => Err(e),
            },
            Err(e) => Err(e),
        }
    }

    /// Reads bytes that `+` joins to the word before it.
    fn read_joined<'a>(&mut self, at: &'a [u8]) -> Result<&'a [u8], Misread>
        ensures { line_specs.front_or result self.new
            ≡ line_specs.joined_part (line_specs.reader_front self.old at.now) }
    {
        self.read_part(true, front(Class::Word, at), at)
    }

    /// Begins a word, after a space if a blank separates it from what was read.
    fn open(&mut self, apart: bool, word: &[u8], at: &[u8])
        requires { apart ≡ true → length self.old.plain < LONGEST }
        ensures is { line_specs.reader_front self.new at.now
            ≡ line_specs.opened apart word.now (line_specs.reader_front self.old at.now) }
    {
        self.awaits = self.next_awaits(word);
        if apart {
            self.plain.push(b' ');
        }
        self.begin = self.plain.len();
    }

    /// Reads a word.
    fn read_word<'a>(&mut self, apart: bool, at: &'a [u8]) -> Result<&'a [u8], Misread>
        requires { apart ≡ true → length self.old.plain < LONGEST }
        ensures { line_specs.front_or result self.new
            ≡ line_specs.word_in apart (line_specs.word_len at.now) (line_specs.reader_front self.old at.now) }
    {
        let n = word_len(at);
        let (word, rest) = at.split_at(n);
        let hex = self.has_digits(word, rest);
        self.open(apart, word, at);
        self.read_part(hex, n, at)
    }

    /// Reads the next word, or the next bytes that `+` joins. It stops before the word that begins at `goal`.
    fn step_at<'a>(&mut self, goal: usize, apart: bool, at: &'a [u8]) -> Result<&'a [u8], Misread>
        ensures { line_specs.front_or result self.new
            ≡ line_specs.step_at goal apart (line_specs.reader_front self.old at.now) }
    {
        if is_end(at) {
            self.ended = true;
            return Ok(at);
        }
        let len = self.plain.len();
        if is_next(b'+', at) {
            return if len == 0 {
                stop(Fault::NoBytes, at)
            } else {
                self.read_joined(skip(after_first(at)))
            };
        }
        if apart && LONGEST <= len {
            return stop(Fault::TooLong, at);
        }
        if begin_after(apart, len) == goal {
            self.ended = true;
            return Ok(at);
        }
        self.read_word(apart, at)
    }

    /// Does the same after the leading blanks.
    fn step<'a>(&mut self, goal: usize, left: &'a [u8]) -> Result<&'a [u8], Misread>
        ensures { line_specs.front_or result self.new
            ≡ line_specs.step goal (line_specs.reader_front self.old left.now) }
    {
        let at = skip(left);
        let apart = 0 < self.plain.len() && at.len() < left.len();
        self.step_at(goal, apart, at)
    }

    /// Reads a line up to the word that begins at position `goal` of the plain line, and returns the rest.
    fn read<'a>(&mut self, goal: usize, line: &'a [u8]) -> Result<&'a [u8], Misread>
        ensures { line_specs.front_or result self.new ≡ line_specs.line_read goal line.now }
    {
        self.plain.clear();
        self.begin = 0;
        self.awaits = 0;
        self.ended = false;
        let mut left = line;
        let mut rounds = line.len();
        while rounds > 0 {
            match self.step(goal, left) {
                Ok(rest) => left = rest,
                Err(e) => return Err(e),
            }
            if self.ended {
                return Ok(left);
            }
            rounds -= 1;
        }
        Ok(left)
    }

    /// Expands a line to its plain line: its words with one space between each two, without its comment, and with
    /// hexadecimal digits for all bytes.
    ///
    /// # Errors
    ///
    /// The syntax error of the line, with its column.
    pub fn plain_line(&mut self, line: &[u8]) -> Result<&[u8], SyntaxError>
        ensures is { line_specs.now_or result ≡ line_specs.expanded line.now }
        ensures short { line_specs.IsShort result }
    {
        match self.read(WHOLE, line) {
            Ok(_) => {
                let len = self.plain.len();
                Ok(&self.plain.as_slice()[..len])
            }
            Err(e) => Err(SyntaxError {
                fault: e.fault,
                column: column_at(line, e.left),
            }),
        }
    }

    /// Returns the column of a word of a line, given its position in the plain line: the number of bytes before it
    /// there. If no word begins at that position, it is the column after the line's last byte. The plain line of the
    /// last call is overwritten.
    pub fn column_of(&mut self, line: &[u8], place: usize) -> u64
        ensures { result ≡ line_specs.column_of line.now place }
    {
        match self.read(place, line) {
            Ok(left) => column_at(line, left.len()),
            Err(e) => column_at(line, e.left),
        }
    }
}
