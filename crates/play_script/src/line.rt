//! The parts of a line: its words, a comment, and an expectation.
ghost use Rattle.std.specs.Prelude.{◌≡◌, ◌*◌, ◌<◌, ◌≤◌, ◌==◌, ◌++◌, ◌||◌, codes, length, position, IfSome, option_map};
ghost use Rattle.play_script.specs.Lines as lines;
ghost use Rattle.play_script.specs.Lines.{asked, expected, reading_part, unheaded, untailed};
ghost use Rattle.flat_model.specs.Scripts.Texts.{hex_text};
ghost use Rattle.params.specs.declared.TheConstants.{IP_MAX_PACKET};
ghost use Rattle.play_script.specs.Asks.{AsksFor, Writes};
ghost use Rattle.play_script.specs.Views.{IsSoundAsk, ask_of as ask_value, asked_by, is_reading, plain_line};

use crate::ask::Ask;
use crate::read::ask_of;
use crate::report::bytes_of;
use play_line::{LONGEST, SyntaxError, put_shown};
use play_packet::{LineReader, PACKET};
use play_pcap::lines_law;
use request::Request;
use script_loop::{Buffer, put_hex};
use std::alloc::{AllocError, Global};

/// The kind of a line. Its words are in a `Line`.
#[derive(Clone, Copy)]
pub enum Kind {
    /// A blank line, or only a comment.
    Nothing,
    /// It has more bytes than a line may have.
    TooLong,
    /// It has bytes that can't be parsed, or words that don't describe a packet.
    Faulty(SyntaxError),
    /// A line with a request or an expectation.
    Asks,
}

/// A line that was parsed, and the memory for it.
#[derive(Drop)]
pub struct Line {
    /// The line as it's written.
    pub shown: Buffer<LONGEST>,
    /// Its words, as in its plain line.
    pub words: Buffer<LONGEST>,
    /// Whether its words describe a packet, and that packet.
    pub named: bool,
    pub packet: Buffer<PACKET>,
    /// Whether it has an expectation, and its words.
    pub expects: bool,
    pub wanted: Buffer<LONGEST>,
}

/// Returns the request of the line `rx` with this packet.
fn packet_ask<'a>(packet: &'a [u8]) -> Ask<'a, 'a>
    requires { length packet.now ≤ IP_MAX_PACKET }
    ensures writes { Writes (codes "rx " ++ hex_text packet.now) (ask_value result) }
    ensures sound { IsSoundAsk result }
{
    lines_law();
    Ask::Call(Request::Packet(packet))
}

impl Line {
    /// Allocates the memory for a line; there is no line yet.
    pub fn new(alloc: Global) -> Result<Line, AllocError> {
        Ok(Line {
            shown: Buffer::new(alloc)?,
            words: Buffer::new(alloc)?,
            named: false,
            packet: Buffer::new(alloc)?,
            expects: false,
            wanted: Buffer::new(alloc)?,
        })
    }

    /// Replaces the words by the plain line, with the digits of a packet that they describe.
    pub(crate) fn write_number(&mut self, digits: &mut [u8])
        requires { length digits.old ≡ 2 * IP_MAX_PACKET }
        ensures { self.new ≡ record (self.old) { words = plain_line self.old } }
    {
        if self.named {
            self.words.clear();
            self.words.append(b"rx ");
            put_hex(&mut self.words, digits, bytes_of(&self.packet));
        }
    }

    /// Returns the request of the line, or `None` if it has none. Bytes in it are decoded into `buffer`, which has
    /// 65,535
    /// bytes.
    pub fn ask<'l>(&'l self, buffer: &'l mut [u8]) -> Option<Ask<'l, 'l>>
        requires { length buffer.old ≡ IP_MAX_PACKET }
        ensures asks { AsksFor (plain_line self.now) (asked_by result) }
        ensures sound { IfSome result IsSoundAsk }
    {
        if self.named {
            return Some(packet_ask(bytes_of(&self.packet)));
        }
        ask_of(bytes_of(&self.words), buffer)
    }
}

/// Returns a text without the space at its end.
fn without_tail(text: &[u8]) -> &[u8]
    ensures is { result.now ≡ untailed text.now }
    ensures shorter { length result.now ≤ length text.now }
{
    let len = text.len();
    if len > 0 && text[len - 1] == b' ' {
        &text[..len - 1]
    } else {
        text
    }
}

/// Returns a text without the space at its beginning.
fn without_head(text: &[u8]) -> &[u8]
    ensures is { result.now ≡ unheaded text.now }
    ensures shorter { length result.now ≤ length text.now }
{
    if !text.is_empty() && text[0] == b' ' {
        &text[1..]
    } else {
        text
    }
}

/// Returns the index of the first such byte.
fn place_of(text: &[u8], sought: u8) -> Option<usize>
    ensures { result ≡ position (λ byte. byte == sought) text.now }
{
    text.iter().position(|byte| *byte == sought)
}

/// Returns the index of the first quote or `#`.
fn quote_or_comment(line: &[u8]) -> Option<usize>
    ensures is { result ≡ position (λ byte. byte == 34 || byte == 35) line.now }
    ensures most { IfSome result (λ at. at < length line.now) }
{
    line.iter().position(|byte| *byte == b'"' || *byte == b'#')
}

/// Returns whether the line contains a text in quotes.
pub(crate) fn has_text(line: &[u8]) -> bool
    ensures { result ≡ lines.has_text line.now }
{
    match quote_or_comment(line) {
        Some(at) => line[at] == b'"',
        None => false,
    }
}

/// Cuts a text at `=>`, which has to be its first `=`.
fn cut(text: &[u8]) -> (&[u8], Option<&[u8]>)
    ensures front { result.0.now ≡ asked text.now }
    ensures back { option_map (λ t. t.now) result.1 ≡ expected text.now }
    ensures shorter { length result.0.now ≤ length text.now }
    ensures back_shorter { IfSome result.1 (λ t. length t.now ≤ length text.now) }
{
    match place_of(text, b'=') {
        Some(at) => {
            if at + 1 < text.len() && text[at + 1] == b'>' {
                (&text[..at], Some(&text[at + 2..]))
            } else {
                (text, None)
            }
        }
        None => (text, None),
    }
}

/// Moves the column of an error in a part of a line, which follows `before` bytes.
pub fn shift_column(error: SyntaxError, before: u64) -> SyntaxError
    ensures { result ≡ lines.shifted before error }
{
    SyntaxError {
        fault: error.fault,
        column: error.column.saturating_add(before),
    }
}

/// Parses the part of a line after its time and the name of its host, into `line`: the whole line as it's written, the
/// words of the plain line or the packet that they describe, and the words that are expected.
pub fn read_part(whole: &[u8], text: &[u8], reader: &mut LineReader, line: &mut Line) -> Kind
    requires { length text.now ≤ length whole.now }
    ensures { reading_part whole.now text.now ≡ is_reading result line.new }
{
    if whole.len() > LONGEST {
        return Kind::TooLong;
    }
    put_shown(whole, &mut line.shown);
    let plain = match reader.plain_line(text) {
        Ok(plain) => plain,
        Err(error) => return Kind::Faulty(error),
    };
    let (front, back) = cut(plain);
    line.words.clear();
    line.words.append(without_tail(front));
    line.wanted.clear();
    line.expects = match back {
        Some(words) => {
            line.wanted.append(without_head(words));
            true
        }
        None => false,
    };
    line.named = false;
    match reader.put_packet(text, line.words.as_slice(), &mut line.packet) {
        Ok(true) => {
            line.named = true;
            Kind::Asks
        }
        Ok(false) if line.expects || !line.words.is_empty() => Kind::Asks,
        Ok(false) => Kind::Nothing,
        Err(error) => Kind::Faulty(error),
    }
}
