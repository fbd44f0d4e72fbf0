//! Parsing at a position of a line that describes a packet.
ghost use Rattle.std.specs.Prelude.{◌≡◌, ◌≤◌, ◌+◌, length, IfOk, option_map};
ghost use Rattle.play_packet.specs.Forms as forms;

use crate::ends::{end_as, missing_end};
use crate::mark::Payload;
use crate::numbers::number_in;
use crate::words::{is_word, word_at};
use flat_model::Addr;
use play_line::Fault;

/// A number of the line, and the position where its word begins.
#[derive(Clone, Copy)]
pub(crate) struct NumberAt {
    pub(crate) value: u32,
    pub(crate) place: usize,
}

/// A word: its position, and its length in bytes.
#[derive(Clone, Copy)]
pub(crate) struct Span {
    pub(crate) place: usize,
    pub(crate) len: usize,
}

/// An error, and the position of the wrong word.
#[derive(Clone, Copy)]
pub(crate) struct Misfit {
    pub(crate) fault: Fault,
    pub(crate) place: usize,
}

/// Returns that the word at a position is wrong.
pub(crate) fn refuse<T>(fault: Fault, place: usize) -> Result<T, Misfit>
    ensures { result ≡ forms.misfit fault place }
{
    Err(Misfit { fault, place })
}

/// Returns the payload for the word after `rx`.
fn payload_in(word: Option<&[u8]>) -> Option<Payload>
    ensures { result ≡ forms.payload_in (option_map (λ w. w.now) word.entry) }
{
    if is_word(b"udp".as_slice(), word) {
        Some(Payload::Udp)
    } else if is_word(b"raw".as_slice(), word) {
        Some(Payload::Raw)
    } else {
        None
    }
}

/// Returns the payload of the packet that a line describes, if it describes one.
pub(crate) fn payload_of(text: &[u8]) -> Option<Payload>
    ensures { result ≡ forms.payload_of text.now }
{
    if is_word(b"rx".as_slice(), word_at(text, 0)) {
        payload_in(word_at(text, 3))
    } else {
        None
    }
}

/// Parses an endpoint of the packet. Also returns the position after it.
pub(crate) fn end_at(payload: Payload, text: &[u8], at: usize) -> Result<(Addr, usize), Misfit>
    ensures { result ≡ forms.end_read payload text.now at }
{
    let Some(word) = word_at(text, at) else {
        return refuse(missing_end(payload), at);
    };
    match end_as(payload, word) {
        Ok(end) => Ok((end, at + word.len() + 1)),
        Err(fault) => refuse(fault, at),
    }
}

/// Returns the position after the arrow between the endpoints.
pub(crate) fn arrow_at(text: &[u8], at: usize) -> Result<usize, Misfit>
    ensures { result ≡ forms.arrow_at text.now at }
{
    match word_at(text, at) {
        Some(word) if word == b">".as_slice() => Ok(at + word.len() + 1),
        _ => refuse(Fault::NoArrow, at),
    }
}

/// Returns the word with the bytes, and the position after it.
pub(crate) fn bytes_at(text: &[u8], at: usize) -> Result<(Span, usize), Misfit>
    ensures is { result ≡ forms.span_at text.now at }
    ensures inside { IfOk result (λ t. t.0.place + t.0.len ≤ length text.now) }
{
    match word_at(text, at) {
        Some(word) => Ok((
            Span {
                place: at,
                len: word.len(),
            },
            at + word.len() + 1,
        )),
        None => refuse(Fault::NoBytes, at),
    }
}

/// Parses a number of at most `most`. Also returns the position after it.
pub(crate) fn number_at(
    fault: Fault,
    most: u32,
    text: &[u8],
    at: usize,
) -> Result<(NumberAt, usize), Misfit>
    requires { most ≤ 65535 }
    ensures is { result ≡ forms.number_at fault most text.now at }
    ensures most { IfOk result (λ t. t.0.value ≤ most) }
{
    let Some(word) = word_at(text, at) else {
        return refuse(Fault::NoCount, at);
    };
    match number_in(word, most) {
        Some(value) => Ok((NumberAt { value, place: at }, at + word.len() + 1)),
        None => refuse(fault, at),
    }
}

/// Parses the offset of a fragment. Also returns the position after it.
pub(crate) fn offset_at(text: &[u8], at: usize) -> Result<(NumberAt, usize), Misfit>
    ensures is { result ≡ forms.offset_at text.now at }
    ensures most { IfOk result (λ t. t.0.value ≤ 65535) }
{
    let (offset, after) = number_at(Fault::NoOffset, 65_528, text, at)?;
    if offset.value % 8 != 0 {
        return refuse(Fault::NoOffset, offset.place);
    }
    Ok((offset, after))
}

/// Parses whether more fragments follow. Also returns the position after that word.
pub(crate) fn more_at(text: &[u8], at: usize) -> Result<(bool, usize), Misfit>
    ensures { result ≡ forms.more_at text.now at }
{
    let Some(word) = word_at(text, at) else {
        return refuse(Fault::NoMore, at);
    };
    if word == b"more".as_slice() {
        Ok((true, at + word.len() + 1))
    } else if word == b"last".as_slice() {
        Ok((false, at + word.len() + 1))
    } else {
        refuse(Fault::NoMore, at)
    }
}
