//! Colours of the output.
ghost use Rattle.std.specs.Prelude.{◌≡◌, ◌+◌, ◌≤◌, ◌++◌, codes, length};
ghost use Rattle.play_text.specs.Bytes.{begins_with};
ghost use Rattle.play_text.specs.Forms as forms;

use crate::bytes::{ByteForm, begins_with, put_reply};
use crate::piece::Piece::{Reply, Text};
use crate::piece::put;
use script_loop::Buffer;

/// The escape sequence that begins red (ECMA-48 section 8.3.117).
pub(crate) const RED: &[u8] = b"\x1b[31m";

const GREEN: &[u8] = b"\x1b[32m";

const YELLOW: &[u8] = b"\x1b[33m";

/// The escape sequence that ends a colour.
pub(crate) const ENDED: &[u8] = b"\x1b[0m";

/// Returns whether the text here is a cause of a drop.
fn is_drop(text: &[u8]) -> bool
    ensures { result ≡ begins_with text.now (codes "dropped ") }
{
    begins_with(text, b"dropped ")
}

/// Returns the offset of the causes of drops in the output for a line.
fn drops_at(reply: &[u8]) -> usize
    ensures is { result ≡ forms.drops_at reply.now }
    ensures most { result ≤ length reply.now }
{
    let mut at = 0;
    while at < reply.len() {
        if is_drop(&reply[at..]) {
            return at;
        }
        at += 1;
    }
    at
}

/// Returns the colour of a reply.
fn reply_colour(reply: &[u8]) -> &'static [u8]
    ensures { result.now ≡ forms.reply_colour reply.now }
{
    if begins_with(reply, b"error ") {
        RED
    } else {
        GREEN
    }
}

/// Appends a part of the output in its colour.
fn put_part<'a, const N: usize>(
    text: &mut Buffer<N>,
    colour: &'a [u8],
    form: ByteForm,
    part: &'a [u8],
)
    requires short { length colour.now ≡ 5 }
    requires space { length text.old + (length part.now + 11) ≤ N }
    ensures items { text.new ≡ text.old ++ forms.part_text colour.now form part.now }
    ensures len { length text.new ≤ length text.old + (length part.now + 11) }
{
    if !part.is_empty() {
        put(text, &[Text(colour), Reply(form, part), Text(ENDED)]);
    }
}

/// Appends the output for a line, in its colours if there are colours.
pub(crate) fn put_coloured_reply<const N: usize>(
    text: &mut Buffer<N>,
    colours: bool,
    form: ByteForm,
    reply: &[u8],
)
    requires { length text.old + (length reply.now + 22) ≤ N }
    ensures items { text.new ≡ text.old ++ forms.coloured_reply colours form reply.now }
    ensures len { length text.new ≤ length text.old + (length reply.now + 22) }
{
    if colours {
        let at = drops_at(reply);
        put_part(text, reply_colour(reply), form, &reply[..at]);
        put_part(text, YELLOW, ByteForm::Digits, &reply[at..]);
    } else {
        put_reply(text, form, reply);
    }
}
