//! The part of a line that is printed: everything before its comment and its expectation.
ghost use Rattle.std.specs.Prelude.{◌≡◌, ◌≤◌, length};
ghost use Rattle.play_line.specs.Shown as lines;

use crate::bytes::{Class, is_in};
use crate::line::LONGEST;
use script_loop::Buffer;

/// Writes the part of a line before its comment and its expectation into an empty buffer: its words as they are
/// written, with one space between each two.
pub fn put_shown(line: &[u8], text: &mut Buffer<LONGEST>)
    requires { length line.now ≤ LONGEST }
    ensures { text.new ≡ lines.shown line.now }
{
    text.clear();
    let mut gap = false;
    let mut quoted = false;
    let mut escaped = false;
    for byte in line {
        if !quoted && (*byte == b'#' || *byte == b'=') {
            return;
        }
        if !quoted && is_in(Class::Blank, *byte) {
            gap = true;
        } else {
            if gap && !text.is_empty() {
                text.push(b' ');
            }
            text.push(*byte);
            gap = false;
            let in_text = quoted;
            quoted = if in_text {
                escaped || *byte != b'"'
            } else {
                *byte == b'"'
            };
            escaped = in_text && (!escaped && *byte == b'\\');
        }
    }
}
