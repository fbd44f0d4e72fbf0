//! Making exercises from a key.
ghost use Rattle.std.specs.Prelude.{◌≡◌, ◌++◌, IfOk, OnErr};
ghost use Rattle.play_grade.specs.Asked.{asked_on};
ghost use Rattle.play_grade.specs.Blanks as blanks;

use crate::marker::Marker;
use crate::read::is_question;
use play_script::{Kind, bytes_of};
use std::alloc::AllocError;

/// Returns whether a line is a private comment of the key: it begins with `##`.
fn is_private(line: &[u8]) -> bool
    ensures { result ≡ blanks.is_private line.now }
{
    line.len() >= 2 && line[0] == b'#' && line[1] == b'#'
}

/// Appends three pieces, or the beginning of them if memory runs out.
fn put(text: &mut Vec<u8>, front: &[u8], middle: &[u8], end: &[u8]) -> Result<(), AllocError>
    ensures items { IfOk result (λ u. text.new.items ≡ text.old.items ++ front.now ++ middle.now ++ end.now) }
    ensures keeps { OnErr result (blanks.Starts text.old.items text.new.items) }
    ensures part { OnErr result (blanks.Starts text.new.items (text.old.items ++ front.now ++ middle.now ++ end.now)) }
{
    text.extend_from_slice(front)?;
    text.extend_from_slice(middle)?;
    text.extend_from_slice(end)
}

/// Returns what is before the request of a line in an exercise.
fn front_of(line: &[u8]) -> &'static [u8]
    ensures { result.now ≡ blanks.front_of line.now }
{
    if is_question(line) { b"#? " } else { b"" }
}

impl Marker {
    /// Reads a line, and returns whether `?` replaces its expectation or its answer.
    fn has_blank(&mut self, line: &[u8]) -> bool
        ensures { blanks.blank_reading line.now (asked_on line.now)
            ≡ blanks.blank_if result line.now self.new.asked.line.shown }
    {
        match self.asked.read(line, &mut self.reader) {
            Kind::Asks if self.asked.line.expects => true,
            Kind::Asks | Kind::Nothing | Kind::TooLong | Kind::Faulty(_) => false,
        }
    }

    /// Appends a line of a key as it appears in an exercise. `?` replaces the expectation or the answer, and a comment
    /// that begins with `##` is left out. If memory runs out, only the beginning was appended.
    pub fn put_blank(&mut self, line: &[u8], text: &mut Vec<u8>) -> Result<(), AllocError>
        ensures items { IfOk result (λ u. text.new.items ≡ text.old.items ++ blanks.blank_line line.now) }
        ensures keeps { OnErr result (blanks.Starts text.old.items text.new.items) }
        ensures part { OnErr result (blanks.Starts text.new.items (text.old.items ++ blanks.blank_line line.now)) }
    {
        if is_private(line) {
            return Ok(());
        }
        if self.has_blank(line) {
            let front = front_of(line);
            put(text, front, bytes_of(&self.asked.line.shown), b" => ?\n")
        } else {
            put(text, b"", line, b"\n")
        }
    }
}
