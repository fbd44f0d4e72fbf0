//! Printing a script.
ghost use Rattle.std.specs.Prelude.{◌≡◌, ◌≤◌, ◌++◌, ◌&&◌, ◌||◌, IfOk, codes, false, length, take, true};
ghost use Rattle.flat_model.specs.Machine.Count.{more_by};
ghost use Rattle.play_forms.specs.declared.text.TheConstants.{ADVICE};
ghost use Rattle.play_text.specs.Texts.{fault_text, line_error_text};
ghost use Rattle.play_script.specs.Lines as lines;
ghost use Rattle.play_script.specs.Reports.{is_sound, reply_line_text};
ghost use Rattle.play_script.specs.Views.{expected_on};

use crate::fits::meets;
use crate::line::{Line, has_text};
use crate::print::{NAME, OUTPUT};
use crate::report::{Report, bytes_of};
use play_forms::ADVICE;
use play_line::SyntaxError;
use play_text::{Form, Outcome};
use script_loop::{Buffer, HELD};
use std::alloc::{AllocError, Global};

/// How a script is printed.
#[derive(Clone, Copy)]
pub struct Style<'a> {
    /// The form.
    pub form: Form,
    /// The script's name, printed before what is wrong with a line. Only its first 4,096 bytes are printed.
    pub name: &'a [u8],
}

/// The printer of a script: its form, and the name that errors are printed with.
#[derive(Drop)]
pub struct Printer {
    pub form: Form,
    pub name: Buffer<NAME>,
    /// How many lines it has seen.
    pub number: u64,
    /// Whether all of them could be read, and all expectations were met.
    pub sound: bool,
    /// Whether there was no memory for the settings of one of them.
    pub lacks: bool,
    /// Whether one of them contains a text in quotes.
    pub texts: bool,
}

/// Returns the part of a name that is printed.
fn front_of(name: &[u8]) -> &[u8]
    ensures is { result.now ≡ take NAME name.now }
    ensures most { length result.now ≤ NAME }
{
    if name.len() <= NAME {
        return name;
    }
    let (front, _) = name.split_at(NAME);
    front
}

/// Returns whether both hold.
pub(crate) fn both(first: bool, second: bool) -> bool
    ensures { result ≡ (first && second) }
{
    first && second
}

/// Returns whether the reply meets the line's expectation, or the line has none.
fn is_met(line: &Line, reply_line: &[u8]) -> bool
    ensures { result ≡ is_sound (expected_on line.now) reply_line.now }
{
    !line.expects || meets(bytes_of(&line.wanted), reply_line)
}

impl Printer {
    /// Returns the printer before the first line of a script of this style. The name is copied.
    pub fn new(alloc: Global, style: Style<'_>) -> Result<Printer, AllocError>
        ensures { IfOk result (λ p. (p.form ≡ style.entry.form) × (p.number ≡ 0)
            × (p.name ≡ take NAME style.entry.name.now) × (p.sound ≡ true) × (p.lacks ≡ false)
            × (p.texts ≡ false)) }
    {
        let mut name = Buffer::new(alloc)?;
        name.append(front_of(style.name));
        Ok(Printer {
            form: style.form,
            name,
            number: 0,
            sound: true,
            lacks: false,
            texts: false,
        })
    }

    /// Counts the next line, and notes whether it contains a text in quotes.
    pub fn next_line(&mut self, line: &[u8])
        ensures { self.new ≡ record self.old {
          number = more_by 1 self.old.number;
          texts = self.old.texts || lines.has_text line.now;
        } }
    {
        self.number = self.number.saturating_add(1);
        self.texts = self.texts || has_text(line);
    }

    /// Appends what is wrong with the line.
    pub fn put_fault(&mut self, text: &mut Buffer<OUTPUT>, what: &[u8])
        requires held { length text.old ≤ HELD }
        requires what { length what.now ≤ ADVICE }
        ensures text { text.new ≡ text.old ++ fault_text self.old.form self.old.name self.old.number what.now }
        ensures printer { self.new ≡ record self.old { sound = false } }
    {
        play_text::put_fault(text, self.form, bytes_of(&self.name), self.number, what);
        self.sound = false;
    }

    /// Notes whether there was no memory for the settings of the line.
    pub fn note_lack(&mut self, lacks: bool)
        ensures { self.new ≡ record self.old { lacks = self.old.lacks || lacks } }
    {
        self.lacks = self.lacks || lacks;
    }

    /// Appends that the line is too long.
    pub fn put_too_long(&mut self, text: &mut Buffer<OUTPUT>)
        requires { length text.old ≤ HELD }
        ensures text { text.new ≡ text.old
            ++ fault_text self.old.form self.old.name self.old.number (codes "the line is too long") }
        ensures printer { self.new ≡ record self.old { sound = false } }
    {
        self.put_fault(text, b"the line is too long");
    }

    /// Appends what is wrong with a byte of the line.
    pub fn put_error(&mut self, text: &mut Buffer<OUTPUT>, error: SyntaxError)
        requires { length text.old ≤ HELD }
        ensures text { text.new ≡ text.old ++ line_error_text self.old.form self.old.name self.old.number error }
        ensures printer { self.new ≡ record self.old { sound = false } }
    {
        play_text::put_error(text, self.form, bytes_of(&self.name), self.number, error);
        self.sound = false;
    }

    /// Appends the line and its reply.
    pub fn put_reply_line(&mut self, text: &mut Buffer<OUTPUT>, line: &Line, report: &Report)
        requires { length text.old ≤ HELD }
        ensures text { text.new ≡ text.old ++ reply_line_text self.old.form self.old.texts self.old.name self.old.number
            line.now.shown (expected_on line.now) report.now.reply_line report.now.below }
        ensures printer { self.new
            ≡ record self.old { sound = self.old.sound && is_sound (expected_on line.now) report.now.reply_line } }
    {
        let met = is_met(line, bytes_of(&report.reply_line));
        let outcome = Outcome {
            number: self.number,
            line: bytes_of(&line.shown),
            reply: bytes_of(&report.reply_line),
            below: bytes_of(&report.below),
            texts: self.texts,
            expects: line.expects,
            wanted: bytes_of(&line.wanted),
            met,
        };
        play_text::put_outcome(text, self.form, bytes_of(&self.name), &outcome);
        self.sound = both(self.sound, met);
    }
}
