//! Lines without an expectation.
ghost use Rattle.std.specs.Prelude.{◌≡◌};
ghost use Rattle.flat_model.specs.Scripts.Grammar.{words};
ghost use Rattle.play_grade.specs.Asked.{asked_on};
ghost use Rattle.play_grade.specs.Lacks as lacks;

use crate::answers::is_answered;
use crate::lines::first_line;
use crate::marker::Marker;
use crate::marks::{Mark, Marks};
use play_script::{Kind, bytes_of};
use script_loop::first_word;

/// Returns whether the first word of a plain line names a host, or the wire.
fn names_hosts(plain: &[u8]) -> bool
    ensures { result ≡ lacks.names_hosts (words plain.now) }
{
    let (word, _) = first_word(plain);
    word == b"host".as_slice() || word == b"wire".as_slice()
}

/// Returns whether a plain line sets up hosts: it begins with `--`, `host` or `wire`.
fn is_setup(plain: &[u8]) -> bool
    ensures { result ≡ lacks.is_setup plain.now }
{
    (plain.len() >= 2 && plain[0] == b'-' && plain[1] == b'-') || names_hosts(plain)
}

impl Marker {
    /// Returns whether a line makes a request but has no expectation, or is a question without an answer. An
    /// expectation that consists only of `_`, `?` and `..` doesn't count. A line that sets up hosts needs no
    /// expectation.
    pub fn lacks(&mut self, line: &[u8]) -> bool
        ensures { result ≡ lacks.lacks line.now }
    {
        match self.asked.read(line, &mut self.reader) {
            Kind::Asks => {
                !is_setup(bytes_of(&self.asked.plain)) && !is_answered(&self.asked.line)
            }
            Kind::Nothing | Kind::TooLong | Kind::Faulty(_) => false,
        }
    }

    /// Returns whether a line, or a question, expects `?`: a student has yet to find its reply or its answer.
    pub fn awaits(&mut self, line: &[u8]) -> bool
        ensures { result ≡ lacks.awaits line.now }
    {
        match self.asked.read(line, &mut self.reader) {
            Kind::Asks => {
                self.asked.line.expects && bytes_of(&self.asked.line.wanted) == b"?".as_slice()
            }
            Kind::Nothing | Kind::TooLong | Kind::Faulty(_) => false,
        }
    }

    /// Returns the marks with one more line.
    fn own_counted(&mut self, line: &[u8], number: u64, marks: Marks) -> Marks
        ensures { result ≡ lacks.own_counted (asked_on line.now) number marks }
    {
        match self.asked.read(line, &mut self.reader) {
            Kind::Asks if is_setup(bytes_of(&self.asked.plain)) => marks,
            Kind::Asks if is_answered(&self.asked.line) => marks.counted(Mark::Right, number),
            Kind::Asks => marks.counted(Mark::Missing, number),
            Kind::Nothing | Kind::TooLong | Kind::Faulty(_) => marks,
        }
    }

    /// Marks a script that has no key. Each line that makes a request counts as right if it has an expectation, and as
    /// missing if it has none. Playing the script shows whether the expectations are met.
    pub fn own_marks(&mut self, script: &[u8]) -> Marks
        ensures { result ≡ lacks.own_marks script.now }
    {
        let mut marks = Marks::none();
        let mut number = 0u64;
        let mut left = script;
        'lines: loop {
            let (line, more) = first_line(left);
            number = number.saturating_add(1);
            marks = self.own_counted(line, number, marks);
            match more {
                Some(more) => left = more,
                None => return marks,
            }
        }
    }
}
