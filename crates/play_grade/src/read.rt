//! Parsing the request of a line.
ghost use Rattle.std.specs.Prelude.{◌≡◌, ◌≤◌, Ok, length};
ghost use Rattle.play_grade.specs.Asked as asked;
ghost use Rattle.play_grade.specs.Inside.{is_asked};

use crate::asked::Asked;
use play_line::{Timed, read_time};
use play_packet::LineReader;
use play_script::{Kind, read_part};

/// Returns whether a line is a question to the student: a comment that begins with `#?`.
pub(crate) fn is_question(line: &[u8]) -> bool
    ensures { result ≡ asked.is_question line.now }
{
    line.len() >= 2 && line[0] == b'#' && line[1] == b'?'
}

/// Returns a line without the `#?` of a question.
fn unmarked(line: &[u8]) -> &[u8]
    ensures { result.now ≡ asked.unmarked line.now }
{
    if is_question(line) { &line[2..] } else { line }
}

impl Asked {
    /// Reads a line, or the text after the `#?` of a question, as a line of a script.
    pub(crate) fn read(&mut self, text: &[u8], reader: &mut LineReader) -> Kind
        ensures { asked.asked_on text.now ≡ is_asked result self.new }
    {
        let line = unmarked(text);
        match read_time(line) {
            Ok(timed) => self.read_timed(line, timed, reader),
            Err(error) => Kind::Faulty(error),
        }
    }

    /// Reads a line with its time.
    fn read_timed(&mut self, line: &[u8], timed: Timed<'_>, reader: &mut LineReader) -> Kind
        requires { length timed.part.now ≤ length line.now }
        ensures { asked.timed_on line.now (Ok (record { ticks = timed.entry.ticks; part = timed.entry.part.now }))
            ≡ is_asked result self.new }
    {
        match read_part(line, timed.part, reader, &mut self.line) {
            Kind::Asks => {
                self.put_plain(timed.ticks);
                Kind::Asks
            }
            Kind::Nothing => Kind::Nothing,
            Kind::TooLong => Kind::TooLong,
            Kind::Faulty(error) => Kind::Faulty(error),
        }
    }
}
