//! Marking hand-ins.
ghost use Rattle.std.specs.Prelude.{◌≡◌, MatchOption, List, None, Option, true, ℕ};
ghost use Rattle.play_script.specs.Views.{expected_on};
ghost use Rattle.play_grade.specs.Asked.{asked_on, lines_in, lines_left};
ghost use Rattle.play_grade.specs.Grades as grades;
ghost use Rattle.play_grade.specs.Inside.{standing_of};

use crate::answers::{is_answered, mark_of};
use crate::asked::Asked;
use crate::lines::first_line;
use crate::marks::{Mark, Marks};
use play_packet::LineReader;
use play_script::{Kind, bytes_of};
use std::alloc::{AllocError, Global};

/// Marks hand-ins. It has the memory into which lines are read.
#[derive(Drop)]
pub struct Marker {
    pub(crate) reader: LineReader,
    /// The line of the key.
    pub(crate) asked: Asked,
    /// The line of the hand-in.
    given: Asked,
}

/// The state after some lines of the key.
#[derive(Clone, Copy)]
pub(crate) struct Standing<'h> {
    /// The number of these lines.
    number: u64,
    marks: Marks,
    /// The rest of the hand-in.
    left: Option<&'h [u8]>,
}

/// Returns whether a line has exactly this request. Its answer is then in `given`.
fn asks(asked: &[u8], text: &[u8], reader: &mut LineReader, given: &mut Asked) -> bool
    ensures { (rest : List (List ℕ)) (later : Option grades.Found)
        → grades.found_on asked.now (asked_on text.now) rest later
        ≡ grades.found_if result (expected_on given.new.line) rest later }
{
    match given.read(text, reader) {
        Kind::Asks => asked == bytes_of(&given.plain),
        Kind::Nothing | Kind::TooLong | Kind::Faulty(_) => false,
    }
}

/// Finds the first line with exactly this request. Its answer is then in `given`, and the result is the text after it.
fn find<'h>(
    asked: &[u8],
    hand: &'h [u8],
    reader: &mut LineReader,
    given: &mut Asked,
) -> Option<Option<&'h [u8]>>
    ensures { MatchOption result (grades.found_in asked.now (lines_in hand.now) ≡ None)
        (λ rest. grades.found_in asked.now (lines_in hand.now)
        ≡ grades.found_if true (expected_on given.new.line) (lines_left rest) None) }
{
    let mut left = hand;
    'lines: loop {
        let (text, more) = first_line(left);
        if asks(asked, text, reader, given) {
            return Some(more);
        }
        match more {
            Some(more) => left = more,
            None => return None,
        }
    }
}

impl Marker {
    /// Allocates the memory.
    pub fn new(alloc: Global) -> Result<Marker, AllocError> {
        let reader = LineReader::new(alloc)?;
        let Ok(asked) = Asked::new(alloc) else {
            drop(reader);
            return Err(AllocError);
        };
        let Ok(given) = Asked::new(alloc) else {
            drop((reader, asked));
            return Err(AllocError);
        };
        Ok(Marker {
            reader,
            asked,
            given,
        })
    }

    /// Marks the hand-in's answer to the current line of the key.
    fn marked<'h>(&mut self, standing: Standing<'h>) -> Standing<'h>
        ensures { standing_of result ≡ grades.marked self.old.asked.line.wanted
            (grades.found_in self.old.asked.plain (lines_left standing.entry.left)) (standing_of standing.entry) }
    {
        let Standing {
            number,
            marks,
            left,
        } = standing;
        let key = &self.asked;
        let asked = bytes_of(&key.plain);
        let found = match left {
            Some(hand) => find(asked, hand, &mut self.reader, &mut self.given),
            None => None,
        };
        let (mark, left) = match found {
            Some(rest) => (mark_of(bytes_of(&key.line.wanted), &self.given.line), rest),
            None => (Mark::Missing, left),
        };
        Standing {
            number,
            marks: marks.counted(mark, number),
            left,
        }
    }

    /// Processes the key's next line.
    fn after_line<'h>(&mut self, line: &[u8], standing: Standing<'h>) -> Standing<'h>
        ensures { standing_of result ≡ grades.after_line line.now (standing_of standing.entry) }
    {
        let standing = Standing {
            number: standing.number.saturating_add(1),
            ..standing
        };
        match self.asked.read(line, &mut self.reader) {
            Kind::Asks if is_answered(&self.asked.line) => self.marked(standing),
            Kind::Asks | Kind::Nothing | Kind::TooLong | Kind::Faulty(_) => standing,
        }
    }

    /// Marks a hand-in by a key. For each line of the key with an answer or an expectation, it searches the hand-in for
    /// a line with the same request, after the last one that was found. The answer is right if it meets the key's
    /// answer in the way that a reply meets an expectation: `_` in the key stands for any word. Lines of the hand-in
    /// that the key doesn't have are skipped.
    pub fn marks_by(&mut self, key: &[u8], hand: &[u8]) -> Marks
        ensures { result ≡ grades.marks_by key.now hand.now }
    {
        let mut standing = Standing {
            number: 0,
            marks: Marks::none(),
            left: Some(hand),
        };
        let mut left = key;
        'lines: loop {
            let (line, more) = first_line(left);
            standing = self.after_line(line, standing);
            match more {
                Some(more) => left = more,
                None => return standing.marks,
            }
        }
    }
}
