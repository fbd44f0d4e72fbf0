//! Marking answers.
ghost use Rattle.std.specs.Prelude.{◌≡◌};
ghost use Rattle.flat_model.specs.Scripts.Grammar.{words};
ghost use Rattle.play_script.specs.Views.{expected_on};
ghost use Rattle.play_grade.specs.Answers as answers;

use crate::marks::Mark;
use play_script::{Line, bytes_of, meets};
use script_loop::first_word;

/// Returns whether a word is open: it is missing, it matches any word, or it is the placeholder of an answer.
fn is_open_word(word: &[u8]) -> bool
    ensures { result ≡ answers.is_open_word word.now }
{
    word.is_empty()
        || (word == b"_".as_slice() || (word == b"?".as_slice() || word == b"..".as_slice()))
}

/// Returns whether all of the words are open.
pub(crate) fn is_open(text: &[u8]) -> bool
    ensures { result ≡ answers.all_open (words text.now) }
{
    let mut left = text;
    'words: loop {
        let (word, more) = first_word(left);
        if !is_open_word(word) {
            return false;
        }
        match more {
            Some(more) => left = more,
            None => return true,
        }
    }
}

/// Returns whether a line has an answer that isn't open.
pub(crate) fn is_answered(line: &Line) -> bool
    ensures { result ≡ answers.is_answer (expected_on line.now) }
{
    line.expects && !is_open(bytes_of(&line.wanted))
}

/// Returns the mark for the answer on a line, given the key's answer `wanted`.
pub(crate) fn mark_of(wanted: &[u8], given: &Line) -> Mark
    ensures { result ≡ answers.mark_of wanted.now (expected_on given.now) }
{
    if !is_answered(given) {
        Mark::Missing
    } else if meets(wanted, bytes_of(&given.wanted)) {
        Mark::Right
    } else {
        Mark::Wrong
    }
}
