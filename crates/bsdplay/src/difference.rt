//! The word in which an expectation and a reply differ.
use play_script::is_same_word;
use script_loop::first_word;
use std::alloc::AllocError;

/// A longer word isn't repeated.
const LONGEST_WORD: usize = 64;

/// Returns where the text has these bytes first.
fn place_in(text: &[u8], sought: &[u8]) -> Option<usize> {
    for at in 0..text.len() {
        if text.get(at..).unwrap_or_default().starts_with(sought) {
            return Some(at);
        }
    }
    None
}

/// Returns a text without its beginning, up to these bytes and with them.
fn after<'a>(text: &'a [u8], sought: &[u8]) -> Option<&'a [u8]> {
    let at = place_in(text, sought)?;
    text.get(at.saturating_add(sought.len())..)
}

/// Returns what was expected and what came, from the text for a reply that isn't the expected one.
fn both_in(fault: &[u8]) -> Option<(&[u8], &[u8])> {
    let wanted = after(fault, b": expected ")?;
    let at = place_in(wanted, b", got ")?;
    Some((wanted.get(..at)?, after(wanted, b", got ")?))
}

/// Adds three pieces, unless the first is too long.
fn put(note: &mut Vec<u8>, word: &[u8], middle: &[u8], other: &[u8]) -> Result<(), AllocError> {
    if word.len() > LONGEST_WORD || other.len() > LONGEST_WORD {
        return Ok(());
    }
    note.extend_from_slice(b"; ")?;
    note.extend_from_slice(word)?;
    note.extend_from_slice(middle)?;
    note.extend_from_slice(other)
}

/// Adds the first word that differs, and the right one.
fn put_words(note: &mut Vec<u8>, wanted: &[u8], got: &[u8]) -> Result<(), AllocError> {
    let (mut left, mut rest) = (Some(wanted), Some(got));
    for _ in 0..wanted.len().saturating_add(2) {
        match (left, rest) {
            (None, None) => break,
            (None, Some(got)) => {
                let (came, _) = first_word(got);
                return put(note, came, b" is missing", b"");
            }
            (Some(wanted), None) => {
                let (word, _) = first_word(wanted);
                if word == b"..".as_slice() {
                    break;
                }
                return put(note, word, b" is extra", b"");
            }
            (Some(wanted), Some(got)) => {
                let (word, more) = first_word(wanted);
                if word == b"..".as_slice() {
                    break;
                }
                let (came, others) = first_word(got);
                if !is_same_word(word, came) {
                    return put(note, came, b" is right, not ", word);
                }
                left = more;
                rest = others;
            }
        }
    }
    Ok(())
}

/// Adds to the text for a reply that isn't the expected one, which word of it was wrong.
pub(crate) fn put_difference(note: &mut Vec<u8>, fault: &[u8]) -> Result<(), AllocError> {
    match both_in(fault) {
        Some((wanted, got)) => put_words(note, wanted, got),
        None => Ok(()),
    }
}
