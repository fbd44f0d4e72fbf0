//! Whether a reply meets an expectation.
ghost use Rattle.std.specs.Prelude.{◌≡◌, ◌&&◌, ◌||◌, bytes_eq, codes};
ghost use Rattle.flat_model.specs.Scripts.Grammar.{words};
ghost use Rattle.play_script.specs.Outcomes as outcomes;

use script_loop::first_word;

/// Returns whether the rest of an expectation is the single word `..`, which matches any rest.
fn is_rest(wanted: &[u8]) -> bool
    ensures { result ≡ outcomes.is_rest (words wanted.now) }
{
    let (word, more) = first_word(wanted);
    match more {
        None => word == b"..".as_slice(),
        Some(_) => false,
    }
}

/// Returns whether a byte is a mark of punctuation with which a word may end.
fn is_mark(byte: u8) -> bool
    ensures { result ≡ outcomes.is_mark byte }
{
    byte == b',' || (byte == b'.' || (byte == b':' || byte == b';'))
}

/// Returns a word without the mark that it ends with.
fn bare(word: &[u8]) -> &[u8]
    ensures { result.now ≡ outcomes.bare word.now }
{
    let len = word.len();
    if len != 0 && is_mark(word[len - 1]) {
        return &word[..len - 1];
    }
    word
}

/// Returns whether a word of a reply matches the expected one, which `_` always does. A mark at the end of either isn't
/// compared.
pub fn is_same_word(word: &[u8], got: &[u8]) -> bool
    ensures { result ≡ outcomes.is_same_word word.now got.now }
{
    word == b"_".as_slice() || bare(word) == bare(got)
}

/// The same, if both words are `error`.
fn if_errors(word: &[u8], got: &[u8], so: bool) -> bool
    ensures { result ≡ (bytes_eq word.now (codes "error") && (bytes_eq got.now (codes "error") && so)) }
{
    word == b"error".as_slice() && (got == b"error".as_slice() && so)
}

/// Returns whether the words match one by one: `_` matches any word, and `..` at the end matches any rest.
fn fits(wanted: &[u8], reply_line: &[u8]) -> bool
    ensures { result ≡ outcomes.fits_words (words wanted.now) (words reply_line.now) }
{
    let mut left = wanted;
    let mut got_left = reply_line;
    'words: loop {
        if is_rest(left) {
            return true;
        }
        let (word, more) = first_word(left);
        let (got, rest) = first_word(got_left);
        if is_same_word(word, got) {
            match (more, rest) {
                (Some(more), Some(rest)) => {
                    left = more;
                    got_left = rest;
                }
                (None, None) => return true,
                (Some(more), None) => return is_rest(more),
                (None, Some(_)) => return false,
            }
        } else {
            return false;
        }
    }
}

/// Returns whether both are errors, and fit without the number of the second.
fn fits_unnumbered(wanted: &[u8], reply_line: &[u8]) -> bool
    ensures { result ≡ outcomes.fits_unnumbered (words wanted.now) (words reply_line.now) }
{
    let (word, more) = first_word(wanted);
    let (got, rest) = first_word(reply_line);
    let Some(rest) = rest else {
        return false;
    };
    let (_, rest) = first_word(rest);
    match (more, rest) {
        (Some(more), Some(rest)) => word == b"error".as_slice()
            && (got == b"error".as_slice() && fits(more, rest)),
        (None, None) => word == b"error".as_slice() && got == b"error".as_slice(),
        (Some(more), None) => if_errors(word, got, is_rest(more)),
        (None, Some(_)) => false,
    }
}

/// Returns whether a reply meets an expectation word by word: `_` matches any word, `..` at the end matches any rest,
/// even an empty one, a mark at the end of a word isn't compared, and the number of an error may be left out.
pub fn meets(wanted: &[u8], reply_line: &[u8]) -> bool
    ensures { result ≡ outcomes.meets_reply wanted.now reply_line.now }
{
    fits(wanted, reply_line) || fits_unnumbered(wanted, reply_line)
}
