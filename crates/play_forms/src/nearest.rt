//! Which command a misspelled word is near to.
ghost use Rattle.std.specs.Prelude.{◌≡◌, drop};
ghost use Rattle.std.specs.List.{find};
ghost use Rattle.play_forms.specs.Near as near;

use crate::command::Command;

/// Returns a word without its first byte.
fn tail(word: &[u8]) -> &[u8]
    ensures { result.now ≡ drop 1 word.now }
{
    match word {
        [] => word,
        [_, rest @ ..] => rest,
    }
}

/// Returns whether the first two bytes of two words are swapped.
fn is_swapped(word: &[u8], name: &[u8]) -> bool
    ensures { result ≡ near.is_swapped word.now name.now }
{
    (word.len() >= 2 && name.len() >= 2)
        && (word[0] == name[1] && (word[1] == name[0] && word[2..] == name[2..]))
}

/// Returns whether two words differ by one edit at their first bytes.
fn differs_once(word: &[u8], name: &[u8]) -> bool
    ensures { result ≡ near.differs_once word.now name.now }
{
    tail(word) == tail(name)
        || (word == tail(name) || (tail(word) == name || is_swapped(word, name)))
}

/// Returns whether two words differ by one edit at any byte, or are equal.
fn is_typo(word: &[u8], name: &[u8]) -> bool
    ensures { result ≡ near.is_typo word.now name.now }
{
    match (word, name) {
        ([a, more @ ..], [b, rest @ ..]) if *a == *b => is_typo(more, rest),
        _ => differs_once(word, name),
    }
}

/// Returns whether the second word begins with the first one, which has three bytes or more.
fn is_front(front: &[u8], word: &[u8]) -> bool
    ensures { result ≡ near.is_front front.now word.now }
{
    front.len() >= 3 && word.starts_with(front)
}

/// Returns whether a word is near to a name: one edit turns it into the name, or one of the two begins with the other.
fn is_near(word: &[u8], name: &[u8]) -> bool
    ensures { result ≡ near.is_near word.now name.now }
{
    is_typo(word, name) || (is_front(word, name) || is_front(name, word))
}

/// Returns whether a word is the command's.
fn has_name(word: &[u8], asked: Command) -> bool
    ensures { result ≡ near.has_name word.now asked }
{
    word == asked.row().name.as_bytes()
}

/// Returns the first of some commands that has this name.
pub(crate) fn named(word: &[u8], commands: &[Command]) -> Option<Command>
    ensures { result ≡ find (near.has_name word.now) commands.now }
{
    match commands {
        [] => None,
        [first, rest @ ..] => {
            if has_name(word, *first) {
                Some(*first)
            } else {
                named(word, rest)
            }
        }
    }
}

/// Returns the first of some commands that a word is near to.
pub(crate) fn nearest(word: &[u8], commands: &[Command]) -> Option<Command>
    ensures { result ≡ near.nearest word.now commands.now }
{
    match commands {
        [] => None,
        [first, rest @ ..] => {
            if is_near(word, first.row().name.as_bytes()) {
                Some(*first)
            } else {
                nearest(word, rest)
            }
        }
    }
}
