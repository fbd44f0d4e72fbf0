//! The names of hosts.
ghost use Rattle.std.specs.Prelude.{◌≡◌, ◌≤◌, ◌++◌, ◌∷◌, length, slice_get, IfSome, IsTrue, Some, true};

use script_loop::Buffer;

/// The most bytes of a name.
pub(crate) const NAME: usize = 32;

/// Returns whether a word is a name: a letter, then letters, digits and `_`.
pub(crate) fn is_name(word: &[u8]) -> bool
    ensures { IsTrue result → length word.now ≤ NAME }
{
    if word.is_empty() || word.len() > NAME || !word[0].is_ascii_alphabetic() {
        return false;
    }
    word.iter()
        .all(|byte| byte.is_ascii_alphanumeric() || *byte == b'_')
}

/// Returns the host that a line names before a colon, and the text after the colon; `None` for other lines.
pub(crate) fn named(line: &[u8]) -> Option<(&[u8], &[u8])>
    ensures parts { IfSome result (λ r. line.now ≡ r.0.now ++ 58 ∷ r.1.now) }
    ensures short { IfSome result (λ r. length r.0.now ≤ NAME) }
{
    let at = line.iter().position(|byte| *byte == b':')?;
    if at < line.len() && is_name(&line[..at]) {
        Some((&line[..at], &line[at + 1..]))
    } else {
        None
    }
}

/// Returns whether the host at a place has this name.
fn is_at(names: &[Buffer<NAME>], place: usize, name: &[u8]) -> bool
    ensures { result ≡ true → slice_get names.now place ≡ Some name.now }
{
    match names.get(place) {
        Some(it) => it.as_slice() == name,
        None => false,
    }
}

/// Returns the place of the host with this name.
pub(crate) fn place_of(names: &[Buffer<NAME>], name: &[u8]) -> Option<usize>
    ensures { IfSome result (λ place. slice_get names.now place ≡ Some name.now) }
{
    for place in 0..names.len() {
        if is_at(names, place, name) {
            return Some(place);
        }
    }
    None
}
