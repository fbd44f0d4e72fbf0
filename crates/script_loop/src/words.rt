//! The words of a line, and the numbers and bytes that they encode.
ghost use Rattle.std.specs.Prelude.{◌≡◌, ◌≤◌, ◌↔◌, ℕ, List, [], ◌∷◌, position, ◌==◌, length, take, IsTrue, MatchOption, IfSome};
ghost use Rattle.params.specs.declared.TheConstants.{IP_MAX_PACKET};
ghost use Rattle.flat_model.specs.Scripts.Grammar.{words, IsNumber, IsHex};
ghost use Rattle.script_loop.specs.Left.{left};

use memchr::memchr;
use std::str;

/// Returns the index of the first space.
fn space_at(text: &[u8]) -> Option<usize>
    ensures { result ≡ position (λ b. b == 32) text.now }
{
    memchr(b' ', text)
}

/// Returns the first word, and the rest after the space that ends it.
pub fn first_word(text: &[u8]) -> (&[u8], Option<&[u8]>)
    ensures { words text.now ≡ result.0.now ∷ left result.1 }
{
    match space_at(text) {
        Some(at) => (&text[..at], Some(&text[at + 1..])),
        None => (text, None),
    }
}

/// Returns whether no word is left.
pub fn is_end(rest: Option<&[u8]>) -> bool
    ensures { IsTrue result ↔ (left rest.entry ≡ []) }
{
    match rest {
        None => true,
        Some(_) => false,
    }
}

/// Returns the only word that is left.
pub fn one(rest: Option<&[u8]>) -> Option<&[u8]>
    ensures { MatchOption result ((a : List ℕ) → left rest.entry ≡ a ∷ [] →
        ⊥) (λ a. left rest.entry ≡ a.now ∷ []) }
{
    let (word, rest) = first_word(rest?);
    match rest {
        None => Some(word),
        Some(_) => None,
    }
}

/// Returns the two words that are left.
pub fn two(rest: Option<&[u8]>) -> Option<(&[u8], &[u8])>
    ensures { MatchOption result ((a b : List ℕ) → left rest.entry ≡ a ∷ b ∷ [] → ⊥)
        (λ t. left rest.entry ≡ t.0.now ∷ t.1.now ∷ []) }
{
    let (first, rest) = first_word(rest?);
    let second = one(rest)?;
    Some((first, second))
}

/// Returns the three words that are left.
pub fn three(rest: Option<&[u8]>) -> Option<(&[u8], &[u8], &[u8])>
    ensures { MatchOption result ((a b c : List ℕ) → left rest.entry ≡ a ∷ b ∷ c ∷ [] → ⊥)
        (λ t. left rest.entry ≡ t.0.now ∷ t.1.now ∷ t.2.now ∷ []) }
{
    let (first, rest) = first_word(rest?);
    let (second, rest) = first_word(rest?);
    let third = one(rest)?;
    Some((first, second, third))
}

/// Parses a number of at most `most` in exactly the form in which it is printed.
pub fn number(word: &[u8], most: u32) -> Option<u32>
    ensures { MatchOption result ((n : ℕ) → IsNumber most word.now n →
        ⊥) (λ n. IsNumber most word.now n) }
{
    let Ok(text) = str::from_utf8(word) else {
        return None;
    };
    let Ok(value) = text.parse::<u32>() else {
        return None;
    };
    let mut digits = itoa::Buffer::new();
    if value > most || digits.format(value).as_bytes() != word {
        return None;
    }
    Some(value)
}

/// Decodes a word into `buffer`, which has exactly 65,535 bytes, and returns the number of bytes: `-` for none, or two
/// hexadecimal digits of either case for each of 1 to 65,535 bytes. Returns `None` for any other word; the contents of
/// `buffer` may be lost then.
pub fn bytes(word: &[u8], buffer: &mut [u8]) -> Option<usize>
    requires { length buffer.old ≡ IP_MAX_PACKET }
    ensures bytes { MatchOption result ((xs : List ℕ) → IsHex word.now xs → ⊥)
        (λ n. IsHex word.now (take n buffer.new)) }
    ensures fits { IfSome result (λ n. n ≤ IP_MAX_PACKET) }
{
    if word == b"-".as_slice() {
        return Some(0);
    }
    let len = word.len() / 2;
    if len == 0 || len > buffer.len() {
        return None;
    }
    match hex::decode_to_slice(word, &mut buffer[..len]) {
        Ok(()) => Some(len),
        Err(_) => None,
    }
}
