//! The words of a plain line, by position.
ghost use Rattle.std.specs.Prelude.{◌≡◌, ◌<◌, ◌≤◌, ◌+◌, ◌==◌, length, position, IfSome, option_map};
ghost use Rattle.play_packet.specs.Forms as forms;

/// Returns the index of the first space.
fn space_in(text: &[u8]) -> Option<usize>
    ensures is { result ≡ position (λ byte. byte == 32) text.now }
    ensures most { IfSome result (λ at. at < length text.now) }
{
    text.iter().position(|byte| *byte == b' ')
}

/// Returns the first word of a text.
fn word_in(text: &[u8]) -> &[u8]
    ensures is { result.now ≡ forms.first_word text.now }
    ensures most { length result.now ≤ length text.now }
{
    match space_in(text) {
        Some(at) => &text[..at],
        None => text,
    }
}

/// Returns the word that begins at a position of a text.
#[tactic(auto, unfolding(crate::specs::Forms::word_at))]
pub(crate) fn word_at(text: &[u8], at: usize) -> Option<&[u8]>
    ensures is { option_map (λ w. w.now) result ≡ forms.word_at text.now at }
    ensures inside { IfSome result (λ w. at + length w.now ≤ length text.now) }
{
    if text.len() < at {
        None
    } else {
        Some(word_in(&text[at..]))
    }
}

/// Returns the position of the last word of a text.
fn last_place(text: &[u8]) -> usize
    ensures { result ≡ forms.last_place text.now }
{
    let mut place = 0;
    let mut at = 0;
    for byte in text {
        at += 1;
        if *byte == b' ' {
            place = at;
        }
    }
    place
}

/// Returns the position of a word of a text, or of its last word if no word begins there.
pub(crate) fn place_in(text: &[u8], at: usize) -> usize
    ensures { result ≡ forms.word_place text.now at }
{
    if text.len() < at {
        last_place(text)
    } else {
        at
    }
}

/// Returns whether a word is `sought`.
pub(crate) fn is_word(sought: &[u8], word: Option<&[u8]>) -> bool
    ensures { result ≡ forms.is_word sought.now (option_map (λ w. w.now) word.entry) }
{
    match word {
        Some(word) => word == sought,
        None => false,
    }
}
