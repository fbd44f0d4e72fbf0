//! The lines of a script in memory.
ghost use Rattle.std.specs.Prelude.{◌≡◌, ◌∷◌, ◌==◌, position};
ghost use Rattle.play_grade.specs.Asked.{lines_in, lines_left};

/// Returns the index of the first line feed.
fn end_at(text: &[u8]) -> Option<usize>
    ensures { result ≡ position (λ b. b == 10) text.now }
{
    text.iter().position(|byte| *byte == b'\n')
}

/// Returns the first line, and the rest after the line feed that ends it: `None` if there is no line feed.
pub fn first_line(text: &[u8]) -> (&[u8], Option<&[u8]>)
    ensures { lines_in text.now ≡ result.0.now ∷ lines_left result.1 }
{
    match end_at(text) {
        Some(at) => (&text[..at], Some(&text[at + 1..])),
        None => (text, None),
    }
}
