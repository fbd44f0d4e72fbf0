//! Whether a hand-in passes by a key.
use play_grade::{Marker, Verdict};
use play_script::{DEFAULTS, Form, Style, play};
use std::alloc::{AllocError, Global};

/// Returns whether a hand-in passes: it is played on a machine of its own, and has the answers of the key. The output
/// is discarded.
pub fn passes(alloc: Global, key: &[u8], hand_in: &[u8]) -> Result<bool, AllocError> {
    let mut marker = Marker::new(alloc)?;
    let style = Style {
        form: Form::Quiet,
        name: b"hand-in",
    };
    let (mut reader, mut written) = (hand_in, Vec::new(alloc));
    let played = play(alloc, DEFAULTS, style, &mut reader, &mut written);
    let marks = marker.marks_by(key, hand_in);
    Ok(Verdict { played, marks }.is_passed())
}
