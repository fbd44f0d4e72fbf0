//! Text that is cut if it doesn't fit.
use play_text::Piece;
use script_loop::Buffer;

/// Appends bytes, as long as there is space for them.
pub(crate) fn add<const N: usize>(text: &mut Buffer<N>, bytes: &[u8]) {
    play_text::add(text, &[Piece::Text(bytes)]);
}

/// Appends the digits of a number, as long as there is space for them.
pub(crate) fn add_number<const N: usize>(text: &mut Buffer<N>, number: u64) {
    play_text::add(text, &[Piece::Long(number)]);
}
