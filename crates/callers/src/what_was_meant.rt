//! Advice on a line that isn't a valid request.
use play_forms::{ADVICE, Player, advice_on, put_advice};
use script_loop::Buffer;

/// Writes into a text what is wrong with a line that isn't a valid request, and how it should be written.
pub fn explain(text: &mut Buffer<ADVICE>, line: &[u8]) {
    put_advice(text, &advice_on(Player::Machine, line));
}
