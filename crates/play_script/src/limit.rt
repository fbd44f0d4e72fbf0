//! Lines that set the size of a socket's receive queue.
ghost use Rattle.std.specs.Prelude.{ℕ, MatchOption};
ghost use Rattle.play_script.specs.Asks.{IsLimit};

use script_loop::{first_word, number, three};

/// The largest size of a receive queue, in bytes.
const MOST_LIMIT: u32 = 65_535;

/// Returns the descriptor and the size in bytes, 1 to 65,535, of a line `setsockopt FD rcvbuf N`.
pub fn limit_of(plain: &[u8]) -> Option<(u32, u16)>
    ensures { MatchOption result ((fd limit : ℕ) → IsLimit plain.now fd limit → ⊥)
        (λ r. IsLimit plain.now r.0 r.1) }
{
    let (word, rest) = first_word(plain);
    if word != b"setsockopt".as_slice() {
        return None;
    }
    let (fd, option, size) = three(rest)?;
    if option != b"rcvbuf".as_slice() {
        return None;
    }
    let fd = number(fd, u32::MAX)?;
    let size = number(size, MOST_LIMIT)?;
    if size == 0 {
        return None;
    }
    Some((fd, size as u16))
}
