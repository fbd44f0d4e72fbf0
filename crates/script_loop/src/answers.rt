//! The trait for what replies to the lines.
ghost use Rattle.std.specs.Prelude.{◌≡◌, ◌≤◌, ◌++◌, ℕ, List, length};
ghost use Rattle.script_loop.specs.declared.serve.TheConstants.{HELD};

use crate::buffer::Buffer;

/// Replies to the lines of a script, one after another. It is all that the loop that reads the lines knows about the
/// replies.
///
/// `N` is the capacity of the text to which the replies are appended. Each reply must fit after 65,536 bytes of other
/// replies.
pub trait Answers<const N: usize> {
    /// The type of its state in contracts.
    ghost State: { Type 0 };

    /// Its state in contracts.
    ghost state: { Self → Self.State };

    /// From a state, a line may get this reply and lead to that state.
    ghost may_answer: { Self.State → List ℕ → List ℕ → Self.State → Type 0 };

    /// Appends its reply to a line to the text.
    fn answer(&mut self, line: &[u8], text: &mut Buffer<N>)
        requires { length text.old ≤ HELD }
        ensures { (reply : List ℕ) × may_answer (state self.old) line.now reply (state self.new)
            × (text.new ≡ text.old ++ reply) };
}
