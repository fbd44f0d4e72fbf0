//! Laws of the lines. Each is a function that does nothing; its contract is the law.
ghost use Rattle.std.specs.Prelude.{◌≡◌, ℕ, List};
ghost use Rattle.flat_model.specs.Machine.Event.{Event, IsEvent};
ghost use Rattle.flat_model.specs.Scripts.Grammar.{IsLine};

/// A line requests at most one event, whose numbers are within the ranges of the calls.
pub fn lines_law()
    ensures one { (line : List ℕ) (a b : Event) → IsLine line a → IsLine line b → a ≡ b }
    ensures ranges { (line : List ℕ) (event : Event) → IsLine line event → IsEvent event }
{}
