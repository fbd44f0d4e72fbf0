//! Laws of lines. Each is a function that does nothing, and its contract is the law.
ghost use Rattle.std.specs.Prelude.{◌≡◌, ℕ, List};
ghost use Rattle.play_wire.specs.Wires.{WireAsk, WritesWire};

/// A line makes at most one request to the wire.
pub fn asks_law()
    ensures { (plain : List ℕ) (a b : WireAsk) → WritesWire plain a → WritesWire plain b → a ≡ b }
{}
