//! Laws of the texts. Each is a function that does nothing, and its contract is the law.
ghost use Rattle.std.specs.Prelude.{◌≡◌};
ghost use Rattle.flat_model.specs.Machine.State.{State};
ghost use Rattle.flat_model.specs.Machine.Step.{Step};
ghost use Rattle.flat_model.specs.Machine.Ledger.{usage_of};
ghost use Rattle.play_show.specs.Changes.{IsSnapshot};
ghost use Rattle.play_show.specs.declared.snapshot.Snapshot.{Snapshot};

/// A snapshot is a function of the stack's state: its counters, and how much of its pool is in use.
pub fn looks_law()
    ensures { (s : State) (x : Snapshot) → IsSnapshot Step s x → (x.counters ≡ s.counters) × (x.usage ≡ usage_of s) }
{}
