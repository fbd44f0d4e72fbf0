//! The laws.
ghost use Rattle.std.specs.Prelude.{◌≡◌, ℕ, List, Ok, Err};
ghost use Rattle.flat_model.specs.Machine.Fate.{Fated};
ghost use Rattle.flat_model.specs.Machine.State.{State};
ghost use Rattle.flat_model.specs.declared.counters.Why.{Why};
ghost use Rattle.flat_model.specs.declared.fate.Fate.TheVariants.{Delivered, Kept, Completed, Dropped};
ghost use Rattle.flat_model.specs.declared.fate.Reached.{Reached};
ghost use Rattle.flat_fate.specs.Counted.{CountsFor, CountsLosses, CountsNone};

/// A packet that is dropped is counted once, for the cause that its fate names. A fragment that is kept is counted for
/// no cause. A packet whose datagram sockets match is counted only for copies that they lost: the queue was full, or
/// buffers were lacking. The law is about the counters of the 18 causes. Those of packets, fragments, reassembled and
/// reclaimed datagrams grow too.
pub fn fates_are_counted()
    ensures dropped { (old new : State) (packet : List ℕ) (why : Why) →
        Fated old packet (Dropped why) new → CountsFor why old new }
    ensures completed { (old new : State) (packet : List ℕ) (why : Why) →
        Fated old packet (Completed (Err why)) new → CountsFor why old new }
    ensures kept { (old new : State) (packet : List ℕ) → Fated old packet Kept new → CountsNone old new }
    ensures delivered { (old new : State) (packet : List ℕ) (reached : Reached) →
        Fated old packet (Delivered reached) new → CountsLosses old new }
    ensures completed_delivered { (old new : State) (packet : List ℕ) (reached : Reached) →
        Fated old packet (Completed (Ok reached)) new → CountsLosses old new }
{}
