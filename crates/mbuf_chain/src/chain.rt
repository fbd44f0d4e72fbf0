//! Chains.
ghost use Rattle.std.specs.Prelude.{◌≡◌};

use std::marker::Model;

/// A chain of one or more mbufs of a pool. Contracts see it as its number, and the pool's map gives the contents for
/// that number. It must be consumed, by `Pool::free_chain` or by a call that takes it.
pub struct Chain {
    pub(crate) first: u32,
}

impl Model for Chain {
    ghost use Rattle.std.specs.Prelude.{ℕ};

    ghost Value = { ℕ };

    ghost view = { λ c. c.first };
}

impl Chain {
    /// Returns the chain's number, for a train, which stores numbers instead of chains: `from_number` turns the number
    /// back into the chain. Both are private to this crate, so that no other code can make a chain from a number.
    pub(crate) fn into_number(self) -> u32
        ensures { result ≡ self }
    {
        let Chain { first } = self;
        first
    }

    /// Returns the chain with that number.
    pub(crate) fn from_number(first: u32) -> Chain
        ensures { result ≡ first }
    {
        Chain { first }
    }
}
