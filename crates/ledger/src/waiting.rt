//! Unfinished datagrams, and their list in the flat machine.

ghost use Rattle.std.specs.Prelude.{◌≡◌, List, length};
ghost use Rattle.flat_model.specs.Machine.State.{Unfinished};
ghost use Rattle.flat_model.specs.Amounts.Weight.{all_of, mbuf, ◌⊕◌, SameWeight};
ghost use Rattle.flat_model.specs.Fragments.Whole.{weight_of_pieces};
ghost use Rattle.mbuf_chain.specs.Chain.{PoolView};
ghost use Rattle.mbuf_chain.specs.Frames.{SameAt};
ghost use Rattle.ledger.specs.Accounts.{weight_owned};

use mbuf_chain::Reclaim;

/// Datagrams that wait for their other fragments: an owner of chains that can be freed, and what it is for the flat
/// machine. The layers that take buffers are generic over it, so none of them depends on the reassembly.
///
/// Its ghost member `unfinished` is the list of datagrams that the object and the pool show. The laws below say that
/// `Reclaim` counts that number of them, that its chains weigh what the flat machine says, and that a step that doesn't
/// touch them leaves them unchanged.
pub trait Waiting: Reclaim {
    ghost unfinished: { PoolView → Self → List Unfinished };

    /// Returns how many datagrams wait.
    fn count(&self) -> u32
        ensures { result ≡ Self.datagrams self.now };

    // the datagrams shown are those counted
    ghost counts: { (p : PoolView) (s : Self) → Self.is_ready p s → length (unfinished p s) ≡ Self.datagrams s };

    // its chains have their weight in the flat machine: the pieces of each datagram, and an mbuf for its key
    ghost weighs: { (p : PoolView) (s : Self) → Self.is_ready p s →
        SameWeight (weight_owned p (Self.owned p s)) (all_of (λ u. mbuf ⊕ weight_of_pieces u.bytes) (unfinished p s)) };

    // a step that doesn't touch its chains leaves it unchanged
    ghost unfinished_same: { (p q : PoolView) (s : Self) → SameAt p q (Self.owned p s)
        → unfinished q s ≡ unfinished p s };
}
