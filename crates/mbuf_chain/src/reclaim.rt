//! Freeing buffers on demand.

ghost use Rattle.std.specs.Prelude.{◌≡◌, ℕ, [], List};
ghost use Rattle.mbuf_chain.specs.Chain.{PoolView};
ghost use Rattle.mbuf_chain.specs.Owners.{IsOwned, Moves};
ghost use Rattle.mbuf_chain.specs.Frames.{SameAt};

use crate::pool::Pool;
use crate::train::Train;

/// An object that owns chains of a pool for some time, each of them part of a datagram, and that can free them all if a
/// buffer is needed. In the stack these are the datagrams that wait for missing fragments.
///
/// Its ghost members define what that means for a type: whether the object and a pool fit together, the numbers of the
/// chains that it owns, and how many datagrams they are. Their laws are below.
pub trait Reclaim {
    ghost is_ready: { PoolView → Self → Type 0 };

    ghost owned: { PoolView → Self → List ℕ };

    ghost datagrams: { Self → ℕ };

    /// Frees all chains that the object owns, and returns how many datagrams they were. The object has no datagram
    /// afterwards. Every other chain is unchanged.
    fn reclaim(&mut self, pool: &mut Pool) -> u32
        requires { is_ready pool.old self.old }
        ensures count { result ≡ datagrams self.old }
        ensures none { datagrams self.new ≡ 0 }
        ensures ready { is_ready pool.new self.new }
        ensures moves { Moves pool.old (owned pool.old self.old) pool.new [] };

    // its chains are its own
    ghost is_owner: { (p : PoolView) (s : Self) → is_ready p s → IsOwned p (owned p s) };

    // it owns no chain if it has no datagram
    ghost owns_nothing: { (p : PoolView) (s : Self) → is_ready p s → datagrams s ≡ 0 → owned p s ≡ [] };

    // a step of other code leaves it unchanged
    ghost owned_same: { (p q : PoolView) (s : Self) → SameAt p q (owned p s) → owned q s ≡ owned p s };

    ghost ready_same: { (p q : PoolView) (s : Self) → SameAt p q (owned p s) → is_ready p s → is_ready q s };
}

/// The chains of a train, each of them a whole datagram.
impl Reclaim for Train {
    ghost use Rattle.mbuf_chain.specs.Train.{numbers, IsHeld};
    ghost use Rattle.mbuf_chain.specs.Kept.{numbers_same, held_same, none_left};

    ghost is_ready = { IsHeld };

    ghost owned = { numbers };

    ghost datagrams = { λ t. t.len };

    ghost is_owner = { λ p t h. h.owned };

    ghost owns_nothing = { λ p t h e. none_left p t e };

    ghost owned_same = { numbers_same };

    ghost ready_same = { held_same };

    fn reclaim(&mut self, pool: &mut Pool) -> u32 {
        let datagrams = self.len();
        'chains: for _freed in 0..datagrams {
            let (chain, _) = self.take(pool, 0);
            pool.free_chain(chain);
        }
        datagrams
    }
}
