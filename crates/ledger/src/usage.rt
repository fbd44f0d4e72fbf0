//! Usage of the pool.

ghost use Rattle.std.specs.Prelude.{◌≡◌};
ghost use Rattle.flat_model.specs.Machine.State.{State};
ghost use Rattle.flat_model.specs.Amounts.Weight.{nothing};
ghost use Rattle.flat_model.specs.Machine.Ledger.{usage_of};
ghost use Rattle.ledger.specs.Accounts.{IsAccounted};

use flat_model::Mbstat;
use mbuf_chain::Pool;

/// Returns what is free in the pool, its totals, the sum of the counts of its clusters, and the greatest of them. The
/// flat machine shows the same for each state for which the pool accounts while a step holds nothing. It takes one step
/// for each cluster.
pub fn mbstat(pool: &Pool) -> Mbstat
    ensures { (s : State) → IsAccounted pool.now s nothing → result ≡ usage_of s }
{
    let usage = pool.usage();
    Mbstat {
        free_mbufs: usage.free_mbufs,
        mbufs: usage.mbufs,
        free_clusters: usage.free_clusters,
        clusters: usage.clusters,
        refs: usage.references,
        most: usage.greatest_count,
    }
}
