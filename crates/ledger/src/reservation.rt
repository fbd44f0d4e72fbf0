//! The test of the pool, and what it frees on failure.

ghost use Rattle.std.specs.Prelude.{◌≡◌, true, false};
ghost use Rattle.flat_model.specs.Machine.State.{State};
ghost use Rattle.flat_model.specs.Amounts.Weight.{Weight};
ghost use Rattle.mbuf_chain.specs.Owners.{Moves};
ghost use Rattle.ledger.specs.Accounts.{IsAccounted};
ghost use Rattle.ledger.specs.Reserve.{are_free, Reserves};

use crate::Waiting;
use flat_model::{Counter, Counters};
use mbuf_chain::Pool;

/// Returns whether that number of mbufs and clusters is free now. Nothing is reserved: a call elsewhere may take them.
/// It takes O(1) steps (this project's own).
#[inline(always)]
pub fn are_free(pool: &Pool, mbufs: u32, clusters: u32) -> bool
    ensures { result ≡ are_free pool.now mbufs clusters }
{
    let free = pool.free_mbufs();
    let free_clusters = pool.free_clusters();
    mbufs <= free && clusters <= free_clusters
}

/// Tests whether that number of mbufs and clusters is free, before a step takes them. If not, all unfinished datagrams
/// are freed and counted as `IpReclaimed`, and the result is that of a second test. If they are free, nothing changes.
///
/// `true`: they are free now, so the caller can take them without an error. Nothing is set aside: a call elsewhere may
/// take them first.
///
/// After a clause of `HasBuffers` in the definitions of the ledger (`ip_drain` of TCP/IP Illustrated, volume 2, chapter
/// 10). The clause holds for each state whose accounts the pool keeps, and for each weight held outside it.
pub fn reserve<R: Waiting>(
    pool: &mut Pool,
    waiting: &mut R,
    counters: &mut Counters,
    mbufs: u32,
    clusters: u32,
) -> bool
    requires { R.is_ready pool.old waiting.old }
    ensures reserves { (s : State) (held : Weight) →
        s.unfinished ≡ R.unfinished pool.old waiting.old → s.counters ≡ counters.old → IsAccounted pool.old s held →
        Reserves s held (record { mbufs = mbufs; clusters = clusters }) result
        (record s { unfinished = R.unfinished pool.new waiting.new; counters = counters.new }) pool.new }
    ensures moves { Moves pool.old (R.owned pool.old waiting.old) pool.new (R.owned pool.new waiting.new) }
    ensures ready { R.is_ready pool.new waiting.new }
    ensures answer { result ≡ are_free pool.new mbufs clusters }
    ensures kept { are_free pool.old mbufs clusters ≡ true →
        (pool.new ≡ pool.old) × (waiting.new ≡ waiting.old) × (counters.new ≡ counters.old) }
    ensures none { are_free pool.old mbufs clusters ≡ false → R.datagrams waiting.new ≡ 0 }
{
    if are_free(pool, mbufs, clusters) {
        return true;
    }
    let datagrams = waiting.reclaim(pool);
    counters.count_more(Counter::IpReclaimed, u64::from(datagrams));
    are_free(pool, mbufs, clusters)
}
