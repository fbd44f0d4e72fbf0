//! How much of a pool is in use.
ghost use Rattle.std.specs.Prelude.{◌≡◌, ◌≤◌, length};
ghost use Rattle.flat_model.specs.Machine.Ledger.{usage_of, weight_of_state};
ghost use Rattle.flat_model.specs.Machine.State.{State};
ghost use Rattle.flat_model.specs.Amounts.Weight.{SameWeight, times};
ghost use Rattle.params.specs.declared.TheConstants.{MAX_CLUSTERS};
ghost use Rattle.flat_plain.specs.Weights.{plain_weight};

use crate::weights::Weight;
use flat_model::Mbstat;

/// Returns how often the cluster is in the bag.
fn times_of(bag: &[u32], cluster: u32) -> u32
    requires { length bag.now ≤ 65536 }
    ensures number { result ≡ times cluster bag.now }
    ensures most { result ≤ 65536 }
{
    bag.iter().filter(|c| **c == cluster).count() as u32
}

/// Returns the usage of a pool of this many mbufs and clusters, at most 4,096 clusters, if everything held has this
/// weight.
pub fn usage(mbufs: u32, clusters: u32, held: &Weight) -> Mbstat
    requires clusters { clusters ≤ MAX_CLUSTERS }
    requires bag { length held.now.bag.items ≤ 65536 }
    ensures { (s : State) → s.config.mbufs ≡ mbufs → s.config.clusters ≡ clusters →
        SameWeight (weight_of_state s) (plain_weight held.now) → usage_of s ≡ result }
{
    let bag = held.bag.as_slice();
    let mut free_clusters = 0u32;
    let mut refs = 0u32;
    let mut most = 0u32;
    for c in 0..clusters {
        let count = times_of(bag, c);
        free_clusters += if count == 0 { 1 } else { 0 };
        refs += count;
        most = most.max(count);
    }
    let free_mbufs = u64::from(mbufs).saturating_sub(held.mbufs) as u32;
    Mbstat {
        free_mbufs,
        mbufs,
        free_clusters,
        clusters,
        refs,
        most,
    }
}
