//! A place among the fragments of a datagram, given by the fragment before it: the next one is found, removed or
//! inserted without a walk.
ghost use Rattle.std.specs.Prelude.{◌≡◌, ◌+◌, ◌<◌, ◌∷◌, true, insert, remove, MatchOption};
ghost use Rattle.mbuf_chain.specs.Chain.{IsLive, chain_of, alone};
ghost use Rattle.mbuf_chain.specs.Owners.{times_among, Moves};
ghost use Rattle.mbuf_chain.specs.Train.{queued_packets, queued_packet_at, numbers, IsQueuedPlace, IsHeld};
ghost use Rattle.ip_reass.specs.Inside.Queue.{HasFront, LeavesFront};
ghost use Rattle.ip_reass.specs.Inside.Walks.{IsFront, after};

use mbuf_chain::{Chain, Pool, QueuedPlace, Train};

/// Returns the place of the fragment after this one, or of the first if none precedes it.
pub(crate) fn next_after(
    pool: &Pool,
    train: &Train,
    front: Option<QueuedPlace>,
) -> Option<QueuedPlace>
    requires { HasFront pool.now train.now front }
    ensures { MatchOption result (train.now.len ≡ after front) (λ at. (at.index ≡ after front)
        × IsQueuedPlace pool.now train.now at) }
{
    match front {
        None => train.first(pool),
        Some(at) => train.next(pool, at),
    }
}

/// Removes the fragment after this one: returns its chain and its tag.
pub(crate) fn take_after(
    pool: &mut Pool,
    train: &mut Train,
    front: Option<QueuedPlace>,
) -> (Chain, u32)
    requires at { HasFront pool.old train.old front }
    requires more { after front < train.old.len }
    ensures queued_packets { queued_packets pool.new train.new
        ≡ remove (queued_packets pool.old train.old) (after front) }
    ensures taken { queued_packet_at pool.old train.old (after front) ≡
        record {
          number = result.0;
          entries = (chain_of pool.new result.0).entries;
          tag = result.1;
        } }
    ensures alone { (chain_of pool.new result.0).front ≡ alone true }
    ensures front { IsFront pool.new train.new front }
    ensures held { IsHeld pool.new train.new }
    ensures len { train.new.len + 1 ≡ train.old.len }
    ensures moves { Moves pool.old (numbers pool.old train.old) pool.new
        (result.0 ∷ numbers pool.new train.new) }
{
    match front {
        None => train.take(pool, 0),
        Some(at) => train.take_after(pool, at),
    }
}

/// Inserts a fragment after this one, with a tag.
pub(crate) fn insert_after(
    pool: &mut Pool,
    train: &mut Train,
    front: Option<QueuedPlace>,
    chain: Chain,
    tag: u32,
)
    requires at { HasFront pool.old train.old front }
    requires live { IsLive pool.old chain }
    requires headed { (chain_of pool.old chain).front.header ≡ true }
    requires apart { times_among chain (numbers pool.old train.old) ≡ 0 }
    ensures queued_packets { queued_packets pool.new train.new ≡
        insert (queued_packets pool.old train.old) (after front)
        (record { number = chain; entries = (chain_of pool.old chain).entries; tag = tag }) }
    ensures left { LeavesFront pool.old (chain ∷ numbers pool.old train.old) pool.new train.new front }
    ensures len { train.new.len ≡ train.old.len + 1 }
{
    match front {
        None => train.insert(pool, 0, chain, tag),
        Some(at) => {
            let _ = train.insert_after(pool, at, chain, tag);
        }
    }
}
