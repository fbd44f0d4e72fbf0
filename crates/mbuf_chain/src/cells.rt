//! Walks along the links of a store.
ghost use Rattle.std.specs.Prelude.{◌≡◌, ℕ, ◌<◌, true, Some, None, []};
ghost use Rattle.mbuf_pool.specs.Store.{IsStore, is_out, mbuf_head, cluster_count, with_mbuf};
ghost use Rattle.mbuf_chain.specs.Inside.Cells.{LeadsToEnd, cells_from, len_at, weigh, one, IsFreeable, Freed, released_in};

use mbuf_pool::Store;

/// Returns how many bytes the mbufs from `first` on contain.
pub(crate) fn bytes_from(store: &Store, first: u32) -> u32
    requires whole { LeadsToEnd store.now (Some first) }
    requires store { IsStore store.now }
    ensures { result ≡ weigh (len_at store.now) (cells_from store.now (Some first)) }
{
    let mut at = Some(first);
    let mut total = 0u32;
    'mbufs: while let Some(cell) = at {
        let head = store.head(cell);
        total += head.len;
        at = head.next;
    }
    total
}

/// Returns the number of mbufs from `first` on.
pub(crate) fn count_from(store: &Store, first: u32) -> u32
    requires whole { LeadsToEnd store.now (Some first) }
    requires store { IsStore store.now }
    ensures { result ≡ weigh one (cells_from store.now (Some first)) }
{
    let mut at = Some(first);
    let mut total = 0u32;
    'mbufs: while let Some(cell) = at {
        let head = store.head(cell);
        total += 1;
        at = head.next;
    }
    total
}

/// Removes one reference from a cluster, if there is a cluster.
fn release(store: &mut Store, cluster: Option<u32>)
    requires { (c : ℕ) → cluster ≡ Some c → 0 < cluster_count store.old c }
    ensures change { store.new ≡ released_in store.old cluster }
    ensures store { IsStore store.new }
{
    match cluster {
        Some(number) => store.release(number),
        None => {
            store.laws();
        }
    }
}

/// Frees an mbuf and its cluster reference, and returns the next mbuf.
pub(crate) fn free_mbuf(store: &mut Store, cell: u32) -> Option<u32>
    requires out { is_out store.old cell ≡ true }
    requires known { (c : ℕ) → (mbuf_head store.old cell).cluster ≡ Some c → 0 < cluster_count store.old c }
    ensures next { result ≡ (mbuf_head store.old cell).next }
    ensures freed { store.new ≡
        with_mbuf (released_in store.old (mbuf_head store.old cell).cluster) cell None }
    ensures store { IsStore store.new }
{
    let head = store.head(cell);
    release(store, head.cluster);
    store.put(cell);
    head.next
}

/// Frees the mbufs from `first` on and their cluster references.
pub(crate) fn free_from(store: &mut Store, first: u32)
    requires { IsFreeable store.old (Some first) }
    ensures freed { Freed store.old store.new (cells_from store.old (Some first)) [] }
    ensures store { IsStore store.new }
{
    let mut at = Some(first);
    'mbufs: while let Some(cell) = at {
        at = free_mbuf(store, cell);
    }
}
