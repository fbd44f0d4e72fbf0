//! The store.
ghost use Rattle.std.specs.Prelude.{◌≡◌, ◌+◌, ◌<◌, ◌≤◌, ◌↔◌, IsTrue, None, length, sum, fold, max, IfOk, OnErr, Err};
ghost use Rattle.std.specs.Borrow.{sem};
ghost use Rattle.raw_cells.specs.Cells.{IsChange, IsHead, changed};
ghost use Rattle.mbuf_pool.specs.Store.{is_out, mbuf_head, cluster_count, counts_of, cluster_of, free_mbufs, mbufs_out, free_clusters, with_mbuf, with_cluster, held_once_more, released, free_store, TakesMbuf, TakesWith, TakesCluster, SetsHead, IsPart, stored_part, write, IsStore, IsBad};
ghost use Rattle.mbuf_pool.specs.Inside.AllOut.{IsAllOut};

use crate::counts::Counts;
use crate::fault::{BootFault, NoBufs};
use crate::link::{First, next_cluster, set_next_cluster};
use crate::sizes::Sizes;
use params::{MAX_CLUSTERS, MAX_MBUFS};
use raw_cells::{Change, Head, Part, Region};
use std::alloc::{AllocError, Global};
use std::marker::Model;

/// The reference count of a free cluster.
const FREE: u16 = 0;

/// The head of a newly allocated mbuf.
const NEW_HEAD: Head = Head {
    next: None,
    next_packet: None,
    len: 0,
    start: 0,
    kind: 0,
    packet: None,
    cluster: None,
};

/// A pool of mbufs and clusters, as in 4.4BSD (TCP/IP Illustrated, volume 2, chapter 2).
///
/// Contracts see it as a `StoreView`: for each mbuf, nothing if it is free, otherwise its head and bytes; for each
/// cluster, its reference count, 0 if it is free, and its bytes. The contracts don't say which free buffer is handed
/// out next, or what free buffers contain.
#[derive(Drop)]
pub struct Store {
    region: Region,
    mbufs: u32,
    counts: Vec<u16>,
    first_mbuf: First,
    free_mbufs: u32,
    first_cluster: First,
    free_clusters: u32,
}

impl Model for Store {
    ghost use Rattle.mbuf_pool.specs.Store.{StoreView};

    ghost Value = { StoreView };

    ghost use Rattle.mbuf_pool.specs.Inside.Fields.{store_of, IsInside};

    ghost view = { store_of };

    ghost invariant = { IsInside };
}

impl Store {
    ghost use Rattle.mbuf_pool.specs.Lending.{LendsPart};

    /// Creates a store in which everything is free.
    ///
    /// # Errors
    ///
    /// `BadSizes`, which is tested first, if there are not 1 to 65,535 mbufs, or more than 4,096 clusters. `Memory` if
    /// one of the two allocations fails; nothing stays allocated then.
    pub fn boot(alloc: Global, sizes: Sizes) -> Result<Store, BootFault>
        ensures ok { IfOk result (λ s. s ≡ free_store sizes) }
        ensures bad { (result ≡ Err BootFault.BadSizes) ↔ IsBad sizes }
    {
        if sizes.mbufs == 0 || sizes.mbufs > MAX_MBUFS || sizes.clusters > MAX_CLUSTERS {
            return Err(BootFault::BadSizes);
        }
        let Ok(mut store) = Store::all_out(alloc, sizes) else {
            return Err(BootFault::Memory);
        };
        for index in (0..sizes.mbufs).rev() {
            store.put(index);
        }
        for cluster in (0..sizes.clusters).rev() {
            store.release(cluster);
        }
        Ok(store)
    }

    /// Creates a store in which everything is handed out, each cluster with one reference.
    fn all_out(alloc: Global, sizes: Sizes) -> Result<Store, AllocError>
        requires mbufs { (0 < sizes.mbufs) × (sizes.mbufs ≤ MAX_MBUFS) }
        requires clusters { sizes.clusters ≤ MAX_CLUSTERS }
        ensures { IfOk result (λ s. IsAllOut s sizes) }
    {
        let counts = Vec::from_elem(alloc, 1, sizes.clusters as usize)?;
        let region = Region::new(alloc, sizes.mbufs, sizes.clusters)?;
        Ok(Store {
            region,
            mbufs: sizes.mbufs,
            counts,
            first_mbuf: First::new(None),
            free_mbufs: 0,
            first_cluster: First::new(None),
            free_clusters: 0,
        })
    }

    /// Takes a free mbuf and returns its number. Its head has no link, no packet header and no cluster, and every other
    /// field is 0. The contents of its other bytes are unspecified. Returns `NoBufs` exactly if no mbuf is free;
    /// nothing changes then.
    pub fn get(&mut self) -> Result<u32, NoBufs>
        ensures ok { IfOk result (λ i. TakesMbuf self.old self.new i) }
        ensures err { OnErr result (free_mbufs self.old ≡ 0) }
        ensures same { OnErr result (self.new ≡ self.old) }
        ensures store { IsStore self.new }
    {
        self.get_with(NEW_HEAD)
    }

    /// Takes a free mbuf and returns its number. Its head is `given`, whose links must be below 0xffff_ffff. The
    /// contents of its other bytes are unspecified. Returns `NoBufs` exactly if no mbuf is free; nothing changes then.
    // Inlined, so that a head whose fields the caller knows takes only a few stores.
    #[inline(always)]
    pub fn get_with(&mut self, given: Head) -> Result<u32, NoBufs>
        requires { IsHead given }
        ensures ok { IfOk result (λ i. TakesWith self.old self.new i given) }
        ensures err { OnErr result (free_mbufs self.old ≡ 0) }
        ensures same { OnErr result (self.new ≡ self.old) }
        ensures store { IsStore self.new }
    {
        let Some(index) = self.first_mbuf.get() else {
            return Err(NoBufs);
        };
        self.first_mbuf = First::new(self.region.head(index).next);
        self.region.set_head(index, given);
        self.free_mbufs -= 1;
        Ok(index)
    }

    /// Frees an mbuf, which must be in use.
    pub fn put(&mut self, index: u32)
        requires { IsTrue (is_out self.old index) }
        ensures change { self.new ≡ with_mbuf self.old index None }
        ensures store { IsStore self.new }
    {
        self.region
            .change_head(index, Change::Next(self.first_mbuf.get()));
        self.first_mbuf = First::new(Some(index));
        self.free_mbufs += 1;
    }

    /// Takes a free cluster and returns its number. Its reference count is 1. The contents of its bytes are
    /// unspecified. Returns `NoBufs` exactly if no cluster is free; nothing changes then.
    pub fn get_cluster(&mut self) -> Result<u32, NoBufs>
        ensures ok { IfOk result (λ c. TakesCluster self.old self.new c) }
        ensures err { OnErr result (free_clusters self.old ≡ 0) }
        ensures same { OnErr result (self.new ≡ self.old) }
        ensures store { IsStore self.new }
    {
        let Some(cluster) = self.first_cluster.get() else {
            return Err(NoBufs);
        };
        self.first_cluster = First::new(next_cluster(&self.region, cluster));
        self.counts[cluster as usize] = 1;
        self.free_clusters -= 1;
        Ok(cluster)
    }

    /// Adds a reference to a cluster. Its count must be 1 to 65,534.
    pub fn hold(&mut self, cluster: u32)
        requires counted { 0 < cluster_count self.old cluster }
        requires below { cluster_count self.old cluster < 65535 }
        ensures change { self.new ≡ with_cluster self.old cluster (held_once_more (cluster_of self.old cluster)) }
        ensures store { IsStore self.new }
    {
        self.counts[cluster as usize] += 1;
    }

    /// Removes a reference from a cluster, whose count must be above 0. At 0 the cluster is free.
    ///
    /// For example, three calls change a count as `3->2->1->0`.
    pub fn release(&mut self, cluster: u32)
        requires { 0 < cluster_count self.old cluster }
        ensures change { self.new ≡ with_cluster self.old cluster (released (cluster_of self.old cluster)) }
        ensures store { IsStore self.new }
    {
        let left = self.counts[cluster as usize] - 1;
        self.counts[cluster as usize] = left;
        if left == FREE {
            set_next_cluster(&mut self.region, cluster, self.first_cluster.get());
            self.first_cluster = First::new(Some(cluster));
            self.free_clusters += 1;
        }
    }

    /// States what is always true of a store. It takes no step at run time.
    pub const fn laws(&self)
        ensures { IsStore self.now }
    {
        let _ = &self.region;
    }

    /// Returns the number of mbufs, 1 to 65,535.
    pub fn mbufs(&self) -> u32
        ensures value { result ≡ length self.now.mbufs }
        ensures store { IsStore self.now }
    {
        self.mbufs
    }

    /// Returns the number of clusters, at most 4,096.
    pub fn clusters(&self) -> u32
        ensures value { result ≡ length self.now.clusters }
        ensures store { IsStore self.now }
    {
        self.counts.len() as u32
    }

    /// Returns the number of free mbufs.
    pub fn free_mbufs(&self) -> u32
        ensures value { result ≡ free_mbufs self.now }
        ensures rest { result + mbufs_out self.now ≡ length self.now.mbufs }
    {
        self.free_mbufs
    }

    /// Returns the number of free clusters.
    pub fn free_clusters(&self) -> u32
        ensures { result ≡ free_clusters self.now }
    {
        self.free_clusters
    }

    /// Returns the reference count of a cluster, 0 to 65,535; it is 0 exactly if the cluster is free. There must be
    /// such a cluster.
    pub fn count(&self, cluster: u32) -> u32
        requires { cluster < length self.now.clusters }
        ensures value { result ≡ cluster_count self.now cluster }
        ensures few { result ≤ 65535 }
    {
        u32::from(self.counts[cluster as usize])
    }

    /// Returns the sum and the greatest of the clusters' counts. It takes one step per cluster.
    pub fn counts(&self) -> Counts
        ensures sum { result.sum ≡ sum (counts_of self.now) }
        ensures greatest { result.greatest ≡ fold max 0 (counts_of self.now) }
    {
        let mut sum = 0;
        let mut greatest = 0;
        'clusters: for cluster in 0..self.clusters() {
            let count = self.count(cluster);
            sum += count;
            if greatest < count {
                greatest = count;
            }
        }
        Counts { sum, greatest }
    }

    /// Returns the head of an mbuf, which must be in use.
    // Inlined, so that a caller reads only the fields that it uses.
    #[inline(always)]
    pub fn head(&self, index: u32) -> Head
        requires { IsTrue (is_out self.now index) }
        ensures value { result ≡ mbuf_head self.now index }
        ensures links { IsHead result }
    {
        self.region.head(index)
    }

    /// Sets the head of an mbuf, which must be in use. The links must be below 0xffff_ffff. This writes the first 20
    /// bytes of the mbuf, 28 if the head has a packet header, 32 if it has a cluster. All other bytes stay as they are.
    #[inline(always)]
    pub fn set_head(&mut self, index: u32, head: Head)
        requires out { IsTrue (is_out self.old index) }
        requires links { IsHead head }
        ensures change { SetsHead self.old self.new index head }
        ensures store { IsStore self.new }
    {
        self.region.set_head(index, head);
    }

    /// Changes some fields of the head of an mbuf, which must be in use. The rest of its head stays as it is.
    /// [`Change`] gives the conditions of each change.
    // Inlined, so that a caller that knows the change takes only its store.
    #[inline(always)]
    pub fn change_head(&mut self, index: u32, change: Change)
        requires out { IsTrue (is_out self.old index) }
        requires possible { IsChange (mbuf_head self.old index) change }
        ensures change { SetsHead self.old self.new index (changed (mbuf_head self.old index) change) }
        ensures store { IsStore self.new }
    {
        self.region.change_head(index, change);
    }

    /// Returns the bytes of a part, without copying. The part must be in a cluster whose count is above 0, or after
    /// the head of an mbuf that is in use and refers to no cluster.
    #[inline(always)]
    pub fn bytes(&self, part: Part) -> &[u8]
        requires { IsPart self.now part }
        ensures value { result.now ≡ stored_part self.now part }
        ensures len { length result.now ≡ part.len }
    {
        self.region.bytes(part)
    }

    /// Returns the bytes of a part, mutable. The conditions are those of `bytes`. When the borrow ends, the part has
    /// the bytes written, and nothing outside the part has changed.
    // Inlined, so that a caller that knows the length compiles to stores.
    #[inline(always)]
    pub fn bytes_mut(&mut self, part: Part) -> &mut [u8]
        requires { IsPart self.old part }
        ensures* writes_back { sem 𝓛 (LendsPart self.entry part result) }
        ensures value { result.now ≡ stored_part self.old part }
        ensures len { length result.now ≡ part.len }
        ensures store { IsStore self.old }
    {
        self.region.bytes_mut(part)
    }

    /// Copies the bytes of `from` over those of `to`, which must have the same length. The conditions of `bytes` apply
    /// to both.
    pub fn copy(&mut self, from: Part, to: Part)
        requires from { IsPart self.old from }
        requires to { IsPart self.old to }
        requires len { from.len ≡ to.len }
        ensures change { self.new ≡ write self.old to (stored_part self.old from) }
        ensures store { IsStore self.new }
    {
        self.region.copy(from, to);
    }
}
