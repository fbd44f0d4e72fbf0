//! A cluster with two references.
use mbuf_pool::{BootFault, Sizes, Store};
use std::alloc::Global;

/// Returns how many of 64 clusters are free after both references were released: all.
pub fn free_again(alloc: Global) -> Result<u32, BootFault> {
    let sizes = Sizes {
        mbufs: 512,
        clusters: 64,
    };
    let mut store = Store::boot(alloc, sizes)?;
    if let Ok(cluster) = store.get_cluster() {
        store.hold(cluster);
        store.release(cluster);
        store.release(cluster); // the last one: the cluster is free
    }
    Ok(store.free_clusters())
}
