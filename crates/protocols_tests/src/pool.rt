//! Boots that are refused, a pool of one mbuf, and a cluster with two references.
ghost use Rattle.std.specs.Prelude.{◌≡◌};
ghost use Rattle.mbuf_pool.specs.Store.{free_store, TakesMbuf, TakesCluster};

use mbuf_pool::{BootFault, NoBufs, Sizes, Store};
use std::alloc::Global;
use std::process::Abort;

/// Creates a pool in which everything is free.
fn booted(rt: &impl Abort, alloc: Global, mbufs: u32, clusters: u32) -> Store
    ensures { result ≡ free_store (record { mbufs = mbufs; clusters = clusters }) }
{
    Store::boot(alloc, Sizes { mbufs, clusters }).expect(rt, "boot")
}

fn got(rt: &impl Abort, store: &mut Store) -> u32
    ensures { TakesMbuf store.old store.new result }
{
    store.get().expect(rt, "an mbuf")
}

fn got_cluster(rt: &impl Abort, store: &mut Store) -> u32
    ensures { TakesCluster store.old store.new result }
{
    store.get_cluster().expect(rt, "a cluster")
}

#[test]
fn refuses_bad_sizes(rt: HostRuntime) {
    for (mbufs, clusters) in [(0, 0), (65_536, 0), (1, 4097), (0, 4097)] {
        let answer = Store::boot(rt.alloc(), Sizes { mbufs, clusters });
        assert!(rt; matches!(answer, Err(BootFault::BadSizes)));
    }
}

#[test]
fn one_mbuf(rt: HostRuntime) {
    let mut store = booted(&rt, rt.alloc(), 1, 0);
    let index = got(&rt, &mut store);
    assert!(rt; store.free_mbufs() == 0 && store.get() == Err(NoBufs));
    store.put(index);
    assert!(rt; store.free_mbufs() == 1 && store.get() == Ok(index));
    assert!(rt; store.get_cluster() == Err(NoBufs));
}

#[test]
fn one_cluster(rt: HostRuntime) {
    let mut store = booted(&rt, rt.alloc(), 2, 1);
    let cluster = got_cluster(&rt, &mut store);
    let counted = store.count(cluster);
    store.hold(cluster);
    store.release(cluster);
    let held = store.free_clusters();
    store.release(cluster);
    assert!(rt; [counted, held, store.free_clusters()] == [1, 0, 1]);
}
