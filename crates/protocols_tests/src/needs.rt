//! How many buffers a send takes.
use ip_out::need;

/// How many bytes are sent, the MTU, and how many mbufs and clusters that takes.
static NEEDS: [(u32, u16, u32, u32); 4] = [
    (0, 1500, 1, 0),
    (3000, 1536, 6, 2),
    (9216, 1500, 22, 5),
    (9216, 68, 393, 5),
];

/// Returns whether a send takes this many mbufs and clusters.
fn is_needed(n: u32, mtu: u16, mbufs: u32, clusters: u32) -> bool {
    if n > 65_507 || mtu < 68 {
        return false;
    }
    let needed = need(n, mtu);
    needed.mbufs == mbufs && needed.clusters == clusters
}

#[test]
fn needs(rt: HostRuntime) {
    for (row, (n, mtu, mbufs, clusters)) in NEEDS.iter().enumerate() {
        assert!(rt; is_needed(*n, *mtu, *mbufs, *clusters), "row {row}");
    }
}
