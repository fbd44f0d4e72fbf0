//! How much of a pool is in use.

/// How much of a pool is free and how many references its clusters have, like 4.4BSD's `mbstat` (TCP/IP Illustrated,
/// volume 2, section 2.3). `Pool::usage` returns it.
#[derive(Clone, Copy, Debug, PartialEq, Eq)]
pub struct Usage {
    /// The number of free mbufs.
    pub free_mbufs: u32,
    /// The number of mbufs, 1 to 65,535.
    pub mbufs: u32,
    /// The number of free clusters.
    pub free_clusters: u32,
    /// The number of clusters, 0 to 4,096.
    pub clusters: u32,
    /// The number of references from mbufs to clusters.
    pub references: u32,
    /// The number of references to the cluster that has the most.
    pub greatest_count: u32,
}
