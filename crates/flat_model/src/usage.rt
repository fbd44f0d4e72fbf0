//! How full a pool is.

/// How much of the pool is in use (4.4BSD's `mbstat`, volume 2 chapter 2, in this project's own selection).
#[derive(Clone, Copy, Debug, PartialEq, Eq)]
pub struct Mbstat {
    /// The number of free mbufs.
    pub free_mbufs: u32,
    /// The number of mbufs.
    pub mbufs: u32,
    /// The number of free clusters.
    pub free_clusters: u32,
    /// The number of clusters.
    pub clusters: u32,
    /// The sum of the reference counts of all clusters.
    pub refs: u32,
    /// The greatest reference count of a cluster, 0 if there is no cluster.
    pub most: u32,
}
