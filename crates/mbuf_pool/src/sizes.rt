//! The size of a store.

/// The numbers of mbufs and clusters in a store.
#[derive(Clone, Copy, Debug, PartialEq, Eq)]
pub struct Sizes {
    /// The number of mbufs, 1 to 65,535.
    pub mbufs: u32,
    /// The number of clusters, 0 to 4,096.
    pub clusters: u32,
}
