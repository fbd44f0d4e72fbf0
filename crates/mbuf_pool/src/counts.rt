//! The reference counts of a store's clusters.

/// The reference counts of all clusters of a store: their sum and the greatest of them.
#[derive(Clone, Copy, Debug, PartialEq, Eq)]
pub struct Counts {
    /// The sum of all counts: the number of references to clusters.
    pub sum: u32,
    /// The greatest count, 0 to 65,535; 0 if there is no cluster.
    pub greatest: u32,
}
