//! Numbers of buffers.

/// The number of free buffers that an operation takes (this project's own).
#[derive(Clone, Copy, Debug, PartialEq, Eq)]
pub struct Need {
    /// The number of mbufs.
    pub mbufs: u32,
    /// The number of clusters.
    pub clusters: u32,
}
