//! Ranges of bytes in a region.

/// One of the pieces of a region, by its number, counted from 0.
#[derive(Clone, Copy, Debug, PartialEq, Eq)]
pub enum Buffer {
    /// An mbuf, 128 bytes long.
    Mbuf(u32),
    /// A cluster, 2,048 bytes long.
    Cluster(u32),
}

/// A range of bytes in an mbuf or a cluster. In an mbuf it is after the head.
#[derive(Clone, Copy, Debug, PartialEq, Eq)]
pub struct Part {
    /// The mbuf or cluster that contains the bytes.
    pub buffer: Buffer,
    /// The offset of the first byte, from the beginning of the mbuf or cluster.
    pub start: u32,
    /// The number of bytes.
    pub len: u32,
}
