//! Places in a chain, and the data there.

/// The position of an mbuf in a chain: the number of mbufs before it, and its own number. `Pool::first` returns a
/// chain's first place, `Pool::next` the one after a place.
#[derive(Clone, Copy, Debug, PartialEq, Eq)]
pub struct Place {
    /// The number of mbufs of the chain before it.
    pub index: u32,
    /// The number of the mbuf.
    pub cell: u32,
}

/// The location of an mbuf's bytes.
#[derive(Clone, Copy, Debug, PartialEq, Eq)]
pub struct Segment {
    /// The offset of the first byte, in the mbuf or in its cluster.
    pub start: u32,
    /// The number of bytes.
    pub len: u32,
    /// The cluster that contains them, if there is one.
    pub cluster: Option<u32>,
}
