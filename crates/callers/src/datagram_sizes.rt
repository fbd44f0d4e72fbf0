//! What the definitions say about one datagram.
use flat_plain::{checksum, cuts, need};
use std::alloc::{AllocError, Global};

/// For a datagram of 3,000 bytes on a link with an MTU of 1,536: how many mbufs, clusters and packets it takes (6, 2
/// and 2). Also returns the checksum of two bytes.
pub fn sizes(alloc: Global) -> Result<(u64, u64, usize, u16), AllocError> {
    let buffers = need(alloc, 3000, 1536)?;
    let packets = cuts(alloc, 3008, 1536)?;
    Ok((
        buffers.mbufs,
        buffers.clusters,
        packets.len(),
        checksum(b"hi"),
    ))
}
