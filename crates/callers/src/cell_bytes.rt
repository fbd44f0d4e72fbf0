//! Two bytes in a cluster of a region, and an mbuf's head that names it.
use raw_cells::{Buffer, Part, Region};
use std::alloc::{AllocError, Global};

/// Allocates memory for 4 mbufs and 1 cluster, and returns the bytes in the cluster: `hi`.
pub fn written(alloc: Global) -> Result<[u8; 2], AllocError> {
    let mut region = Region::new(alloc, 4, 1)?;
    let part = Part {
        buffer: Buffer::Cluster(0),
        start: 56,
        len: 2,
    };
    region.bytes_mut(part).copy_from_slice(b"hi");
    let mut head = region.head(3);
    head.cluster = Some(0);
    region.set_head(3, head);
    let mut bytes = [0; 2];
    bytes.copy_from_slice(region.bytes(part));
    Ok(bytes)
}
