//! The memory of all packets: one block of raw bytes, cut into mbufs of 128 bytes and clusters of 2,048. A [`Region`]
//! owns the block. It reads and writes the head at the beginning of each mbuf, and lends the bytes after the head and
//! the bytes of the clusters. It doesn't track which mbufs and clusters are in use.
#![tactic(auto)]

mod block;
mod head;
mod layout;
mod memory;
mod part;
mod region;

pub use head::{Change, Head, PacketHeader};
pub use part::{Buffer, Part};
pub use region::Region;
