//! pcapng capture files, the format that Wireshark writes (draft-ietf-opsawg-pcapng): blocks, and what those of
//! sections, interfaces and packets say.
//!
//! It doesn't depend on the stack, only on the link types of `pcap`.
mod block;
mod body;
mod fault;
mod laws;

pub use crate::pcap::{LinkType, Order};
pub use block::{BYTE_ORDER_MAGIC, Block, SECTION_HEADER, block_head, first_block};
pub use body::{EnhancedPacket, Interface, Section, SimplePacket};
pub use fault::{BodyFault, Fault, Why};
pub use laws::{blocks_are_read, heads_stay};
