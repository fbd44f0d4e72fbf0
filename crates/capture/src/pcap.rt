//! Classic capture files, the format that tcpdump writes (pcap-savefile(5), draft-ietf-opsawg-pcap): their headers, a
//! reader, and the IPv4 packet in a frame of each link type that the reader knows.
//!
//! It doesn't depend on the stack.
mod fault;
mod header;
mod laws;
mod link;
mod link_type;
mod numbers;
mod reader;
mod writer;

pub use fault::{Fault, ReadError, Why};
pub use header::{Header, Order, Resolution};
pub use laws::{frames_hold_packets, headers_are_read, one_reading, written_is_read};
pub use link::{NoPacket, ipv4_packet};
pub use link_type::LinkType;
pub use numbers::{first_u32, u16_at, u32_at};
pub use reader::{Capture, Reader, Record, captured_len, first_record, read};
pub use writer::{LONGEST_PACKET, file_header, record_header};
