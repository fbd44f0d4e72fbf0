//! Lines that describe a packet, and the UDP datagram in it, in words. A reader writes its bytes into
//! a buffer, or returns the error in the words and its column.
#![tactic(auto)]

mod build;
mod ends;
mod form;
mod laws;
mod mark;
mod numbers;
mod places;
mod reader;
mod words;

pub use build::PACKET;
pub use laws::{own_packet_law, wrong_sum_law};
pub use reader::LineReader;
