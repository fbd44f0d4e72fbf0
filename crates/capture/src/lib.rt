//! Capture files, classic ([`pcap`]) and pcapng ([`pcapng`]), read record by record from a stream: the first bytes say
//! which format it is. One buffer holds the record that was read last, so a file may be of any length.
#![tactic(auto)]

mod blocks;
mod classic;
mod fault;
mod feed;
pub mod pcap;
pub mod pcapng;
mod records;
mod section;
mod time;

pub use fault::{Fault, Why};
pub use feed::LONGEST_RECORD;
pub use records::{Record, Records};
