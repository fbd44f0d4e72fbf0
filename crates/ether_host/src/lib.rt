//! A stack on an Ethernet: frames in and out, ARP, and ICMP replies (TCP/IP Illustrated volume 2, chapters 4, 11 and
//! 21).
#![tactic(auto)]

mod answer;
mod arrival;
mod buffer;
mod bytes;
mod errors;
mod fragments;
mod frames;
mod halves;
mod host;
mod layer;
mod options;
mod own;
mod packets;
mod reply;
mod send;
mod share;
mod table;
mod tick;

pub use flat_ether::{AddressState, Link, LinkFault, Mac, Neighbour, NetFault, Tallies};
pub use host::{EtherFault, EtherHost};
pub use layer::LinkLayer;
