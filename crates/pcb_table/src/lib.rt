//! The control blocks of a machine's sockets (volume 2 chapter 22): which socket receives a packet, which port is free,
//! and what bind and connect refuse.
//!
//! A contract sees a table as its list of blocks, youngest first, and says that each call is the step of the flat
//! machine, for every rest of that machine. No clause mentions the cache of the last connection.
#![tactic(auto)]

mod block;
mod blocks;
mod interface;
mod ports;
mod refusals;
mod search;
mod table;

pub use block::Block;
pub use table::{Pcbs, SOCKETS};
