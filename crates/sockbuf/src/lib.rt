//! The receive queue of a socket: datagrams that the program hasn't read yet, with their senders, and the limits of
//! TCP/IP Illustrated, volume 2, chapter 16.
//!
//! A datagram is a chain with one more mbuf before it, which contains the sender's address. The queue itself takes no
//! memory: its chains are linked through their own mbufs.
#![tactic(auto)]

mod address;
mod buffer;
mod measure;

pub use buffer::{Refusal, SockBuf};
pub use measure::memory_of;
