//! UDP over chains of mbufs (RFC 768; TCP/IP Illustrated volume 2, chapter 23): the header of a datagram that is sent,
//! and the sockets that receive one.
//!
//! A contract sees a datagram as the string of its chain. The string that is sent is the one of the definitions. For a
//! received datagram it says, in the words of the definitions: its first fault, the sockets that match, and the bytes
//! that they receive.
#![tactic(auto)]

mod arrival;
mod checked;
mod departure;
mod header;

pub use arrival::{Outcome, input};
pub use checked::{Checked, is_broadcast, matching_sockets, no_port, read};
pub use departure::{build, header_for};
pub use header::check;
