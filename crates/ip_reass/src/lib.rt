//! Reassembly of IP datagrams, as 4.4BSD does it (`ip_reass` of TCP/IP Illustrated, volume 2, chapter 10; RFC 791,
//! section 3.2): the table of unfinished datagrams, the arrival of a fragment, and the clock that drops datagrams after
//! their time.
//!
//! Each contract is a step of the flat machine, whatever the rest of the machine is. README.md explains the words.
#![tactic(auto)]

mod arrival;
mod arrive;
mod at_once;
mod datagram;
mod expiring;
mod index;
mod insert;
mod place;
mod questions;
mod queue;
mod span;
mod table;

pub use arrival::Arrival;
pub use at_once::{fits_at_once, is_sound};
pub use datagram::Datagram;
pub use expiring::Expired;
pub use questions::{HeldRange, UnfinishedDatagram};
pub use table::Reass;
