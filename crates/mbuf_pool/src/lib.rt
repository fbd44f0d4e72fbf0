//! The pool of mbufs and clusters: which of them are free, and how many references each cluster has.
//!
//! A [`Store`] owns one region of raw memory. It hands out mbufs and clusters by number, and takes them back. Free
//! mbufs are linked by their `next`, free clusters by their first four bytes. So every call except `boot` and `counts`
//! takes O(1) steps, however large the pool is. Nothing is allocated after `boot`.
#![tactic(auto)]

mod counts;
mod fault;
mod link;
mod sizes;
mod store;

pub use counts::Counts;
pub use fault::{BootFault, NoBufs};
pub use raw_cells::{Buffer, Change, Head, PacketHeader, Part};
pub use sizes::Sizes;
pub use store::Store;
