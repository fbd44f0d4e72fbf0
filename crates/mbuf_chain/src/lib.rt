//! Chains of mbufs that share clusters.
#![tactic(auto)]

mod cells;
mod chain;
mod data;
mod links;
mod mbuf_head;
mod pieces;
mod place;
mod pool;
mod queued_place;
mod reclaim;
mod train;
mod usage;

pub use chain::Chain;
pub use mbuf_head::MbufHead;
pub use pieces::{Entries, MbufHeads, Pieces};
pub use place::{Place, Segment};
pub use pool::Pool;
pub use queued_place::QueuedPlace;
pub use reclaim::Reclaim;
pub use train::Train;
pub use usage::Usage;
