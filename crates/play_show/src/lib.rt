//! The queries `show ..` of a play script: a machine's sockets, unfinished datagrams, output queue, counters and pool,
//! as text; and what an event changed, by snapshots of the machine before and after it.
#![tactic(auto)]

mod changes;
mod counters;
mod shown_law;
mod snapshot;
mod sockets;
mod topic;
mod topic_text;
mod unfinished;

pub use changes::{Change, Effect, effect_of, put_changes};
pub use shown_law::looks_law;
pub use snapshot::{Snapshot, snapshot_of};
pub use topic::{Topic, topic_of};
pub use topic_text::write_topic;

/// The size of a buffer for the text of a query, or for what an event changed.
pub const SHOWN: usize = 32_768;
