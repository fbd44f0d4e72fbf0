//! Why packets of a capture were dropped: each arrives at a machine, and the verdict says what happened to it, with
//! both values if one is wrong.
#![tactic(auto)]

mod addresses;
mod blame;
mod delivered;
mod ends;
mod finding;
mod host;
mod joined;
mod judge;
mod key;
mod lacks;
mod layout;
mod listed;
mod object;
mod offload;
mod outcome;
mod parts;
mod ports;
mod refusals;
mod scratch;
mod seen;
mod sentences;
mod sums;
mod table;
mod values;
mod verdict;
mod words;

pub use addresses::{Addresses, Busiest};
pub use blame::Blame;
pub use ends::Ends;
pub use finding::Finding;
pub use judge::{Arrival, Judge, Others, broadcast_of};
pub use layout::Layout;
pub use offload::Card;
pub use outcome::Outcome;
pub use parts::Loss;
pub use refusals::{Refusal, Refusals, refusal_of};
pub use sums::{COVERED, pseudo_sum, right_header_sum, right_udp_sum};
pub use values::Value;
pub use verdict::Verdict;

/// The most bytes that are printed for a record.
pub const FATE: usize = 524_288;
