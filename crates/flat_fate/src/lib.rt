//! What the fate of a packet says of the counters. Each law is a function that does nothing; its contract is the law.
#![tactic(auto)]

mod laws;

pub use laws::fates_are_counted;
