//! The pool's accounts compared with those of the flat machine: what chains weigh, when a pool holds what a state
//! weighs, and the one function that tests the pool, frees the unfinished datagrams and tests again.
//!
//! The flat machine counts its buffers by weights, the pool by its chains. `specs/Accounts` says when the two agree,
//! and `proofs/Laws` how a step keeps that: it needs only the weights of the chains that the step touched, so no proof
//! sums over all owners.
#![tactic(auto)]

mod reservation;
mod usage;
mod waiting;

pub use reservation::{are_free, reserve};
pub use usage::mbstat;
pub use waiting::Waiting;
