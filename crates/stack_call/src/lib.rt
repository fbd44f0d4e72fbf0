//! One function for all calls to a stack. It takes a request and returns a reply of the reference machine.
#![tactic(auto)]

mod calls;

pub use calls::call;
