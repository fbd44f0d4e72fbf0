//! The stack: sockets, reassembly and output over one pool.
#![tactic(auto)]

mod arrive;
mod calls;
mod host;
mod laws;
mod peek;
mod questions;
mod receive;
mod send;
mod stack;
mod traffic;
mod transmit;

pub use flat_model::{Config, Counters, Fate, Mbstat, Reached};
pub use ip_reass::{Expired, HeldRange, UnfinishedDatagram};
pub use laws::{
    calls_are_run, stacks_isolate_sockets, stacks_on_a_wire, stacks_on_a_wire_for_ever,
};
pub use questions::Holder;
pub use sock_calls::{NextDatagram, SocketName};
pub use stack::{BootFault, Stack};
