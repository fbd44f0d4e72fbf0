//! The reference machine: the behaviour that a datagram stack must have. It works on flat byte strings with weights,
//! without buffers, links or places. `specs/` contains its definitions. This crate contains the plain types that the
//! definitions share with the code, and the laws about them.
#![tactic(auto)]

mod address;
mod checksum;
mod config;
mod counter;
mod counters;
mod errno;
mod fate;
mod fragment_key;
mod lookup_key;
mod need;
mod option;
mod theorems;
mod usage;

pub use address::Addr;
pub use checksum::{fold, fold_law};
pub use config::{Config, ConfigFault};
pub use counter::Counter;
pub use counters::{Counters, Why};
pub use errno::{Errno, Lack};
pub use fate::{Fate, Reached};
pub use fragment_key::FragmentKey;
pub use lookup_key::LookupKey;
pub use need::Need;
pub use option::Opt;
pub use theorems::{
    accounts_balance, cuts_join, exact_is_loose, fates_are_steps, keys_are_whole, leads_on,
    limits_are_unset, printed_is_run, sends_are_numbered, sockets_are_isolated,
    states_are_consistent, ticks_settle,
};
pub use usage::Mbstat;
