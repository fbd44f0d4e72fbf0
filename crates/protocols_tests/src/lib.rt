//! Calls of the layers below the stack on real memory, with results worked out by hand. They use only the contracts of
//! these crates, so they are checked separately.
#![tactic(auto)]

#[cfg(test)]
mod checksums;
#[cfg(test)]
mod needs;
#[cfg(test)]
mod pool;
#[cfg(test)]
mod reassembly;
#[cfg(test)]
mod socket_calls;
