//! Tests of the definitions, and of the programs that compute them, with values from outside. They use only the
//! contracts of these crates, so they are checked separately.
#![tactic(auto)]

#[cfg(test)]
mod definitions;
#[cfg(test)]
mod programs;
