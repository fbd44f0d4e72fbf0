//! What programs of `bench/` call from C: packets by size and fate, fragments that arrive, and checksums. Each export
//! repeats the same work a given number of times, so that a C program can time it. No other crate depends on this one.
#![tactic(auto)]

mod cksum;
mod packets;
mod reass;
