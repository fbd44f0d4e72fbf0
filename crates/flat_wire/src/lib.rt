//! What arrives over a wire that loses, repeats and reorders packets was sent with these bytes.
//!
//! This is stated by the law of overlays, about the fragments of one datagram, and by the law of two hosts. `specs/`
//! states them over the definitions of `flat_model`, and each is the contract of a function that does nothing.
#![tactic(auto)]

mod laws;

pub use laws::{
    age_law, conservation_law, overlay_order, pace_law, progress_law, queue_law, received_law,
    wire_law, wire_law_for_ever, wire_law_of_whole,
};
