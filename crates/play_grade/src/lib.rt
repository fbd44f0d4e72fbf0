//! Comparing hand-ins with a key. For each expectation in the key and each answer to a question, the hand-in's is
//! compared with it. Lines without an expectation are found too.
#![tactic(auto)]

mod answers;
mod asked;
mod blank;
mod lack;
mod lines;
mod marker;
mod marks;
mod read;
mod verdict;

pub use lines::first_line;
pub use marker::Marker;
pub use marks::{Mark, Marks};
pub use verdict::Verdict;
