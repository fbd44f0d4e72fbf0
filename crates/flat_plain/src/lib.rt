//! The definitions of `flat_model` that compute, as small programs over slices and vectors.
//!
//! Each program is proved to compute its definition, and is slow on purpose. The tests here run them on values from
//! outside sources, and the tests of `pcb_compare` compare the results of a control block table with theirs. They are
//! separate from `flat_model` so that every other crate is checked over a base of only definitions and laws.
#![tactic(auto)]

mod headers;
mod lookup;
mod maps;
mod needs;
mod parts;
mod pools;
mod ports;
mod queues;
mod rooms;
mod sums;
mod weights;

pub use headers::{
    Head, head_fault, head_of, not_zero, packet, pseudo_header, put_u16, put_u32, u16_at, u32_at,
    udp, udp_fault,
};
pub use lookup::{Pcb, best, exact, matches, receivers, score};
pub use maps::{Cell, Fragment, is_covered, overlay, whole};
pub use needs::{Buffers, need, need_bcast};
pub use parts::{Part, cuts};
pub use pools::usage;
pub use ports::next_port;
pub use queues::{Waiting, fits};
pub use rooms::{Room, meets, sent, user, wire};
pub use sums::checksum;
pub use weights::{Entry, Weight, later_weight, pulled_up, weight_of_pieces};
