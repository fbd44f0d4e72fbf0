//! IP output: headers, fragments, and what they need.
#![tactic(auto)]

mod bytes;
mod fragments;
mod head;
mod needs;
mod queue;
mod sending;
mod waiting;
mod ways;

pub use bytes::{put_u16, put_u32, u16_at, u32_at};
pub use head::{
    DONT_FRAGMENT, Headed, IpHead, MAX_OFFSET, VERSION_AND_LENGTH, read_head, read_packet,
    write_head,
};
pub use needs::{need, need_bcast};
pub use queue::Queue;
pub use sending::{Sent, output};
pub use ways::{Packets, Way, make_packets};
