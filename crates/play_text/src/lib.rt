//! What the players of scripts and the judge of captures print. The text of a line, with or without colours, or as a
//! line of JSON; packets in words, such as `udp 10.0.0.1:7 > 10.0.0.2:5000, 2 bytes, id 1`; and what happened to a
//! packet, by the machine's counters before and after it, with the causes in words, how often each occurred and in
//! which record first.
#![tactic(auto)]

mod bounded;
mod bytes;
mod colour;
mod count;
mod escape;
mod fate;
mod fault;
mod form;
mod frame;
mod law;
mod line;
mod packet;
mod piece;
mod table;
mod time;
mod words;

pub use bounded::{add, add_count, add_fate, add_frame, add_packet, add_table, add_time};
pub use bytes::ByteForm;
pub use count::Count;
pub use fate::{Fate, drops_between, fate_of, is_any, is_kept};
pub use fault::{put_error, put_fault};
pub use form::Form;
pub use frame::put_frame;
pub use law::read_back_law;
pub use line::{Outcome, put_outcome};
pub use packet::{put_kept, put_packet, put_whole};
pub use piece::{Piece, put, put_if};
pub use table::{Row, Table};
pub use time::put_time;
pub use words::{CAUSES, causes, rose, words_for};
