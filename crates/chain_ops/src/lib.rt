//! The operations of 4.4BSD on chains of mbufs (`m_copym`, `m_pullup` and others), over the pool of `mbuf_chain`. Each
//! uses only that crate's steps. Its contract says what the list of the chain's entries becomes; every other chain
//! stays as it is.
#![tactic(auto)]

mod adj;
mod cat;
mod copyback;
mod copydata;
mod copym;
mod cursor;
mod prepend;
mod pullup;
mod split;
mod step;
mod store;
pub mod theorems;

pub use adj::{m_adj, trim_back, trim_front};
pub use cat::{cat_after, m_cat};
pub use copyback::{is_writable, m_copyback};
pub use copydata::m_copydata;
pub use copym::{Extent, m_copym};
pub use cursor::{Cursor, advance, copy_at, cursor_at};
pub use prepend::m_prepend;
pub use pullup::{Refusal, m_pullup};
pub use split::m_split;
pub use store::{Space, from_user, from_wire, next_room, space_for, wire_need};
