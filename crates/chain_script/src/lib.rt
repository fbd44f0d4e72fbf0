//! The script of chain calls: slots of chains over a pool, and what each line does with them.
#![tactic(auto)]

mod caller;
mod calls;
mod draw;
mod fault;
mod keyword;
mod laws;
mod line;
mod reply;
mod runs;
mod show;
mod slots;

pub use draw::draw_slot;
pub use laws::strings_law;
pub use mbuf_pool::Sizes;
pub use runs::run_chains;
pub use script_loop::{RunFault, Silent, Sink, Source};
