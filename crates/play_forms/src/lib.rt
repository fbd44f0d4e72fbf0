//! The forms of all lines of a play script; and for a line that has none of them, what its author probably meant: which
//! word is wrong, how the line is written, and which command is nearest.
#![tactic(auto)]

mod advice;
mod argument;
mod command;
mod hosted;
mod nearest;
mod text;

pub use advice::{Advice, Player, advice_on, command_of};
pub use command::{Command, Row, host_commands, wire_commands};
pub use text::{ADVICE, put_advice};
