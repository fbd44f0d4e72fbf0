//! Lines in the syntax of play scripts: instead of hexadecimal digits they may contain texts, repeated bytes and
//! patterns. A reader expands them to plain lines, or returns the syntax error and its column.
#![tactic(auto)]

mod bytes;
mod fault;
mod line;
mod part;
mod shown;
mod time;

pub use fault::{Fault, SyntaxError};
pub use line::{LONGEST, Reader};
pub use shown::put_shown;
pub use time::{Timed, read_time};
