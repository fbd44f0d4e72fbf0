//! The loop that reads a script and replies to it line by line, and the parts of the lines of every script: words,
//! numbers, and bytes in hexadecimal digits. The trait [`Answers`] is implemented by what replies to a line.
#![tactic(auto)]

mod answers;
mod buffer;
mod fault;
mod line_buffers;
mod serve;
mod streams;
mod text;
mod words;

pub use answers::Answers;
pub use buffer::Buffer;
pub use fault::RunFault;
pub use line_buffers::LineBuffers;
pub use serve::{HELD, limits, serve_script};
pub use streams::{Silent, Sink, Source};
pub use text::{put_hex, put_number};
pub use words::{bytes, first_word, is_end, number, one, three, two};
