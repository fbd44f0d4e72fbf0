//! The sizes of the texts that a player prints.
use crate::outcome::REPLY_LINE;
use play_line::LONGEST;
use play_show::SHOWN;
use script_loop::HELD;

/// The most bytes of a script's name that are printed.
pub const NAME: usize = 4096;

/// The size of the output buffer: for the longest text of a line, six bytes for each byte in JSON, after `HELD` bytes.
pub const OUTPUT: usize = HELD + 6 * (NAME + 2 * LONGEST + REPLY_LINE + SHOWN) + 716;
