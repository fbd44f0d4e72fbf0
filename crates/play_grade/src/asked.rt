//! A line that was read, with its plain line.
ghost use Rattle.std.specs.Prelude.{◌≡◌, ◌*◌, ◌++◌, ◌≤◌, length, vec_len};
ghost use Rattle.params.specs.declared.TheConstants.{IP_MAX_PACKET};
ghost use Rattle.play_grade.specs.Asked.{ticks_front};
ghost use Rattle.play_script.specs.Views.{plain_line};

use play_line::LONGEST;
use play_packet::PACKET;
use play_script::{Line, bytes_of, zero_bytes};
use script_loop::{Buffer, put_hex, put_number};
use std::alloc::{AllocError, Global};

/// The capacity for a plain line, with the ticks that pass before it.
const ASKED: usize = LONGEST + 12;

/// A line that was read, and the memory for it.
#[derive(Drop)]
pub(crate) struct Asked {
    pub(crate) line: Line,
    /// Its plain line, after the ticks that pass first. This includes lines that describe a packet.
    pub(crate) plain: Buffer<ASKED>,
    /// Scratch memory for the digits of a packet.
    digits: Vec<u8>,
    ghost digits_len: { vec_len digits ≡ 2 * IP_MAX_PACKET },
}

/// Writes the ticks that pass before a line into a buffer, followed by a space, if there are any.
fn put_front(plain: &mut Buffer<ASKED>, ticks: u32)
    ensures items { plain.new ≡ ticks_front ticks }
    ensures len { length plain.new ≤ 12 }
{
    plain.clear();
    if ticks != 0 {
        plain.append(b"+");
        put_number(plain, ticks);
        plain.append(b" ");
    }
}

impl Asked {
    /// Creates a value without a line.
    pub(crate) fn new(alloc: Global) -> Result<Asked, AllocError> {
        Ok(Asked {
            line: Line::new(alloc)?,
            plain: Buffer::new(alloc)?,
            digits: zero_bytes(alloc, 2 * PACKET)?,
        })
    }

    /// Sets `plain` to the ticks that pass first, followed by the plain line of the line.
    pub(crate) fn put_plain(&mut self, ticks: u32)
        ensures plain { self.new.plain ≡ ticks_front ticks ++ plain_line self.old.line }
        ensures line { self.new.line ≡ self.old.line }
    {
        put_front(&mut self.plain, ticks);
        if self.line.named {
            self.plain.append(b"rx ");
            put_hex(
                &mut self.plain,
                self.digits.as_mut_slice(),
                bytes_of(&self.line.packet),
            );
        } else {
            self.plain.append(bytes_of(&self.line.words));
        }
    }
}
