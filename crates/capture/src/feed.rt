//! A stream of bytes, read in pieces of the size that the caller needs.
ghost use Rattle.std.specs.Prelude.{◌≡◌, ◌<◌, ◌≤◌, length, IfErr, OnOk};
ghost use Rattle.std.specs.Io.KnownBytes.{IsAtEnd};
ghost use Rattle.capture.specs.Feeds.{Fills};
ghost use Rattle.capture.specs.declared.fault.Why.TheVariants.{NotRead};

use crate::fault::{FaultAt, Why};
use script_loop::{Buffer, Source};

/// The most bytes of a record, with its header, and of a pcapng block.
pub const LONGEST_RECORD: usize = 1_048_576;

/// How many bytes are read at a time.
const CHUNK: usize = 4096;

/// A stream, and the buffer for what is read from it.
pub(crate) struct Feed<S: Source> {
    pub(crate) source: S,
    pub(crate) buffer: Buffer<LONGEST_RECORD>,
}

impl<S: Source> Feed<S> {
    /// Reads until the buffer holds `goal` bytes or the stream ends. Fails with `NotRead` if the source fails.
    pub(crate) fn fill(&mut self, goal: usize) -> Result<(), FaultAt>
        requires begun { length self.old.buffer ≤ goal }
        requires buffer { goal ≤ LONGEST_RECORD }
        ensures read { Fills (S.remaining self.old.source) self.old.buffer (S.remaining self.new.source)
            self.new.buffer }
        ensures refused { IfErr result (λ s. s.why ≡ NotRead) }
        ensures most { length self.new.buffer ≤ goal }
        ensures ended { OnOk result (length self.new.buffer < goal → IsAtEnd (S.remaining self.new.source)) }
    {
        let mut chunk = [0; CHUNK];
        'chunks: while self.buffer.len() < goal {
            let want = (goal - self.buffer.len()).min(CHUNK);
            let Ok(n) = self.source.read_some(&mut chunk[..want]) else {
                return Err(FaultAt {
                    why: Why::NotRead,
                    at: self.buffer.len(),
                });
            };
            if n == 0 {
                return Ok(());
            }
            self.buffer.append(&chunk[..n]);
        }
        Ok(())
    }
}
