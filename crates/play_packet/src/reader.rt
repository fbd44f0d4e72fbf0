//! The reader of lines, whether or not they describe a packet.
ghost use Rattle.std.specs.Prelude.{◌≡◌};
ghost use Rattle.play_line.specs.Line.{expanded, now_or, IsShort};
ghost use Rattle.play_packet.specs.Builds.{named};
ghost use Rattle.play_packet.specs.Reads.{plain_or};

use crate::build::{Builder, PACKET};
use crate::places::payload_of;
use crate::words::place_in;
use play_line::{Reader, SyntaxError};
use script_loop::Buffer;
use std::alloc::{AllocError, Global};

/// Reads lines. It has all the memory for that.
#[derive(Drop)]
pub struct LineReader {
    reader: Reader,
    builder: Builder,
}

impl LineReader {
    /// Creates a reader with its memory.
    ///
    /// # Errors
    ///
    /// If the host refuses memory.
    pub fn new(alloc: Global) -> Result<LineReader, AllocError> {
        Ok(LineReader {
            reader: Reader::new(alloc)?,
            builder: Builder::new(alloc)?,
        })
    }

    /// Expands a line to its plain line, as a [`Reader`] does. If the line describes a packet, the plain line still
    /// contains the description.
    ///
    /// # Errors
    ///
    /// The error in the bytes of the line, with its column.
    pub fn plain_line(&mut self, line: &[u8]) -> Result<&[u8], SyntaxError>
        ensures is { now_or result ≡ expanded line.now }
        ensures short { IsShort result }
    {
        self.reader.plain_line(line)
    }

    /// Writes the packet that some words describe into a buffer, and returns whether they describe one. The words are
    /// those of the plain line of `line`. If they don't describe a packet, they are a request of another kind.
    ///
    /// # Errors
    ///
    /// The error in the words, with its column in `line`.
    pub fn put_packet(
        &mut self,
        line: &[u8],
        words: &[u8],
        packet: &mut Buffer<PACKET>,
    ) -> Result<bool, SyntaxError>
        ensures { plain_or words.now result packet.new ≡ named line.now words.now }
    {
        let Some(payload) = payload_of(words) else {
            return Ok(false);
        };
        match self.builder.build(payload, words, packet) {
            Ok(()) => Ok(true),
            Err(misfit) => Err(SyntaxError {
                fault: misfit.fault,
                column: self.reader.column_of(line, place_in(words, misfit.place)),
            }),
        }
    }
}
