//! Readers and writers that can record how many errors they returned.
ghost use Rattle.std.specs.Prelude.{◌<◌, ℕ, length, Option, Some, None};
ghost use Rattle.std.specs.Io.{ReadsAtMost, WritesAtMost};
ghost use Rattle.std.specs.Io.KnownBytes.{ReadConsumes, WriteAppends};
ghost use Rattle.script_loop.specs.Streams.{MoreBy, Sends, read_failures, write_failures, writer_failures};

use crate::fault::RunFault;
use std::io::{self, Read, Write};

/// A reader that can record how many errors it has returned.
pub trait Source: Read {
    ghost failures: { Self → Option ℕ } = { λ _. None };

    /// Reads as `read` does, and counts an error.
    fn read_some(&mut self, buf: &mut [u8]) -> io::Result<usize>
        ensures bound { ReadsAtMost result buf.new }
        ensures bytes { ReadConsumes (Self.remaining self.old) (Self.remaining self.new) result buf.new }
        ensures count { MoreBy (read_failures result) (failures self.old) (failures self.new) };
}

/// A writer that can record how often it has failed: by an error, or by accepting none of the bytes.
pub trait Sink: Write {
    ghost failures: { Self → Option ℕ } = { λ _. None };

    /// Writes some bytes as `write` does, and counts a failure.
    fn write_some(&mut self, buf: &[u8]) -> io::Result<usize>
        requires { 0 < length buf.now }
        ensures bound { WritesAtMost result buf.now }
        ensures bytes { WriteAppends (Self.contents self.old) (Self.contents self.new) result buf.now }
        ensures count { MoreBy (write_failures result) (failures self.old) (failures self.new) };
}

/// Writes all the bytes. It stops at an error, or at a write of no bytes.
pub fn send<W: Sink>(writer: &mut W, bytes: &[u8]) -> Result<(), RunFault>
    ensures sent { Sends (W.contents writer.old) (W.contents writer.new) bytes.now result }
    ensures counted { MoreBy (writer_failures result) (W.failures writer.old) (W.failures writer.new) }
{
    let mut rest = bytes;
    while !rest.is_empty() {
        match writer.write_some(rest) {
            Ok(0) | Err(_) => return Err(RunFault::Write),
            Ok(n) => rest = &rest[n..],
        }
    }
    Ok(())
}

/// A stream as it is, which doesn't record its failures.
#[derive(Drop)]
pub struct Silent<T>(pub T);

impl<R: Read> Read for Silent<R> {
    ghost remaining = { λ s. R.remaining s.0 };

    fn read(&mut self, buf: &mut [u8]) -> io::Result<usize> {
        self.0.read(buf)
    }
}

impl<R: Read> Source for Silent<R> {
    fn read_some(&mut self, buf: &mut [u8]) -> io::Result<usize> {
        self.0.read(buf)
    }
}

impl<W: Write> Write for Silent<W> {
    ghost contents = { λ s. W.contents s.0 };

    fn write(&mut self, buf: &[u8]) -> io::Result<usize> {
        self.0.write(buf)
    }

    fn flush(&mut self) -> io::Result<()> {
        self.0.flush()
    }
}

impl<W: Write> Sink for Silent<W> {
    fn write_some(&mut self, buf: &[u8]) -> io::Result<usize> {
        self.0.write(buf)
    }
}

/// Bytes in memory never fail.
impl Source for &[u8] {
    ghost failures = { λ _. Some 0 };

    fn read_some(&mut self, buf: &mut [u8]) -> io::Result<usize> {
        self.read(buf)
    }
}

impl Sink for Vec<u8> {
    fn write_some(&mut self, buf: &[u8]) -> io::Result<usize> {
        self.write(buf)
    }
}
