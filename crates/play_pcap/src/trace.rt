//! The capture of a run, which is written as packets arrive and leave.
ghost use Rattle.std.specs.Prelude.{◌≡◌, ◌≤◌, ◌+◌, length};
ghost use Rattle.params.specs.declared.TheConstants.{IP_MAX_PACKET};
ghost use Rattle.capture.specs.File.{file_header_bytes, header_for, our_header};
ghost use Rattle.play_pcap.specs.Traces.{Keeps, Sent, later, pass_at, pass_bytes, unwritten};

use capture::pcap::{LinkType, file_header, record_header};
use script_loop::{Buffer, Sink};
use std::io::{self, Write};
use std::marker::Model;

/// The size of a buffer for the record of a packet or a frame.
pub const RECORD: usize = 65_551;

/// The most microseconds that a line counts.
const MOST_LINES: u64 = 499_999;

/// A capture file that is written as packets pass, in classic format with link type IPV4. The time of a packet is half
/// a second for each tick before it, and a microsecond for each line of the script up to its own, 499,999 at most. It
/// must be ended by `end`.
pub struct Trace<W: Sink> {
    sink: W,
    buffer: Buffer<RECORD>,
    ticks: u32,
    whole: bool,
}

impl<W: Sink> Model for Trace<W> {
    ghost use Rattle.play_pcap.specs.Traces.{Traced};

    ghost Value = { Traced };

    ghost view = { λ t. record { ticks = t.ticks; whole = t.whole; wrote = W.contents t.sink } };
}

/// Writes all bytes, and returns whether it did. It stops at an error, or at a write of no bytes.
pub(crate) fn send<W: Sink>(writer: &mut W, bytes: &[u8]) -> bool
    ensures { Sent result (W.contents writer.old) (W.contents writer.new) bytes.now }
{
    let mut rest = bytes;
    while !rest.is_empty() {
        match writer.write_some(rest) {
            Ok(0) | Err(_) => return false,
            Ok(n) => rest = &rest[n..],
        }
    }
    true
}

/// Writes the record of a packet into a buffer.
fn put_record(out: &mut Buffer<RECORD>, ticks: u32, line: u64, packet: &[u8])
    requires { length packet.now ≤ IP_MAX_PACKET }
    ensures { out.new ≡ pass_bytes (pass_at ticks line packet.now) }
{
    let microseconds = ticks % 2 * 500_000 + line.min(MOST_LINES) as u32;
    let header = record_header(ticks / 2, microseconds, packet.len() as u32);
    out.clear();
    out.append(&header);
    out.append(packet);
}

impl<W: Sink> Trace<W> {
    /// Begins a capture, without a header so far.
    pub(crate) fn unheaded(sink: W, buffer: Buffer<RECORD>) -> Trace<W>
        ensures { result ≡ unwritten (W.contents sink) }
    {
        Trace {
            sink,
            buffer,
            ticks: 0,
            whole: true,
        }
    }

    /// Writes the header of a file of this link type.
    pub(crate) fn head(&mut self, link: LinkType)
        ensures ticks { self.new.ticks ≡ self.old.ticks }
        ensures kept { Keeps self.old self.new (file_header_bytes (header_for link)) }
    {
        if self.whole {
            self.whole = send(&mut self.sink, &file_header(link));
        }
    }

    /// Begins a capture of IPv4 packets: writes the header of its file.
    pub fn begin(sink: W, buffer: Buffer<RECORD>) -> Trace<W>
        ensures ticks { result.ticks ≡ 0 }
        ensures kept { Keeps (unwritten (W.contents sink)) result (file_header_bytes our_header) }
    {
        let mut trace = Trace::unheaded(sink, buffer);
        trace.head(LinkType::Ipv4);
        trace
    }

    /// A packet passes, by the line of this number: its record is written. If that fails, nothing more is written.
    pub fn keep(&mut self, line: u64, packet: &[u8])
        requires { length packet.now ≤ IP_MAX_PACKET }
        ensures ticks { self.new.ticks ≡ self.old.ticks }
        ensures kept { Keeps self.old self.new (pass_bytes (pass_at self.old.ticks line packet.now)) }
    {
        if !self.whole {
            return;
        }
        put_record(&mut self.buffer, self.ticks, line, packet);
        self.whole = send(&mut self.sink, self.buffer.as_slice());
    }

    /// A tick passes. More than 4,294,967,295 of them aren't counted.
    pub fn tick(&mut self)
        ensures ticks { self.new.ticks ≡ later self.old.ticks }
        ensures whole { self.new.whole ≡ self.old.whole }
        ensures wrote { self.new.wrote ≡ self.old.wrote }
    {
        self.ticks = self.ticks.saturating_add(1);
    }

    /// Returns whether all records so far were written whole.
    pub fn is_whole(&self) -> bool
        ensures { result ≡ self.now.whole }
    {
        self.whole
    }

    /// Ends the capture, and returns the writer.
    pub fn end(self) -> W
        ensures { W.contents result ≡ self.wrote }
    {
        let Trace {
            sink,
            buffer: _buffer,
            ticks: _ticks,
            whole: _whole,
        } = self;
        sink
    }
}

/// A writer that accepts all bytes and discards them.
#[derive(Drop)]
pub struct Nowhere;

impl Write for Nowhere {
    fn write(&mut self, buf: &[u8]) -> io::Result<usize> {
        Ok(buf.len())
    }

    fn flush(&mut self) -> io::Result<()> {
        Ok(())
    }
}

impl Sink for Nowhere {
    fn write_some(&mut self, buf: &[u8]) -> io::Result<usize> {
        Ok(buf.len())
    }
}
