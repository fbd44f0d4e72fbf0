//! The capture of a wire. Its link type, for packets or for frames, is chosen when the first one passes.
ghost use Rattle.std.specs.Prelude.{◌≡◌, ◌≤◌, ◌++◌, true, false, length, if◌then◌else◌};
ghost use Rattle.params.specs.declared.TheConstants.{IP_MAX_PACKET};
ghost use Rattle.capture.specs.declared.pcap.link_type.LinkType.{LinkType};
ghost use Rattle.play_pcap.specs.Traces.{Keeps, header_due, later, pass_at, pass_bytes, unwritten};

use crate::trace::{RECORD, Trace};
use capture::pcap::LinkType;
use script_loop::{Buffer, Sink};
use std::marker::Model;

/// A capture file as [`Trace`] writes it, whose link type may be set until something passes: `Ipv4` for packets,
/// `Ethernet` for frames. So its header is written with the first packet or frame, or at the end if none passed. It
/// must be ended by `end`.
pub struct WireTrace<W: Sink> {
    trace: Trace<W>,
    link: LinkType,
    headed: bool,
}

impl<W: Sink> Model for WireTrace<W> {
    ghost use Rattle.play_pcap.specs.Traces.{WireTraced};

    ghost Value = { WireTraced };

    ghost view = { λ t. record { traced = t.trace; link = t.link; headed = t.headed } };
}

impl<W: Sink> WireTrace<W> {
    /// Begins a capture with this link type; nothing is written yet.
    pub fn begin(link: LinkType, sink: W, buffer: Buffer<RECORD>) -> WireTrace<W>
        ensures { result ≡ record { traced = unwritten (W.contents sink); link = link; headed = false } }
    {
        WireTrace {
            trace: Trace::unheaded(sink, buffer),
            link,
            headed: false,
        }
    }

    /// Changes the link type. After the first packet or frame it has no effect.
    pub fn choose(&mut self, link: LinkType)
        ensures { self.new ≡ record self.old { link = if self.old.headed then self.old.link else link } }
    {
        if !self.headed {
            self.link = link;
        }
    }

    /// Writes the header, if it wasn't written yet.
    fn head(&mut self)
        ensures kept { Keeps self.old.traced self.new.traced (header_due self.old) }
        ensures ticks { self.new.traced.ticks ≡ self.old.traced.ticks }
        ensures link { self.new.link ≡ self.old.link }
        ensures headed { self.new.headed ≡ true }
    {
        if self.headed {
            return;
        }
        self.trace.head(self.link);
        self.headed = true;
    }

    /// Records that a packet or a frame passes, by the line of this number; before the first one it writes the header.
    /// If writing fails, nothing more is written.
    pub fn keep(&mut self, line: u64, bytes: &[u8])
        requires { length bytes.now ≤ IP_MAX_PACKET }
        ensures kept { Keeps self.old.traced self.new.traced
            (header_due self.old ++ pass_bytes (pass_at self.old.traced.ticks line bytes.now)) }
        ensures ticks { self.new.traced.ticks ≡ self.old.traced.ticks }
        ensures link { self.new.link ≡ self.old.link }
        ensures headed { self.new.headed ≡ true }
    {
        self.head();
        self.trace.keep(line, bytes);
    }

    /// A tick passes, as for [`Trace::tick`].
    pub fn tick(&mut self)
        ensures { self.new ≡ record self.old
            { traced = record self.old.traced { ticks = later self.old.traced.ticks } } }
    {
        self.trace.tick();
    }

    /// Returns whether all that passed so far was written whole.
    pub fn is_whole(&self) -> bool
        ensures { result ≡ self.now.traced.whole }
    {
        self.trace.is_whole()
    }

    /// Ends the capture: writes the header if nothing has passed, and returns the writer, and whether the whole
    /// file was written.
    pub fn end(mut self) -> (W, bool)
        ensures { Keeps self.traced (record self.traced { whole = result.1; wrote = W.contents result.0 })
            (header_due self) }
    {
        self.head();
        let WireTrace {
            trace,
            link: _link,
            headed: _headed,
        } = self;
        let whole = trace.is_whole();
        (trace.end(), whole)
    }
}
