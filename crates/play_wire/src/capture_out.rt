//! The capture of the packets on the wire.
ghost use Rattle.segment.specs.Inside.{view};
ghost use Rattle.play_wire.specs.Acts.{AreLedTo};

use crate::halves;
use crate::log::Log;
use capture::pcap::LinkType;
use params::IP_MAX_PACKET;
use play_pcap::{RECORD, WireTrace};
use script_loop::{Buffer, Sink};
use segment::Segment;

/// A capture of the wire, and the number of the current line of the script.
pub(crate) struct Capture<T: Sink + Drop> {
    trace: WireTrace<T>,
    pub(crate) line: u64,
}

impl<T: Sink + Drop> Capture<T> {
    /// Returns a capture that is written to this sink, of packets until a host is on an Ethernet.
    pub(crate) fn begin(sink: T, buffer: Buffer<RECORD>) -> Capture<T> {
        Capture {
            trace: WireTrace::begin(LinkType::Ipv4, sink, buffer),
            line: 0,
        }
    }

    /// Sets the link type: frames if the hosts are on an Ethernet, otherwise packets. All hosts of a segment are of
    /// one kind.
    pub(crate) fn choose(&mut self, segment: &Segment) {
        self.trace.choose(if segment.is_ether() {
            LinkType::Ethernet
        } else {
            LinkType::Ipv4
        });
    }

    /// Lets this many ticks pass.
    pub(crate) fn tick(&mut self, count: u32) {
        for _ in 0..count {
            self.trace.tick();
        }
    }

    /// Records a packet or a frame. One of more than 65,535 bytes isn't recorded; no host sends one.
    fn keep(&mut self, bytes: &[u8]) {
        if bytes.len() <= IP_MAX_PACKET as usize {
            self.trace.keep(self.line, bytes);
        }
    }

    /// Records the packets or frames in flight, from an index on.
    fn keep_from(&mut self, segment: &Segment, first: usize) {
        for at in first..segment.flight_len() {
            if let Some(it) = segment.under_way(at) {
                self.keep(it.packet);
            }
        }
    }
}

/// Sends what waits for the links onto the wire, logs it, and records it.
pub(crate) fn collect<T: Sink + Drop>(
    capture: &mut Capture<T>,
    segment: &mut Segment,
    log: &mut Log,
)
    ensures { AreLedTo (view segment.old) (view segment.new) }
{
    let first = segment.flight_len();
    halves::collect(segment, log);
    capture.keep_from(segment, first);
}

/// Ends the capture, and returns whether all of it was written.
pub(crate) fn end<T: Sink + Drop>(capture: Capture<T>) -> bool {
    let Capture { trace, line: _ } = capture;
    let (_sink, whole) = trace.end();
    whole
}
