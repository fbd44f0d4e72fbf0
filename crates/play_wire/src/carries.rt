//! Carrying what waits for the links.
ghost use Rattle.segment.specs.Inside.{view};
ghost use Rattle.play_wire.specs.Acts.{AreLedTo};

use crate::capture_out::{Capture, collect};
use crate::halves::deliver;
use crate::log::Log;
use crate::names::NAME;
use script_loop::{Buffer, Sink};
use segment::Segment;

/// How many carries a line requests.
#[derive(Clone, Copy)]
pub(crate) enum Bound {
    /// This many.
    Times(u32),
    /// Until nothing is left, and at most this many.
    Quiet(u32),
}

/// Carries this often, and logs what happens to each packet. Hosts on an Ethernet transmit before the first carry and
/// again after each one, so that it's known whether anything is left.
pub(crate) fn carry<T: Sink + Drop>(
    segment: &mut Segment,
    bound: Bound,
    capture: &mut Capture<T>,
    names: &[Buffer<NAME>],
    log: &mut Log,
)
    ensures { AreLedTo (view segment.old) (view segment.new) }
{
    let (most, ends_early) = match bound {
        Bound::Times(count) => (count, false),
        Bound::Quiet(most) => (most, true),
    };
    settle(segment, capture, names, log);
    for _ in 0..most {
        if ends_early && segment.is_quiet() {
            return;
        }
        carry_once(segment, capture, names, log);
    }
}

/// Sends what waits for the links onto the wire, and logs what is lost or duplicated.
pub(crate) fn send<T: Sink + Drop>(
    segment: &mut Segment,
    capture: &mut Capture<T>,
    names: &[Buffer<NAME>],
    log: &mut Log,
)
    ensures { AreLedTo (view segment.old) (view segment.new) }
{
    collect(capture, segment, log);
    log.report_packets(names, segment.is_ether());
}

/// Lets the hosts on an Ethernet transmit.
fn settle<T: Sink + Drop>(
    segment: &mut Segment,
    capture: &mut Capture<T>,
    names: &[Buffer<NAME>],
    log: &mut Log,
)
    ensures { AreLedTo (view segment.old) (view segment.new) }
{
    if segment.is_ether() {
        send(segment, capture, names, log);
    }
}

/// Delivers what is due, and logs it.
pub(crate) fn bring(segment: &mut Segment, names: &[Buffer<NAME>], log: &mut Log)
    ensures { AreLedTo (view segment.old) (view segment.new) }
{
    deliver(segment, log);
    log.report_packets(names, segment.is_ether());
}

/// Carries once.
fn carry_once<T: Sink + Drop>(
    segment: &mut Segment,
    capture: &mut Capture<T>,
    names: &[Buffer<NAME>],
    log: &mut Log,
)
    ensures { AreLedTo (view segment.old) (view segment.new) }
{
    send(segment, capture, names, log);
    bring(segment, names, log);
    settle(segment, capture, names, log);
}
