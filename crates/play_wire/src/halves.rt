//! Calls on a segment for hosts with and without a link.
ghost use Rattle.segment.specs.Inside.{view};
ghost use Rattle.play_wire.specs.Acts.{AreLedTo};

use crate::log::Log;
use flat_model::Config;
use segment::{JoinFault, Link, Segment};
use std::alloc::Global;

/// Lets a host join, on an Ethernet if it has a link.
pub(crate) fn join(
    segment: &mut Segment,
    alloc: Global,
    config: Config,
    link: Option<Link>,
) -> Result<(), JoinFault>
    ensures { AreLedTo (view segment.old) (view segment.new) }
{
    match link {
        Some(link) => segment.join_ether(alloc, config, link),
        None => segment.join(alloc, config),
    }
}

/// Sends what waits for the links onto the wire, and logs it.
pub(crate) fn collect(segment: &mut Segment, log: &mut Log)
    ensures { AreLedTo (view segment.old) (view segment.new) }
{
    if segment.is_ether() {
        segment.collect_frames_watched(log);
    } else {
        segment.collect_watched(log);
    }
}

/// Delivers what is due, and logs it.
pub(crate) fn deliver(segment: &mut Segment, log: &mut Log)
    ensures { AreLedTo (view segment.old) (view segment.new) }
{
    if segment.is_ether() {
        segment.deliver_frames_watched(log);
    } else {
        segment.deliver_watched(log);
    }
}
