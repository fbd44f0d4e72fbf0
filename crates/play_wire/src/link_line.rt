//! The lines of one host that its link executes.
ghost use Rattle.std.specs.Prelude.{◌≡◌, ◌≤◌, MatchOption, length, is_some, true, slice_get};
ghost use Rattle.params.specs.declared.TheConstants.{IP_MAX_PACKET};
ghost use Rattle.segment.specs.Inside.{view};
ghost use Rattle.play_wire.specs.Inside.{HasCounted, HasNotCounted, IsAtLink, outcome_of, link_asked, bytes_asked};
ghost use Rattle.play_wire.specs.Links as links;

use crate::fault::Fault;
use crate::link_ask::LinkAsk;
use crate::report_link::{Counts, report_error, report_frame, report_link, report_neighbours};
use crate::spare::Counting;
use crate::summary::counters_at;
use crate::ticks::tick_linked;
use net_stack::Stack;
use play_script::Report;
use segment::Segment;

/// Returns the counters of the host at a place and of its link. Nothing changes. `None` if there is no such host with a
/// link.
fn counts_at(segment: &mut Segment, spare: &mut Stack, place: usize) -> Option<Counts>
    ensures same { view segment.new ≡ view segment.old }
    ensures counts { MatchOption result (HasNotCounted place (view segment.old))
        (HasCounted place (view segment.old)) }
{
    let Some(link) = segment.link_tallies(place) else {
        return None;
    };
    let Some(stack) = counters_at(segment, spare, place) else {
        return None;
    };
    Some(Counts { stack, link })
}

/// `frame BYTES`: gives a frame to the host at a place, which must have a link.
fn receive_frame(
    segment: &mut Segment,
    counting: &mut Counting,
    place: usize,
    frame: &[u8],
    report: &mut Report,
) -> Result<(), Fault>
    requires fits { length frame.now ≤ IP_MAX_PACKET }
    requires link { is_some (slice_get (view segment.old).links place) ≡ true }
    ensures { IsAtLink place (links.Frame frame.now) (view segment.old)
        (outcome_of result report.new.reply_line report.new.below) (view segment.new) }
{
    let Some(before) = counts_at(segment, &mut counting.stack, place) else {
        return Err(Fault::NoHost);
    };
    segment.receive(place, frame);
    match counts_at(segment, &mut counting.stack, place) {
        Some(after) => {
            report.below.clear();
            report_frame(&mut report.reply_line, &mut counting.drops, &before, &after);
            Ok(())
        }
        None => Err(Fault::NoHost),
    }
}

/// `error FD`: reports the last error that others reported for a socket of the host at a place, which must have a link.
fn ask_error(
    segment: &mut Segment,
    spare: &mut Stack,
    place: usize,
    fd: u32,
    report: &mut Report,
) -> Result<(), Fault>
    requires { is_some (slice_get (view segment.old).links place) ≡ true }
    ensures { IsAtLink place (links.LastError fd) (view segment.old)
        (outcome_of result report.new.reply_line report.new.below) (view segment.new) }
{
    let Some(_) = counts_at(segment, spare, place) else {
        return Err(Fault::NoHost);
    };
    match segment.last_error(place, fd) {
        Some(error) => {
            report.below.clear();
            report_error(&mut report.reply_line, error);
            Ok(())
        }
        None => Err(Fault::NoHost),
    }
}

/// `show neighbours`: those of the host at a place are shown.
fn show_neighbours(segment: &Segment, place: usize, report: &mut Report) -> Result<(), Fault>
    ensures { IsAtLink place links.Neighbours (view segment.now)
        (outcome_of result report.new.reply_line report.new.below) (view segment.now) }
{
    let Some(neighbours) = segment.neighbours(place) else {
        return Err(Fault::NoLink);
    };
    report_neighbours(
        &mut report.reply_line,
        &mut report.below,
        segment,
        place,
        neighbours,
    );
    Ok(())
}

/// `show link`: the link of the host at a place is shown.
fn show_link(segment: &Segment, place: usize, report: &mut Report) -> Result<(), Fault>
    ensures { IsAtLink place links.Counts (view segment.now)
        (outcome_of result report.new.reply_line report.new.below) (view segment.now) }
{
    let Some(link) = segment.link(place) else {
        return Err(Fault::NoLink);
    };
    let Some(state) = segment.address(place) else {
        return Err(Fault::NoLink);
    };
    let Some(tallies) = segment.link_tallies(place) else {
        return Err(Fault::NoLink);
    };
    report_link(
        &mut report.reply_line,
        &mut report.below,
        state,
        &link,
        &tallies,
    );
    Ok(())
}

/// `tick N`: lets N ticks pass at the host at a place and at its link, which it must have.
fn tick(segment: &mut Segment, place: usize, count: u32, report: &mut Report) -> Result<(), Fault>
    requires { is_some (slice_get (view segment.old).links place) ≡ true }
    ensures { IsAtLink place (links.Ticks count) (view segment.old)
        (outcome_of result report.new.reply_line report.new.below) (view segment.new) }
{
    if segment.is_linked(place) {
        tick_linked(segment, place, count);
        report.set_ok();
        Ok(())
    } else {
        Err(Fault::NoHost)
    }
}

/// Executes a request to the link of the host at a place, which has a link.
fn execute_there(
    segment: &mut Segment,
    counting: &mut Counting,
    place: usize,
    ask: LinkAsk<'_>,
    report: &mut Report,
) -> Result<(), Fault>
    requires fits { bytes_asked ask ≤ IP_MAX_PACKET }
    requires link { is_some (slice_get (view segment.old).links place) ≡ true }
    ensures { IsAtLink place (link_asked ask.entry) (view segment.old)
        (outcome_of result report.new.reply_line report.new.below) (view segment.new) }
{
    match ask {
        LinkAsk::Frame(frame) => receive_frame(segment, counting, place, frame, report),
        LinkAsk::LastError(fd) => ask_error(segment, &mut counting.stack, place, fd, report),
        LinkAsk::Neighbours => show_neighbours(segment, place, report),
        LinkAsk::Counts => show_link(segment, place, report),
        LinkAsk::Ticks(count) => tick(segment, place, count, report),
        LinkAsk::Packets => Err(Fault::OnEthernet),
    }
}

/// Executes a line on the link of the host at a place, and reports its reply.
pub(crate) fn execute_link(
    segment: &mut Segment,
    counting: &mut Counting,
    place: usize,
    ask: LinkAsk<'_>,
    report: &mut Report,
) -> Result<(), Fault>
    requires { bytes_asked ask ≤ IP_MAX_PACKET }
    ensures { IsAtLink place (link_asked ask.entry) (view segment.old)
        (outcome_of result report.new.reply_line report.new.below) (view segment.new) }
{
    match segment.link(place) {
        Some(_) => execute_there(segment, counting, place, ask, report),
        None => Err(Fault::NoLink),
    }
}
