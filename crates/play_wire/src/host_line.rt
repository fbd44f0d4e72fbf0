//! The lines of one host.
ghost use Rattle.std.specs.Prelude.{◌≡◌, List, MatchOption, codes, length};
ghost use Rattle.params.specs.declared.TheConstants.{IP_MAX_PACKET};
ghost use Rattle.flat_model.specs.Runs.Run.{Turn};
ghost use Rattle.segment.specs.Inside.{view};
ghost use Rattle.play_wire.specs.Acts.{IsLineExecuted};
ghost use Rattle.play_script.specs.Views.{plain_line};
ghost use Rattle.play_wire.specs.Inside.{IsAtHost, IsAtStack, outcome_of};
ghost use Rattle.play_wire.specs.Links.{IsForStack};

use crate::fault::Fault;
use crate::link_ask::link_ask;
use crate::link_line::execute_link;
use crate::spare::{Counting, Spare};
use crate::ticks::{exchange, tick_stack};
use net_stack::Stack;
use play_script::{Action, Ask, Line, Report, act};
use play_show::snapshot_of;
use segment::Segment;

/// Sets the reply `ok`, and keeps the lines below it.
fn report_done(report: &mut Report)
    ensures { report.new.reply_line ≡ codes "ok" }
{
    report.reply_line.clear();
    report.reply_line.append(b"ok");
}

/// Executes a line on a stack, and reports its reply. It plays no captures, and settings make no new stack. The bytes
/// of its request are decoded into `bytes`, and those of the reply into `buffer`.
#[tactic(auto, unfolding(stack_call::specs::Moves::StackSteps))]
fn execute_stack(
    stack: &mut Stack,
    bytes: &mut [u8],
    buffer: &mut [u8],
    line: &Line,
    report: &mut Report,
) -> Result<(), Fault>
    requires bytes { length bytes.old ≡ IP_MAX_PACKET }
    requires buffer { length buffer.old ≡ IP_MAX_PACKET }
    ensures { (turns : List Turn) × IsLineExecuted (plain_line line.now) stack.old turns
        (outcome_of result report.new.reply_line report.new.below) stack.new }
{
    let Some(ask) = line.ask(bytes) else {
        return Err(Fault::Nothing);
    };
    match ask {
        Ask::Call(request) => {
            act(stack, Action::Call(request), buffer, report);
            Ok(())
        }
        Ask::Limit(fd, limit) => {
            act(stack, Action::Limit(fd, limit), buffer, report);
            Ok(())
        }
        Ask::Ticks(count) => {
            let before = snapshot_of(stack);
            tick_stack(stack, count);
            let after = snapshot_of(stack);
            report.set_below(stack, None, (&before, &after));
            report_done(report);
            Ok(())
        }
        Ask::Show(topic) => {
            report.set_topic(stack, topic);
            Ok(())
        }
        Ask::Capture(_) => Err(Fault::NoCapture),
        Ask::Settings(_) => Err(Fault::NoSettings),
    }
}

/// Executes a line on the stack of the host at a place, and reports its reply. Meanwhile the host has the spare stack.
fn execute_at(
    segment: &mut Segment,
    spare: &mut Spare,
    place: usize,
    line: &Line,
    report: &mut Report,
) -> Result<(), Fault>
    ensures { IsAtStack place (plain_line line.now) (view segment.old)
        (outcome_of result report.new.reply_line report.new.below) (view segment.new) }
{
    if exchange(segment, place, &mut spare.counting.stack) {
        let outcome = execute_stack(
            &mut spare.counting.stack,
            spare.bytes.as_mut_slice(),
            spare.buffer.as_mut_slice(),
            line,
            report,
        );
        exchange(segment, place, &mut spare.counting.stack);
        outcome
    } else {
        Err(Fault::NoHost)
    }
}

/// A line of the host at a place.
#[derive(Clone, Copy)]
struct HostLine<'l> {
    place: usize,
    line: &'l Line,
}

/// Executes a line on the link of its host, and reports its reply. `None` if it isn't a request to the link; then
/// nothing has changed. The bytes of its request are decoded into `bytes`.
fn execute_by_link(
    segment: &mut Segment,
    counting: &mut Counting,
    bytes: &mut [u8],
    asked: HostLine<'_>,
    report: &mut Report,
) -> Option<Result<(), Fault>>
    requires { length bytes.old ≡ IP_MAX_PACKET }
    ensures { MatchOption result (IsForStack asked.entry.place (plain_line asked.entry.line.now) (view segment.old)
        × (view segment.new ≡ view segment.old)) (λ came.
        IsAtHost asked.entry.place (plain_line asked.entry.line.now) (view segment.old)
        (outcome_of came report.new.reply_line report.new.below) (view segment.new)) }
{
    let HostLine { place, line } = asked;
    match link_ask(segment, place, line, bytes) {
        Some(ask) => Some(execute_link(segment, counting, place, ask, report)),
        None => None,
    }
}

/// Executes a line on the host at a place, and reports its reply.
pub(crate) fn execute_host(
    segment: &mut Segment,
    spare: &mut Spare,
    place: usize,
    line: &Line,
    report: &mut Report,
) -> Result<(), Fault>
    ensures { IsAtHost place (plain_line line.now) (view segment.old)
        (outcome_of result report.new.reply_line report.new.below) (view segment.new) }
{
    match execute_by_link(
        segment,
        &mut spare.counting,
        spare.bytes.as_mut_slice(),
        HostLine { place, line },
        report,
    ) {
        Some(came) => came,
        None => execute_at(segment, spare, place, line, report),
    }
}
