//! Executing a line, and reporting its reply.
ghost use Rattle.std.specs.Prelude.{◌≡◌, ◌≤◌, length};
ghost use Rattle.net_stack.specs.Stack.{state_of};
ghost use Rattle.params.specs.declared.TheConstants.{IP_MAX_PACKET, MAX_MTU};
ghost use Rattle.play_script.specs.Inside.{IsExecuted, IsExecutedAs, events_of, most_of};
ghost use Rattle.play_script.specs.Plays.{captured_of};
ghost use Rattle.play_script.specs.Reports.{IsDone};
ghost use Rattle.play_script.specs.Views.{IsSoundAsk, ask_of, plain_line};
ghost use Rattle.stack_call.specs.Moves.{StackSteps};

use crate::acting::act;
use crate::action::{Action, moved_by, ticks_of};
use crate::ask::Ask;
use crate::capture_out::Capture;
use crate::captured::CapturedStack;
use crate::line::Line;
use crate::replay::{Files, execute_capture};
use crate::report::Report;
use net_stack::Stack;
use params::{IP_MAX_PACKET, MAX_MTU};
use play_pcap::Folder;
use play_show::{SHOWN, Snapshot, put_changes};
use script_loop::{Buffer, Sink};

/// Writes what a line changed into a buffer, or clears it if `quiet`. Packets are copied into `buffer` to print them.
pub(crate) fn put_below(
    quiet: bool,
    stack: &Stack,
    buffer: &mut [u8],
    moved: (Option<&[u8]>, &Snapshot, &Snapshot),
    below: &mut Buffer<SHOWN>,
)
    requires { MAX_MTU ≤ length buffer.old }
{
    if quiet {
        below.clear();
    } else {
        let (packet, before, after) = moved;
        let buffer = &mut buffer[..MAX_MTU as usize];
        put_changes(below, packet, (before, after), stack, buffer);
    }
}

impl Report {
    /// Sets the lines below a reply: what a line changed at a stack, if the report isn't quiet. `moved` is the packet
    /// that arrived or left. The first snapshot was taken before the line, the second after it.
    pub fn set_below(&mut self, stack: &Stack, moved: Option<&[u8]>, looks: (&Snapshot, &Snapshot))
        ensures reply_line { self.new.reply_line ≡ self.old.reply_line }
        ensures quiet { self.new.quiet ≡ self.old.quiet }
    {
        let (before, after) = looks;
        put_below(
            self.quiet,
            stack,
            self.digits.as_mut_slice(),
            (moved, before, after),
            &mut self.below,
        );
    }
}

/// The result of executing a plain line.
#[derive(Clone, Copy)]
pub(crate) enum Executed {
    /// It has no request.
    Nothing,
    /// It has settings, which need a new machine.
    Settings,
    /// Its request was executed and reported: whether settings are still accepted after it, and whether it failed.
    Done { stays: bool, failed: bool },
}

/// The result of a call or of ticks.
const ACTED: Executed = Executed::Done {
    stays: false,
    failed: false,
};

/// Performs one call or several ticks, and reports the reply. The capture has the packets that they move. The bytes of
/// the reply are in `buffer`.
fn execute_action<T: Sink>(
    stack: &mut Stack,
    capture: &mut Capture<T>,
    buffer: &mut [u8],
    action: Action<'_>,
    report: &mut Report,
)
    requires buffer { length buffer.old ≡ IP_MAX_PACKET }
    requires action { most_of action ≤ IP_MAX_PACKET }
    ensures done { IsDone StackSteps (captured_of (state_of stack.old) capture.old.trace capture.old.line)
        (events_of action.entry) report.new.reply_line
        (captured_of (state_of stack.new) capture.new.trace capture.new.line) }
    ensures quiet { report.new.quiet ≡ report.old.quiet }
{
    let reply = act(stack, action, buffer, report);
    let moved = moved_by(&action, &reply);
    capture.keep_action(moved, ticks_of(&action));
}

/// Executes a request, and reports its reply. Settings aren't executed here.
fn execute_ask<T: Sink, F: Folder>(
    captured: &mut CapturedStack<T>,
    files: &Files<F>,
    ask: Ask<'_, '_>,
    report: &mut Report,
) -> Executed
    requires { IsSoundAsk ask }
    ensures { IsExecutedAs StackSteps F.may_have (ask_of ask.entry) result
        (captured_of (state_of captured.old.stack) captured.old.capture.trace captured.old.capture.line)
        report.new.reply_line
        (captured_of (state_of captured.new.stack) captured.new.capture.trace captured.new.capture.line) }
{
    match ask {
        Ask::Call(request) => {
            execute_action(
                &mut captured.stack,
                &mut captured.capture,
                captured.buffer.as_mut_slice(),
                Action::Call(request),
                report,
            );
            ACTED
        }
        Ask::Limit(fd, limit) => {
            execute_action(
                &mut captured.stack,
                &mut captured.capture,
                captured.buffer.as_mut_slice(),
                Action::Limit(fd, limit),
                report,
            );
            ACTED
        }
        Ask::Ticks(count) => {
            execute_action(
                &mut captured.stack,
                &mut captured.capture,
                captured.buffer.as_mut_slice(),
                Action::Ticks(count),
                report,
            );
            ACTED
        }
        Ask::Show(topic) => {
            report.set_topic(&captured.stack, topic);
            Executed::Done {
                stays: true,
                failed: false,
            }
        }
        Ask::Capture(capture) => {
            let failed = execute_capture(captured, files, capture, report);
            Executed::Done {
                stays: false,
                failed,
            }
        }
        Ask::Settings(_) => Executed::Settings,
    }
}

/// Executes a line, and reports its reply. The bytes of its request are decoded into `buffer`. Nothing is done for
/// settings, nor for a line without a request.
pub(crate) fn execute_line<T: Sink, F: Folder>(
    captured: &mut CapturedStack<T>,
    files: &Files<F>,
    line: &Line,
    buffer: &mut [u8],
    report: &mut Report,
) -> Executed
    requires { length buffer.old ≡ IP_MAX_PACKET }
    ensures { IsExecuted StackSteps F.may_have (plain_line line.now) result
        (captured_of (state_of captured.old.stack) captured.old.capture.trace captured.old.capture.line)
        report.new.reply_line
        (captured_of (state_of captured.new.stack) captured.new.capture.trace captured.new.capture.line) }
{
    match line.ask(buffer) {
        Some(ask) => execute_ask(captured, files, ask, report),
        None => Executed::Nothing,
    }
}
