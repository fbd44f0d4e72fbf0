//! Captures that are played.
ghost use Rattle.std.specs.Prelude.{◌≡◌};
ghost use Rattle.play_pcap.specs.Events.{IsOrdered};
ghost use Rattle.play_pcap.specs.Files.{PlaysNamed};
ghost use Rattle.play_script.specs.Plays.{ComesTo, IsPlayed, captured_of, has_failed, replay_of};
ghost use Rattle.net_stack.specs.Stack.{state_of};
ghost use Rattle.stack_call.specs.Moves.{StackSteps};

use crate::captured::CapturedStack;
use crate::execute::put_below;
use crate::outcome::put_drops;
use crate::report::{Report, bytes_of};
use play_pcap::{Ask, CaptureFault, Folder, Tally, load_named, play_file, put_outcome};
use play_show::{SHOWN, snapshot_of};
use play_text::{Table, add_table};
use script_loop::{Buffer, Sink};
use std::alloc::Global;

/// The files that a script may name, and the allocator for the one that is read.
#[derive(Drop)]
pub(crate) struct Files<F> {
    pub(crate) alloc: Global,
    pub(crate) folder: F,
}

/// Plays the capture of a line, if its file can be read.
fn play_in<T: Sink, F: Folder>(
    captured: &mut CapturedStack<T>,
    files: &Files<F>,
    ask: Ask<'_>,
) -> Result<Tally, CaptureFault>
    requires { IsOrdered ask.details.range }
    ensures { PlaysNamed F.may_have (ComesTo StackSteps) ask.entry.details ask.entry.name.now result
        (replay_of (captured_of (state_of captured.old.stack) captured.old.capture.trace captured.old.capture.line)
        captured.old.causes)
        (replay_of (captured_of (state_of captured.new.stack) captured.new.capture.trace captured.new.capture.line)
        captured.new.causes) }
{
    let buffer = captured.buffer.as_mut_slice();
    match load_named(files.alloc, &files.folder, ask.name, buffer) {
        Ok(file) => play_file(files.alloc, captured, file.as_slice(), ask.details),
        Err(fault) => Err(fault),
    }
}

/// Returns whether a capture wasn't played.
fn has_failed(outcome: &Result<Tally, CaptureFault>) -> bool
    ensures { result ≡ has_failed outcome.now }
{
    match *outcome {
        Ok(_) => false,
        Err(_) => true,
    }
}

/// Appends a line for each cause for which packets were dropped, or nothing.
fn put_causes(quiet: bool, causes: &Table, below: &mut Buffer<SHOWN>) {
    if !quiet {
        add_table(below, causes);
    }
}

/// Plays the capture of a line, and writes its reply into `report`. Returns whether that failed.
pub(crate) fn execute_capture<T: Sink, F: Folder>(
    captured: &mut CapturedStack<T>,
    files: &Files<F>,
    ask: Ask<'_>,
    report: &mut Report,
) -> bool
    requires { IsOrdered ask.details.range }
    ensures plays { IsPlayed StackSteps F.may_have ask.entry.details ask.entry.name.now
        (captured_of (state_of captured.old.stack) captured.old.capture.trace captured.old.capture.line) result
        report.new.reply_line captured.new.causes
        (captured_of (state_of captured.new.stack) captured.new.capture.trace captured.new.capture.line) }
    ensures quiet { report.new.quiet ≡ report.old.quiet }
{
    let before = snapshot_of(&captured.stack);
    captured.causes = Table::new();
    let outcome = play_in(captured, files, ask);
    let after = snapshot_of(&captured.stack);
    put_drops(&mut report.drops, &before.counters, &after.counters);
    report.reply_line.clear();
    put_outcome(&mut report.reply_line, outcome);
    report.reply_line.append(bytes_of(&report.drops));
    put_below(
        report.quiet,
        &captured.stack,
        report.digits.as_mut_slice(),
        (None, &before, &after),
        &mut report.below,
    );
    put_causes(report.quiet, &captured.causes, &mut report.below);
    has_failed(&outcome)
}
