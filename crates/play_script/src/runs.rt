//! The calls that play a script.
ghost use Rattle.std.specs.Prelude.{◌≡◌, Err, IfOk, false, take, true, vec_len};
ghost use Rattle.params.specs.declared.TheConstants.{IP_MAX_PACKET};
ghost use Rattle.play_pcap.specs.Traces.{Traced};
ghost use Rattle.flat_model.specs.Machine.State.{boot};
ghost use Rattle.flat_model.specs.Machine.Step.{Step};
ghost use Rattle.script_loop.specs.Streams.{MoreBy, reader_failures, writer_failures};
ghost use Rattle.script_loop.specs.Serves.{Serves, IsServed};
ghost use Rattle.link_script.specs.Boots.{BootsRun};
ghost use Rattle.play_script.specs.declared.print.TheConstants.{NAME};
ghost use Rattle.play_pcap.specs.Files.{no_folder};
ghost use Rattle.play_script.specs.Reports.{Play, Reports, started, play_status};
ghost use Rattle.net_stack.specs.Stack.{state_of};
ghost use Rattle.stack_call.specs.Moves.{StackSteps};

use crate::capture_out::Capture;
use crate::captured::CapturedStack;
use crate::line::Line;
use crate::player::Player;
use crate::print::NAME;
use crate::printer::{Printer, Style};
use crate::replay::Files;
use crate::report::{Report, zero_bytes};
use flat_model::Config;
use link_script::booted;
use net_stack::Stack;
use play_packet::{LineReader, PACKET};
use play_pcap::{Folder, NoFolder, Nowhere, Trace};
use play_text::Table;
use script_loop::{Buffer, RunFault, Sink, Source, serve_script};
use std::alloc::{AllocError, Global};

/// The result of playing a script.
#[derive(Clone, Copy)]
pub struct Played {
    /// How it ended.
    pub outcome: Result<(), RunFault>,
    /// Whether all lines made requests, all captures were played that weren't expected to fail, and all expectations
    /// were met.
    pub sound: bool,
    /// Whether there was no memory for the settings of a line.
    pub lacks: bool,
}

impl Played {
    /// The result of a script of which no line was played, for this reason.
    pub fn unplayed(fault: RunFault) -> Played
        ensures { result ≡ record { outcome = Err fault; sound = true; lacks = false } }
    {
        Played {
            outcome: Err(fault),
            sound: true,
            lacks: false,
        }
    }

    /// Returns the exit status of the program: 0 if `sound` and the script was played to its end; 1 if not `sound`;
    /// 3 if it `lacks` memory or the machine can't be booted; 4 if reading or writing failed or the script has too many
    /// lines (this project's own).
    pub fn status(&self) -> u8
        ensures { result ≡ play_status self.now.outcome self.now.sound self.now.lacks }
    {
        match self.outcome {
            Ok(()) if self.lacks => 3,
            Ok(()) if self.sound => 0,
            Ok(()) => 1,
            Err(RunFault::Memory | RunFault::BadSizes | RunFault::BadConfig) => 3,
            Err(RunFault::Read | RunFault::Write | RunFault::TooManyLines) => 4,
        }
    }
}

/// All memory for playing a script. The part with the most pieces is allocated last.
#[derive(Drop)]
struct Parts {
    buffer: Vec<u8>,
    bytes: Vec<u8>,
    printer: Printer,
    line: Line,
    report: Report,
    reader: LineReader,
}

/// Allocates all memory for playing a script.
fn parts_for(alloc: Global, style: Style<'_>) -> Result<Parts, AllocError>
    ensures { IfOk result (λ p. (p.printer.form ≡ style.entry.form) × (p.printer.number ≡ 0)
        × (p.printer.name ≡ take NAME style.entry.name.now) × (p.printer.sound ≡ true) × (p.printer.lacks ≡ false)
        × (p.printer.texts ≡ false)
        × (vec_len p.buffer ≡ IP_MAX_PACKET) × (vec_len p.bytes ≡ IP_MAX_PACKET)) }
{
    let buffer = zero_bytes(alloc, PACKET)?;
    let bytes = zero_bytes(alloc, PACKET)?;
    let printer = Printer::new(alloc, style)?;
    let line = Line::new(alloc)?;
    let Ok(report) = Report::new(alloc, style.form.is_quiet()) else {
        drop((buffer, bytes, printer, line));
        return Err(AllocError);
    };
    let Ok(reader) = LineReader::new(alloc) else {
        drop((buffer, bytes, printer, line, report));
        return Err(AllocError);
    };
    Ok(Parts {
        buffer,
        bytes,
        printer,
        line,
        report,
        reader,
    })
}

/// The start of a script.
pub struct Start<T: Sink, F> {
    /// The configuration of the machine.
    pub config: Config,
    /// The capture of the packets that arrive and leave.
    pub trace: Trace<T>,
    /// The files that its lines may name.
    pub folder: F,
}

/// The result of playing a script, and its capture, which must be consumed by `Trace::end`.
pub struct Captured<T: Sink> {
    pub played: Played,
    pub trace: Trace<T>,
}

/// Plays a script on a machine of this configuration, and frees it.
fn play_machine<R: Source, W: Sink, T: Sink, F: Folder>(
    alloc: Global,
    booted: (Stack, Start<T, F>),
    style: Style<'_>,
    reader: &mut R,
    writer: &mut W,
) -> Captured<T>
    requires { (state_of booted.0).config ≡ booted.1.config }
    ensures read { MoreBy (reader_failures result.played.outcome) (R.failures reader.old) (R.failures reader.new) }
    ensures wrote { MoreBy (writer_failures result.played.outcome) (W.failures writer.old) (W.failures writer.new) }
    ensures served { (new : Play)
        × Serves (Reports StackSteps F.may_have)
        (started (state_of booted.0) booted.1.trace style.entry.form (take NAME style.entry.name.now)) new
        (R.remaining reader.old) (R.remaining reader.new)
        (W.contents writer.old) (W.contents writer.new) result.played.outcome
        × (result.played.sound ≡ new.sound) × (result.played.lacks ≡ new.lacks) × (result.trace ≡ new.traced) }
    ensures started { IsServed result.played.outcome }
{
    let (
        stack,
        Start {
            config,
            trace,
            folder,
        },
    ) = booted;
    let Ok(parts) = parts_for(alloc, style) else {
        let _ = stack.end();
        let played = Played::unplayed(RunFault::Memory);
        return Captured { played, trace };
    };
    let mut player = Player {
        files: Files { alloc, folder },
        captured: CapturedStack {
            stack,
            capture: Capture { trace, line: 0 },
            causes: Table::new(),
            buffer: parts.buffer,
        },
        config,
        head: true,
        reader: parts.reader,
        line: parts.line,
        bytes: parts.bytes,
        report: parts.report,
        printer: parts.printer,
    };
    let outcome = serve_script(alloc, &mut player, reader, writer);
    let (sound, lacks) = (player.printer.sound, player.printer.lacks);
    let trace = player.end();
    Captured {
        played: Played {
            outcome,
            sound,
            lacks,
        },
        trace,
    }
}

/// Plays a script on a machine of this configuration, without a capture, and frees it.
fn play_untraced<R: Source, W: Sink>(
    alloc: Global,
    booted: (Stack, Config),
    style: Style<'_>,
    reader: &mut R,
    writer: &mut W,
) -> Played
    requires { (state_of booted.0).config ≡ booted.1 }
    ensures read { MoreBy (reader_failures result.outcome) (R.failures reader.old) (R.failures reader.new) }
    ensures wrote { MoreBy (writer_failures result.outcome) (W.failures writer.old) (W.failures writer.new) }
    ensures served { (traced : Traced) × (new : Play)
        × Serves (Reports StackSteps no_folder)
        (started (state_of booted.0) traced style.entry.form (take NAME style.entry.name.now)) new
        (R.remaining reader.old) (R.remaining reader.new)
        (W.contents writer.old) (W.contents writer.new) result.outcome
        × (result.sound ≡ new.sound) × (result.lacks ≡ new.lacks) }
    ensures started { IsServed result.outcome }
{
    let (machine, config) = booted;
    let Ok(buffer) = Buffer::new(alloc) else {
        let _ = machine.end();
        return Played::unplayed(RunFault::Memory);
    };
    let start = Start {
        config,
        trace: Trace::begin(Nowhere, buffer),
        folder: NoFolder,
    };
    let Captured { played, trace } = play_machine(alloc, (machine, start), style, reader, writer);
    let _nowhere = trace.end();
    played
}

/// Plays a script on a new stack. Each line is executed when its end was read. What is printed is the reply to its
/// request, the causes for which packets were dropped, and the difference to its expectation, if there is one. The
/// stack is freed at the end.
///
/// `sound` is true if all lines that were read made requests and all their expectations were met. A capture that can't
/// be played must be expected to fail.
///
/// # Errors
///
/// `BadSizes` if `config` has no mbuf, more than 65,535 mbufs or more than 4,096 clusters; otherwise `BadConfig` if its
/// MTU isn't 68 to 4352, an address isn't that of a host, or both addresses are the same; otherwise `Memory` if the
/// host refuses memory. In these cases nothing was read or written.
///
/// `Read` if the reader returns an error; each whole line before it was executed and its reply written. `Write` if the
/// writer returns an error, or writes none of the bytes that it is given; the beginning of the replies was written.
/// `TooManyLines` at a byte after the 10,000,000th line, or at a byte that makes a line longer than 1,048,576 bytes;
/// each whole line before it was executed and its reply written.
#[tactic(auto, unfolding(stack_call::specs::Moves::StackSteps))]
pub fn play<R: Source, W: Sink>(
    alloc: Global,
    config: Config,
    style: Style<'_>,
    reader: &mut R,
    writer: &mut W,
) -> Played
    ensures booted { BootsRun config result.outcome }
    // The reader failed once if the fault is `Read`, the writer once if it is `Write`; otherwise neither did.
    ensures read { MoreBy (reader_failures result.outcome) (R.failures reader.old) (R.failures reader.new) }
    ensures wrote { MoreBy (writer_failures result.outcome) (W.failures writer.old) (W.failures writer.new) }
    // What is written follows the machine with exact accounts from boot, over the lines of what is read. There is no
    // capture, and no file can be opened.
    ensures served { (traced : Traced) × (new : Play)
        × Serves (Reports Step no_folder)
        (started (boot config) traced style.entry.form (take NAME style.entry.name.now)) new
        (R.remaining reader.old) (R.remaining reader.new)
        (W.contents writer.old) (W.contents writer.new) result.outcome
        × (result.sound ≡ new.sound) × (result.lacks ≡ new.lacks) }
{
    match booted(alloc, config) {
        Ok(machine) => play_untraced(alloc, (machine, config), style, reader, writer),
        Err(fault) => Played::unplayed(fault),
    }
}

/// Plays a script on a new stack, as [`play`] does, and adds each packet that arrives or leaves to a capture: those of
/// `rx` lines, and those that `tx` lines return. A packet's time is half a second for each tick before it, and a
/// microsecond for each line of the script up to its own, at most 499,999. After an error in writing to the capture,
/// nothing more is added to it, and the script continues.
///
/// # Errors
///
/// Those of [`play`]. If no line was executed, nothing was added to the capture.
#[tactic(auto, unfolding(stack_call::specs::Moves::StackSteps))]
pub fn play_captured<R: Source, W: Sink, T: Sink, F: Folder>(
    alloc: Global,
    start: Start<T, F>,
    style: Style<'_>,
    reader: &mut R,
    writer: &mut W,
) -> Captured<T>
    ensures booted { BootsRun start.config result.played.outcome }
    ensures read { MoreBy (reader_failures result.played.outcome) (R.failures reader.old) (R.failures reader.new) }
    ensures wrote { MoreBy (writer_failures result.played.outcome) (W.failures writer.old) (W.failures writer.new) }
    // The capture has what the executed lines add to it: see `runs_law`.
    ensures served { (new : Play)
        × Serves (Reports Step F.may_have)
        (started (boot start.config) start.trace style.entry.form (take NAME style.entry.name.now)) new
        (R.remaining reader.old) (R.remaining reader.new)
        (W.contents writer.old) (W.contents writer.new) result.played.outcome
        × (result.played.sound ≡ new.sound) × (result.played.lacks ≡ new.lacks) × (result.trace ≡ new.traced) }
{
    let Start {
        config,
        trace,
        folder,
    } = start;
    match booted(alloc, config) {
        Ok(machine) => {
            let start = Start {
                config,
                trace,
                folder,
            };
            play_machine(alloc, (machine, start), style, reader, writer)
        }
        Err(fault) => {
            let played = Played::unplayed(fault);
            Captured { played, trace }
        }
    }
}
