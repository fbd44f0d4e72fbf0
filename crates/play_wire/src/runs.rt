//! The scripts that callers have played.
ghost use Rattle.std.specs.Prelude.{◌≡◌, ℕ, List, [], take, true, false, IfOk, IfSome};
ghost use Rattle.script_loop.specs.Printed.{Prints};
ghost use Rattle.script_loop.specs.Streams.{MoreBy, reader_failures, writer_failures};
ghost use Rattle.script_loop.specs.Serves.{Serves, IsServed};
ghost use Rattle.play_wire.specs.declared.hosts.TheConstants.{PACKETS};
ghost use Rattle.play_script.specs.declared.print.TheConstants.{NAME};
ghost use Rattle.segment.specs.Chances.{seeded};
ghost use Rattle.segment.specs.Inside.{view};
ghost use Rattle.segment.specs.Segment.{no_hosts};
ghost use Rattle.play_wire.specs.Inside.{play_with};
ghost use Rattle.play_wire.specs.Runs.{IsPlayed};
ghost use Rattle.play_wire.specs.Reports.{WirePlay, Reports, wire_started};

use crate::capture_out::Capture;
use crate::hosts::Hosts;
use crate::player::Player;
use crate::target::Target;
use play_packet::LineReader;
use play_script::{Line, Played, Printer, Report, Style};
use script_loop::{Buffer, RunFault, Sink, Source, serve_script};
use segment::hosts_on_a_segment;
use std::alloc::{AllocError, Global};

/// The parts of a player apart from its hosts.
#[derive(Drop)]
struct Parts {
    reader: LineReader,
    target: Target,
    line: Line,
    report: Report,
    printer: Printer,
}

/// Allocates the parts of a player apart from its hosts. Those that are dropped if memory runs out come first, and
/// the one with the most pieces last.
fn parts_for(alloc: Global, style: Style<'_>) -> Result<Parts, AllocError>
    ensures { IfOk result (λ p. (p.printer.form ≡ style.entry.form) × (p.printer.number ≡ 0)
        × (p.printer.name ≡ take NAME style.entry.name.now) × (p.printer.sound ≡ true)
        × (p.printer.lacks ≡ false) × (p.printer.texts ≡ false)) }
{
    let printer = Printer::new(alloc, style)?;
    let target = Target::new(alloc)?;
    let line = Line::new(alloc)?;
    let Ok(report) = Report::new(alloc, style.form.is_quiet()) else {
        drop((printer, target, line));
        return Err(AllocError);
    };
    let Ok(reader) = LineReader::new(alloc) else {
        drop((printer, target, line, report));
        return Err(AllocError);
    };
    Ok(Parts {
        reader,
        target,
        line,
        report,
        printer,
    })
}

/// How a script begins.
pub struct Start<T: Sink + Drop> {
    /// The seed of the wire, until a line `seed` sets another one.
    pub seed: u64,
    /// The writer for the capture of the wire; `play_pcap::Nowhere` for none.
    pub capture: T,
}

/// The result of playing a script.
#[derive(Drop)]
pub struct PlayedHosts {
    pub played: Played,
    /// Whether the whole capture was written.
    pub kept: bool,
}

/// Returns a capture that is written to this sink. `None` if the host refuses memory.
fn capture_for<T: Sink + Drop>(alloc: Global, sink: T) -> Option<Capture<T>> {
    let Ok(buffer) = Buffer::new(alloc) else {
        return None;
    };
    Some(Capture::begin(sink, buffer))
}

/// Returns a player's hosts before the first one, with a wire of this seed, and a capture that is written to this sink.
/// `None` if the host refuses memory.
fn hosts_for<T: Sink + Drop>(alloc: Global, seed: u64, sink: T) -> Option<Hosts<T>>
    ensures { IfSome result (λ h. (view h.segment ≡ record (no_hosts PACKETS) { random = seeded seed })
        × (h.names.items ≡ [])) }
{
    let capture = capture_for(alloc, sink)?;
    Hosts::new(alloc, seed, capture)
}

/// Returns a player whose script has this style, before its first line. `None` if the host refuses memory.
fn player_for<T: Sink + Drop>(
    alloc: Global,
    style: Style<'_>,
    seed: u64,
    sink: T,
) -> Option<Player<T>>
    ensures { IfSome result (λ p. play_with (view p.hosts.segment) p.hosts.names.items p.printer
        ≡ wire_started seed style.entry.form (take NAME style.entry.name.now)) }
{
    let hosts = hosts_for(alloc, seed, sink)?;
    let Ok(parts) = parts_for(alloc, style) else {
        hosts.end();
        return None;
    };
    let Parts {
        reader,
        target,
        line,
        report,
        printer,
    } = parts;
    Some(Player {
        hosts,
        reader,
        target,
        line,
        report,
        printer,
    })
}

/// Plays a script of many machines. It begins without hosts; each line `host` adds one. A line that names a host is
/// executed on it as `play_script` executes it on its one machine. The other lines carry what waits for the links, and
/// let time pass. `start.seed` seeds the random choices of the wire, until a line `seed` seeds them again. All hosts
/// are freed at the end.
///
/// Each packet is written to `start.capture` when it is sent onto the wire, at the time that `play_pcap::Trace` gives
/// for the ticks and the line's number. For hosts on an Ethernet each frame is written, also those of ARP, in a capture
/// of that link type. A packet that is lost by chance isn't written, and one that is duplicated is written twice. No
/// clause specifies the capture.
///
/// `sound` is true if all lines that were read did something, and all their expectations were met.
///
/// # Errors
///
/// `Memory` if the host refuses memory: nothing was read or written then. `Read`, `Write` and `TooManyLines` as in
/// `play_script::play`.
pub fn play_hosts<R: Source, W: Sink, T: Sink + Drop>(
    alloc: Global,
    style: Style<'_>,
    start: Start<T>,
    reader: &mut R,
    writer: &mut W,
) -> PlayedHosts
    // The reader failed once if the fault is `Read`, the writer once if it is `Write`; otherwise neither did.
    ensures read { MoreBy (reader_failures result.played.outcome) (R.failures reader.old) (R.failures reader.new) }
    ensures wrote { MoreBy (writer_failures result.played.outcome) (W.failures writer.old) (W.failures writer.new) }
    // What is written is printed for the lines of what is read, one after another.
    ensures served { (new : WirePlay)
        × Serves Reports (wire_started start.seed style.entry.form (take NAME style.entry.name.now)) new
        (R.remaining reader.old) (R.remaining reader.new)
        (W.contents writer.old) (W.contents writer.new) result.played.outcome
        × (result.played.sound ≡ new.sound) × (result.played.lacks ≡ new.lacks) }
    // What is printed for lines is printed by acts for which the law of a wire holds.
    ensures lawful { (new : WirePlay) (lines : List (List ℕ)) (printed : List ℕ)
        → Prints Reports (wire_started start.seed style.entry.form (take NAME style.entry.name.now)) lines printed new
        → IsPlayed start.seed style.entry.form (take NAME style.entry.name.now) lines printed new }
    ensures begun { IsServed result.played.outcome }
{
    hosts_on_a_segment();
    let Start { seed, capture } = start;
    let Some(mut player) = player_for(alloc, style, seed, capture) else {
        return PlayedHosts {
            played: Played::unplayed(RunFault::Memory),
            kept: true,
        };
    };
    let outcome = serve_script(alloc, &mut player, reader, writer);
    let (sound, lacks) = (player.printer.sound, player.printer.lacks);
    let kept = player.end();
    PlayedHosts {
        played: Played {
            outcome,
            sound,
            lacks,
        },
        kept,
    }
}
