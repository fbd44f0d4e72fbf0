//! Plays play scripts like `bsdplay --json`.
ghost use Rattle.std.specs.Prelude.{◌≡◌, ◌⊎◌, codes, take};
ghost use Rattle.flat_model.specs.Machine.State.{boot};
ghost use Rattle.flat_model.specs.Machine.Step.{Step};
ghost use Rattle.link_script.specs.Boots.{BootsRun};
ghost use Rattle.play_pcap.specs.Files.{no_folder};
ghost use Rattle.play_pcap.specs.Traces.{Traced};
ghost use Rattle.play_script.specs.Reports as one_machine;
ghost use Rattle.play_script.specs.declared.print.TheConstants.{NAME};
ghost use Rattle.play_text.specs.declared.form.Form.TheVariants.{Json};
ghost use Rattle.play_wire.specs.Reports as many_machines;
ghost use Rattle.script_loop.specs.Serves.{IsServed};
ghost use Rattle.page.specs.Served.{IsUnkept, Kept, PageRun, machine_config};

use crate::handed::{hand_over, kept_number_of, number_of};
use crate::settings::PageMachine;
use play_pcap::{Nowhere, Trace};
use play_script::{Captured, Form, NoFolder, RunFault, Start, Style, play, play_captured};
use play_wire::play_hosts;
use script_loop::Buffer;
use std::alloc::Global;

/// The seed of the wire, until a line `seed` sets another one.
const SEED: u64 = 1;

/// Returns the style: lines are printed as JSON, and the script has this name there.
fn style<'a>() -> Style<'a>
    ensures form { result.form ≡ Json }
    ensures name { result.name.now ≡ codes "script" }
{
    Style {
        form: Form::Json,
        name: b"script",
    }
}

/// Plays a play script on a new host, and writes the output of `bsdplay --json` to the front of the buffer: `uint32_t
/// bsdudp_page_play(const struct page_machine *, const uint8_t *script, size_t, uint8_t *room, size_t, size_t *len)`.
/// No file can be opened, so the reply to `rx pcap` is an error.
///
/// Returns the outcome's number and the objects, like the replies of `bsdudp_page_run`. The faults: 1 `BadSizes`,
/// 2 `BadConfig`, 3 `Memory`, 4 `TooManyLines`, 6 `Write`, each as `play_script::play` defines it.
#[unsafe(no_mangle)]
pub extern "C" fn bsdudp_page_play(
    alloc: Global,
    machine: &PageMachine,
    script: &[u8],
    buffer: &mut [u8],
    len: &mut usize,
) -> u32
    ensures reported { (traced : Traced) × PageRun (one_machine.Reports Step no_folder)
        (one_machine.started (boot (machine_config machine.now)) traced Json (take NAME (codes "script")))
        (BootsRun (machine_config machine.now))
        script.now result len.new buffer.old buffer.new }
{
    let mut reader = script;
    let mut objects = Vec::new(alloc);
    let played = play(alloc, machine.config(), style(), &mut reader, &mut objects);
    *len = hand_over(objects.as_slice(), buffer);
    number_of(played.outcome)
}

/// Plays a script of several hosts in the same way, with 1 as the seed of its wire until the script sets another one:
/// `uint32_t bsdudp_page_hosts(const uint8_t *script, size_t, uint8_t *buffer, size_t, size_t *len)`.
///
/// The faults: 3 `Memory`, 4 `TooManyLines`, 6 `Write`, each as `play_wire::play_hosts` defines it.
#[unsafe(no_mangle)]
pub extern "C" fn bsdudp_page_hosts(
    alloc: Global,
    script: &[u8],
    buffer: &mut [u8],
    len: &mut usize,
) -> u32
    ensures reported { PageRun many_machines.Reports
        (many_machines.wire_started 1 Json (take NAME (codes "script"))) IsServed
        script.now result len.new buffer.old buffer.new }
{
    let mut reader = script;
    let mut objects = Vec::new(alloc);
    let start = play_wire::Start {
        seed: SEED,
        capture: Nowhere,
    };
    let done = play_hosts(alloc, style(), start, &mut reader, &mut objects);
    *len = hand_over(objects.as_slice(), buffer);
    number_of(done.played.outcome)
}

/// Plays a play script like `bsdudp_page_play`, discards the objects, and returns the capture of the packets that
/// arrived by `rx` and left by `tx`, in the format of `bsdplay --pcap`: `uint32_t bsdudp_page_capture(const struct
/// page_machine *, const uint8_t *script, size_t, uint8_t *room, size_t, size_t *len)`. A record's microseconds are the
/// number of the line by which its packet arrived or left, and 500,000 more after an odd number of ticks.
///
/// The faults: those of `bsdudp_page_play`. `Write` also occurs if the host refuses memory for the capture, which is
/// truncated then. If nothing was played because memory ran out, `len` is 0 and the buffer is unchanged.
#[unsafe(no_mangle)]
pub extern "C" fn bsdudp_page_capture(
    alloc: Global,
    machine: &PageMachine,
    script: &[u8],
    buffer: &mut [u8],
    len: &mut usize,
) -> u32
    ensures kept { Kept (machine_config machine.now) script.now result len.new buffer.old buffer.new
        ⊎ IsUnkept result len.new buffer.old buffer.new }
{
    let Ok(record) = Buffer::new(alloc) else {
        *len = 0;
        return number_of(Err(RunFault::Memory));
    };
    let start = Start {
        config: machine.config(),
        trace: Trace::begin(Vec::new(alloc), record),
        folder: NoFolder,
    };
    let mut reader = script;
    let mut objects = Vec::new(alloc);
    let Captured { played, trace } = play_captured(
        alloc,
        start,
        style(),
        &mut reader,
        &mut objects,
    );
    let whole = trace.is_whole();
    let capture = trace.end();
    *len = hand_over(capture.as_slice(), buffer);
    kept_number_of(whole, played.outcome)
}
