//! Captures that are printed as scripts.
ghost use Rattle.std.specs.Prelude.{IfOk};
ghost use Rattle.play_pcap.specs.Events.{IsOrdered};

use crate::formats::{Unread, load_capture};
use crate::messages::{Shown, fail, fail_on};
use crate::{UNREAD, USAGE};
use capture::{Fault, Why};
use clap::ArgMatches;
use play_pcap::{
    CaptureFault, Details, Lines, OUTCOME, Range, Tally, play_file, put_outcome, range_of,
};
use play_script::Silent;
use script_loop::{Buffer, LineBuffers};
use std::alloc::AllocError;
use std::{io, str};

/// The status if the file isn't a capture, or has fewer records than the range requests.
pub(crate) const BAD: u8 = 1;

/// Prints the result of reading a capture, and returns the status.
pub(crate) fn report(
    rt: &HostRuntime,
    name: &str,
    outcome: Result<Tally, CaptureFault>,
) -> io::Result<u8> {
    let mut text: Buffer<OUTCOME> = Buffer::new(rt.alloc())?;
    put_outcome(&mut text, outcome);
    if let Ok(words) = str::from_utf8(text.as_slice()) {
        let words = words.strip_prefix("error ").unwrap_or(words);
        let name = Shown(name);
        eprintln!(rt; "bsdplay: {name}: {words}")?;
    }
    match outcome {
        Ok(_) => Ok(0),
        Err(CaptureFault::Bad(_) | CaptureFault::TooFew) => Ok(BAD),
        Err(_) => Ok(UNREAD),
    }
}

/// Prints what is wrong with a capture that `command` reads, and returns the status.
pub(crate) fn report_fault(
    rt: &HostRuntime,
    name: &str,
    fault: Fault,
    command: &str,
) -> io::Result<u8> {
    let name = Shown(name);
    if fault.why == Why::Gzip {
        eprintln!(rt;
            "bsdplay: {name}: {}: zcat FILE | bsdplay {command} - reads it",
            fault.why
        )?;
    } else {
        eprintln!(rt; "bsdplay: {name}: {fault}")?;
    }
    Ok(BAD)
}

/// Returns the records that an option names.
pub(crate) fn records_in(word: Option<&str>) -> Result<Option<Range>, &'static str>
    ensures { IfOk result (λ range. IsOrdered range) }
{
    let Some(word) = word else {
        return Ok(None);
    };
    match range_of(word.as_bytes()) {
        Some(range) => Ok(Some(range)),
        None => Err("--records takes two numbers, such as 3-17"),
    }
}

/// Prints a capture as a script, on standard output.
fn print_lines(rt: &HostRuntime, name: &str, file: &[u8], details: Details) -> io::Result<u8>
    requires { IsOrdered details.range }
{
    let (Ok(line), Ok(buffers)) = (Buffer::new(rt.alloc()), LineBuffers::new(rt.alloc())) else {
        return Err(AllocError.into());
    };
    let mut lines = Lines::begin(Silent(rt.stdout()), line, buffers);
    let outcome = play_file(rt.alloc(), &mut lines, file, details);
    let (_writer, whole) = lines.end();
    if !whole {
        return fail_on(rt, name, "write failed", UNREAD);
    }
    report(rt, name, outcome)
}

/// Prints the capture of this name as a script.
fn print_file(rt: &HostRuntime, name: &str, details: Details) -> io::Result<u8>
    requires { IsOrdered details.range }
{
    match load_capture(rt, name) {
        Ok(file) => print_lines(rt, name, file.as_slice(), details),
        Err(Unread::Whole(fault)) => report(rt, name, Err(fault)),
        Err(Unread::Bad(fault)) => report_fault(rt, name, fault, "--from-pcap"),
    }
}

/// Prints the capture that the command line names as a script, with the records and the ticks that the options request.
pub(crate) fn print_capture(
    rt: &HostRuntime,
    name: &str,
    found: &ArgMatches<'_>,
) -> io::Result<u8> {
    let ticks = found.get_flag("ticks");
    match records_in(found.get_str("N-M")) {
        Ok(range) => print_file(rt, name, Details { range, ticks }),
        Err(text) => fail(rt, text, USAGE),
    }
}
