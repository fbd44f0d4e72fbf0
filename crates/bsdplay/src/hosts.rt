//! Scripts of many machines, with a capture of their wire or without one.
use crate::messages::fail;
use play_script::{Silent, Sink, Source, Style};
use play_wire::{Nowhere, PlayedHosts, Start, play_hosts};
use std::{fs, io};

/// The status if a capture can't be written.
pub(crate) const UNWRITTEN: u8 = 4;

/// Plays a script of many machines without a capture.
pub(crate) fn play_uncaptured<R: Source, W: Sink>(
    rt: &HostRuntime,
    style: Style<'_>,
    seed: u64,
    reader: &mut R,
    writer: &mut W,
) -> PlayedHosts {
    let start = Start {
        seed,
        capture: Nowhere,
    };
    play_hosts(rt.alloc(), style, start, reader, writer)
}

/// Plays a script of many machines, and writes what is sent on its wire to a new file. `None` if the file can't be
/// created.
pub(crate) fn play_captured<R: Source, W: Sink>(
    rt: &HostRuntime,
    style: Style<'_>,
    (seed, path): (u64, &str),
    reader: &mut R,
    writer: &mut W,
) -> Option<PlayedHosts> {
    let Ok(file) = fs::create(rt, path) else {
        return None;
    };
    let start = Start {
        seed,
        capture: Silent(file),
    };
    Some(play_hosts(rt.alloc(), style, start, reader, writer))
}

/// Returns the status of a script, or that of its capture, after a line that says that the capture isn't whole.
pub(crate) fn status_of(rt: &HostRuntime, status: u8, kept: bool) -> io::Result<u8> {
    if kept {
        return Ok(status);
    }
    let text = "write failed: the capture is incomplete";
    fail(rt, text, UNWRITTEN)
}
