//! Scripts of one machine, with a capture of its packets or without one.
use crate::choice::Ahead;
use crate::folder::HostFolder;
use crate::hosts::{UNWRITTEN, status_of};
use crate::messages::fail_on;
use crate::screen::Screen;
use crate::{Manner, report};
use play_pcap::Nowhere;
use play_script::{
    Captured, DEFAULTS, Played, RunFault, Silent, Sink, Source, Start, Style, Trace, play_captured,
};
use script_loop::Buffer;
use std::fs;
use std::io::{self, Read};

/// Plays a script from a folder, writes the packets that arrive and leave to a sink, and returns the status.
fn play_to<R: Source, S: Sink + Drop>(
    rt: &HostRuntime,
    manner: Manner<'_>,
    (name, sink): (&str, S),
    reader: &mut R,
) -> io::Result<u8> {
    let Ok(room) = Buffer::new(rt.alloc()) else {
        let played = Played::unplayed(RunFault::Memory);
        report(rt, name, &played)?;
        return Ok(played.status());
    };
    let start = Start {
        config: DEFAULTS,
        trace: Trace::begin(sink, room),
        folder: HostFolder::of(rt, name),
    };
    let style = Style {
        form: manner.form,
        name: name.as_bytes(),
    };
    let mut screen = Screen::over(rt.stdout(), manner.form, manner.typed);
    let Captured { played, trace } = play_captured(rt.alloc(), start, style, reader, &mut screen);
    let kept = trace.is_whole();
    drop(trace.end());
    report(rt, name, &played)?;
    status_of(rt, played.status(), kept)
}

/// Plays a script on one machine, and writes a capture to a new file if it's wanted.
pub(crate) fn play_one<R: Read + Drop>(
    rt: &HostRuntime,
    reader: &mut Ahead<R>,
    name: &str,
    manner: Manner<'_>,
) -> io::Result<u8> {
    let Some(path) = manner.capture else {
        return play_to(rt, manner, (name, Nowhere), reader);
    };
    let Ok(file) = fs::create(rt, path) else {
        return fail_on(rt, path, "can't be written", UNWRITTEN);
    };
    play_to(rt, manner, (name, Silent(file)), reader)
}
