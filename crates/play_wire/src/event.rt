//! What happened to the packets of a line, as text and as JSON objects.
use crate::add::{add, add_number};
use crate::names::NAME;
use crate::objects::{Fields, OBJECTS, add_object};
use crate::show::name_at;
use crate::verdict::Verdict;
use play_show::SHOWN;
use play_text::add_frame;
use script_loop::Buffer;

/// What happened to a packet.
#[derive(Clone, Copy)]
pub(crate) enum Happened {
    /// It was lost by chance.
    Lost,
    /// A copy of it was dropped, because the wire was full.
    WireFull,
    /// It was duplicated.
    Twice,
    /// It arrived at the host at this place.
    Came(usize, Verdict),
}

/// What happened to the packet with this number.
#[derive(Clone, Copy)]
pub(crate) struct Event {
    pub(crate) number: usize,
    pub(crate) happened: Happened,
}

/// Appends a packet or a frame, as a line with its sender.
pub(crate) fn add_packet(text: &mut Buffer<SHOWN>, name: &[u8], packet: &[u8], ether: bool) {
    add(text, b"    ");
    add(text, name);
    add(text, b": ");
    if ether {
        add_frame(text, packet);
    } else {
        play_text::add_packet(text, packet);
    }
    add(text, b"\n");
}

/// Appends what happened to a packet, as a line.
fn add_event(text: &mut Buffer<SHOWN>, names: &[Buffer<NAME>], happened: &Happened) {
    add(text, b"        ");
    match happened {
        Happened::Lost => add(text, b"lost"),
        Happened::WireFull => add(text, b"lost: the wire has no room"),
        Happened::Twice => add(text, b"sent twice"),
        Happened::Came(place, verdict) => {
            add(text, name_at(names, *place));
            verdict.put(text);
        }
    }
    add(text, b"\n");
}

/// Appends what happened to the packet with this number, one event a line.
pub(crate) fn add_events(
    text: &mut Buffer<SHOWN>,
    names: &[Buffer<NAME>],
    events: &[Event],
    number: usize,
) {
    let mut any = false;
    for event in events {
        if event.number == number {
            any = true;
            add_event(text, names, &event.happened);
        }
    }
    if !any {
        add(text, b"        no host received it\n");
    }
}

/// Appends an object for each event of a packet.
pub(crate) fn add_objects(
    objects: &mut Buffer<OBJECTS>,
    names: &[Buffer<NAME>],
    events: &[Event],
    at: usize,
    fields: Fields<'_>,
) {
    let mut any = false;
    for event in events {
        if event.number == at {
            any = true;
            let (to, fate, verdict) = match &event.happened {
                Happened::Lost => (None, b"lost".as_slice(), None),
                Happened::WireFull => (None, b"no room".as_slice(), None),
                Happened::Twice => (None, b"sent twice".as_slice(), None),
                Happened::Came(place, verdict) => (Some(*place), verdict.word(), Some(verdict)),
            };
            add_object(objects, names, &Fields { to, fate, ..fields }, verdict);
        }
    }
    if !any {
        add_object(objects, names, &fields, None);
    }
}

/// Appends when a packet is due, as a line.
pub(crate) fn add_due(text: &mut Buffer<SHOWN>, wait: u64) {
    if wait == 0 {
        add(text, b"        under way, due in the next carry\n");
        return;
    }
    add(text, b"        under way, due after ");
    add_number(text, wait);
    add(
        text,
        if wait == 1 {
            b" carry\n".as_slice()
        } else {
            b" carries\n"
        },
    );
}
