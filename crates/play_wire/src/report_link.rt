//! The state and the counters of a host's link, as text.
ghost use Rattle.std.specs.Prelude.{◌≡◌, ◌+◌, ◌≤◌, ◌++◌, length};
ghost use Rattle.play_wire.specs.LinkTexts.{error_text, received_text, neighbours_text, rise_text, rises_text, state_text};
ghost use Rattle.play_script.specs.Outcomes.{reply_line as reply_line_of};
ghost use Rattle.std.specs.Prelude.{codes};

use crate::link_count::{LinkCount, link_counts};
use flat_ether::ARP_TRIES;
use flat_model::{Counters, Errno};
use play_script::{DROPS, REPLY_LINE, bytes_of, put_drops};
use play_show::SHOWN;
use play_text::Piece::{Address, Amount, Either, Hardware, Long, Number, Text};
use play_text::{add, put};
use script_loop::Buffer;
use segment::{AddressState, Link, Neighbour, NetFault, Segment, Tallies};

// ---- neighbours

/// Appends the hardware address of a neighbour; or how often it was requested, and how many packets wait for it.
fn add_known(text: &mut Buffer<SHOWN>, it: &Neighbour, waiting: usize) {
    match it.mac {
        Some(mac) => add(
            text,
            &[
                Text(b" is at "),
                Hardware(mac),
                Text(b", "),
                Amount(u32::from(it.ticks), b"tick"),
                Text(b" left"),
            ],
        ),
        None => add(
            text,
            &[
                Text(b" is unresolved, "),
                Number(u32::from(it.tries)),
                Text(b" of "),
                Number(u32::from(ARP_TRIES)),
                Text(b" requests sent, "),
                Long(waiting as u64),
                Either(waiting == 1, b" packet waits", b" packets wait"),
            ],
        ),
    }
}

/// Writes a line into a buffer for each neighbour of the host at a place.
fn put_lines(text: &mut Buffer<SHOWN>, segment: &Segment, place: usize, neighbours: &[Neighbour]) {
    text.clear();
    for neighbour in neighbours {
        let waiting = segment.held_for(place, neighbour.ip).unwrap_or(0);
        add(text, &[Text(b"    "), Address(neighbour.ip)]);
        add_known(text, neighbour, waiting);
        add(text, &[Text(b"\n")]);
    }
}

/// Reports how many neighbours the host at a place has, and below that a line for each.
pub(crate) fn report_neighbours(
    reply_line: &mut Buffer<REPLY_LINE>,
    below: &mut Buffer<SHOWN>,
    segment: &Segment,
    place: usize,
    neighbours: &[Neighbour],
)
    ensures { reply_line.new ≡ neighbours_text neighbours.now }
{
    let len = neighbours.len();
    reply_line.clear();
    put(
        reply_line,
        &[
            Long(len as u64),
            Either(len == 1, b" neighbour", b" neighbours"),
        ],
    );
    put_lines(below, segment, place, neighbours);
}

// ---- a link

/// Appends the addresses of a link, as a line.
fn add_link(text: &mut Buffer<SHOWN>, link: &Link) {
    add(
        text,
        &[
            Text(b"    "),
            Hardware(link.mac),
            Text(b", mask "),
            Address(link.mask),
            Text(b", "),
        ],
    );
    match link.gateway {
        Some(gateway) => add(text, &[Text(b"gateway "), Address(gateway), Text(b"\n")]),
        None => add(text, &[Text(b"no gateway\n")]),
    }
}

/// Writes the lines of a link into a buffer: its addresses, and each count that isn't 0.
fn put_link_lines(text: &mut Buffer<SHOWN>, link: &Link, tallies: &Tallies) {
    text.clear();
    add_link(text, link);
    for which in link_counts() {
        let value = which.value(tallies);
        if 0 < value {
            let name = Text(which.name().as_bytes());
            add(
                text,
                &[Text(b"    "), name, Text(b" "), Long(value), Text(b"\n")],
            );
        }
    }
}

/// Returns the state of a host's address, in words.
fn words_for(state: AddressState) -> &'static [u8]
    ensures is { result.now ≡ state_text state }
    ensures short { length result.now ≤ 40 }
{
    match state {
        AddressState::Probing => b"probes for its address",
        AddressState::Conflict => b"another host has its address",
        AddressState::InUse => b"uses its address",
    }
}

/// Reports the state of a host's address, and below that the addresses and the counters of its link.
pub(crate) fn report_link(
    reply_line: &mut Buffer<REPLY_LINE>,
    below: &mut Buffer<SHOWN>,
    state: AddressState,
    link: &Link,
    tallies: &Tallies,
)
    ensures { reply_line.new ≡ state_text state }
{
    reply_line.clear();
    reply_line.append(words_for(state));
    put_link_lines(below, link, tallies);
}

// ---- a frame, and an error

/// The counters of a host's stack and of its link.
#[derive(Clone, Copy)]
pub(crate) struct Counts {
    pub(crate) stack: Counters,
    pub(crate) link: Tallies,
}

/// Appends a count, if it went up.
fn put_rise(text: &mut Buffer<REPLY_LINE>, before: &Tallies, after: &Tallies, which: LinkCount)
    requires { length text.old + 26 ≤ REPLY_LINE }
    ensures items { text.new ≡ text.old ++ rise_text before.now after.now which }
    ensures len { length text.new ≤ length text.old + 26 }
{
    if which.value(before) < which.value(after) {
        put(text, &[Text(b" counted "), Text(which.name().as_bytes())]);
    }
}

/// Appends the counters that went up.
fn put_rises(text: &mut Buffer<REPLY_LINE>, before: &Tallies, after: &Tallies)
    requires { length text.old + 400 ≤ REPLY_LINE }
    ensures { text.new ≡ text.old ++ rises_text before.now after.now }
{
    for which in link_counts() {
        put_rise(text, before, after, which);
    }
}

/// Appends why packets were dropped, or `ok`.
fn put_ok(text: &mut Buffer<REPLY_LINE>, drops: &[u8])
    requires { length drops.now ≤ DROPS }
    ensures is { text.new ≡ reply_line_of (codes "ok") drops.now }
    ensures most { length text.new ≤ DROPS + 2 }
{
    text.clear();
    if drops.is_empty() {
        text.append(b"ok");
    } else {
        text.append(&drops[1..]);
    }
}

/// Reports what happened to a frame, by the counters before and after it. `drops` is a buffer for the causes.
pub(crate) fn report_frame(
    reply_line: &mut Buffer<REPLY_LINE>,
    drops: &mut Buffer<DROPS>,
    before: &Counts,
    after: &Counts,
)
    ensures { reply_line.new ≡ received_text before.now.stack before.now.link after.now.stack after.now.link }
{
    put_drops(drops, &before.stack, &after.stack);
    put_ok(reply_line, bytes_of(drops));
    put_rises(reply_line, &before.link, &after.link);
}

/// Appends the name of an error.
fn put_refusal(text: &mut Buffer<REPLY_LINE>, errno: Errno)
    ensures { text.new ≡ error_text (Err errno) }
{
    text.clear();
    text.append(b"error ");
    put(text, &[Number(u32::from(errno.number()))]);
    text.append(b" ");
    text.append(errno.name().as_bytes());
}

/// Reports the last error that others reported for a socket's datagrams.
pub(crate) fn report_error(
    reply_line: &mut Buffer<REPLY_LINE>,
    error: Result<Option<NetFault>, Errno>,
)
    ensures { reply_line.new ≡ error_text error }
{
    reply_line.clear();
    match error {
        Ok(None) => reply_line.append(b"none"),
        Ok(Some(NetFault::Refused)) => reply_line.append(b"refused"),
        Ok(Some(NetFault::Unreachable)) => reply_line.append(b"unreachable"),
        Err(errno) => put_refusal(reply_line, errno),
    }
}
