//! The unfinished datagrams in words.
use crate::SHOWN;
use net_stack::{HeldRange, Stack, UnfinishedDatagram};
use play_text::Piece::{Amount, Either, Long, Number, Text, Way};
use play_text::add;
use script_loop::Buffer;

/// The most unfinished datagrams that are printed; if there are more, only their number is printed.
const MOST_DATAGRAMS: u32 = 32;

/// The most ranges of a datagram that are printed.
const MOST_RANGES: u32 = 16;

/// Appends a range: its first and last byte, and whether it ends its datagram.
fn put_range(text: &mut Buffer<SHOWN>, range: HeldRange) {
    let past = u64::from(range.offset) + u64::from(range.len);
    add(
        text,
        &[
            Text(b"; "),
            Number(range.offset),
            Text(b" to "),
            Long(past.saturating_sub(1)),
            Either(range.more, b"", b", the end"),
        ],
    );
}

/// Appends the line of the datagram at a place.
fn put_datagram(machine: &Stack, text: &mut Buffer<SHOWN>, datagram: UnfinishedDatagram, i: u32) {
    let key = datagram.key;
    add(
        text,
        &[
            Text(b"    datagram "),
            Number(u32::from(key.id)),
            Text(b" of "),
            Way(key.protocol, key.source, key.destination),
            Text(b": "),
            Amount(u32::from(datagram.ticks), b"tick"),
            Text(b" left, "),
            Amount(datagram.bytes, b"byte"),
            Text(b" held"),
        ],
    );
    for k in 0..MOST_RANGES {
        if let Some(range) = machine.unfinished_range(i, k) {
            put_range(text, range);
        }
    }
    if MOST_RANGES < datagram.ranges {
        let rest = datagram.ranges - MOST_RANGES;
        add(text, &[Text(b" and "), Number(rest), Text(b" more")]);
    }
    add(text, &[Text(b"\n")]);
}

/// Writes the lines of the unfinished datagrams into a buffer, in the order of their beginning.
pub(crate) fn put_unfinished(machine: &Stack, text: &mut Buffer<SHOWN>) {
    for i in 0..MOST_DATAGRAMS {
        if let Some(datagram) = machine.unfinished(i) {
            put_datagram(machine, text, datagram, i);
        }
    }
    let all = machine.unfinished_len();
    if MOST_DATAGRAMS < all {
        let rest = all - MOST_DATAGRAMS;
        add(text, &[Text(b"    and "), Number(rest), Text(b" more\n")]);
    }
}
