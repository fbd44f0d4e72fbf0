//! The datagrams that weren't completed, in English: the missing bytes or why they were dropped, and the records of
//! their fragments. No contract specifies the words.
use crate::FATE;
use crate::layout::Layout;
use crate::listed::{Listed, add_listed};
use crate::parts::Loss;
use flat_model::FragmentKey;
use net_stack::Stack;
use play_text::Piece::{Amount, Either, Long, Number, Text, Way};
use play_text::add;
use script_loop::Buffer;

/// A datagram has at most as many ranges: each begins at a multiple of 8 bytes.
const RANGES: u32 = 8192;

/// How many ranges of missing bytes a line lists. The others are counted.
const MOST_GAPS: u32 = 32;

/// What happened to a datagram that wasn't completed.
#[derive(Clone, Copy, Debug, PartialEq, Eq)]
pub(crate) enum End {
    /// It was dropped.
    Lost(Loss),
    /// At the end of the capture the host still waits for the missing bytes. It's the datagram at this index.
    Left(u32),
}

/// Appends a range of missing bytes.
fn add_gap(text: &mut Buffer<FATE>, first: u64, last: u32) {
    let (first, last) = (Long(first), Number(last));
    let front = Text(b" bytes ");
    add(text, &[front, first, Text(b" to "), last, Text(b",")]);
}

/// Appends the bytes that are missing from the datagram at index `i`: those before each range, and those after them.
fn add_lacks(text: &mut Buffer<FATE>, machine: &Stack, i: u32) {
    let (mut end, mut more, mut gaps) = (0, true, 0u32);
    add(text, &[Text(b" lacks")]);
    for k in 0..RANGES {
        let Some(range) = machine.unfinished_range(i, k) else {
            break;
        };
        if end < u64::from(range.offset) {
            if gaps < MOST_GAPS {
                add_gap(text, end, range.offset.saturating_sub(1));
            }
            gaps = gaps.saturating_add(1);
        }
        end = u64::from(range.offset) + u64::from(range.len);
        more = range.more;
    }
    let others = gaps.saturating_sub(MOST_GAPS);
    if others != 0 {
        add(
            text,
            &[Text(b" "), Amount(others, b"other range"), Text(b",")],
        );
    }
    if more {
        add(text, &[Text(b" all from byte "), Long(end), Text(b" on,")]);
    }
}

/// Appends what happened to a datagram.
fn add_end(text: &mut Buffer<FATE>, machine: &Stack, end: End) {
    match end {
        End::Lost(Loss::Expired) => add(text, &[Text(b" expired after 30 seconds,")]),
        End::Lost(Loss::Reclaimed) => add(text, &[Text(b" was dropped for its buffers,")]),
        End::Left(i) => add_lacks(text, machine, i),
    }
}

/// Appends the records of the fragments.
fn add_records(text: &mut Buffer<FATE>, numbers: &[u64]) {
    add(
        text,
        &[Either(numbers.len() == 1, b" with record", b" with records")],
    );
    add_listed(
        text,
        Listed {
            numbers,
            last: None,
        },
    );
}

/// Returns the word for what happened to a datagram in a JSON object.
fn word_for(end: End) -> &'static [u8] {
    match end {
        End::Lost(Loss::Expired) => b"expired",
        End::Lost(Loss::Reclaimed) => b"reclaimed",
        End::Left(_) => b"unfinished",
    }
}

/// Appends the protocol, the addresses and the identification of a datagram.
fn add_key(text: &mut Buffer<FATE>, key: FragmentKey) {
    add(
        text,
        &[
            Way(key.protocol, key.source, key.destination),
            Text(b", id "),
            Number(u32::from(key.id)),
        ],
    );
}

/// Appends an object for a datagram that wasn't completed.
fn put_object(text: &mut Buffer<FATE>, key: FragmentKey, end: End, numbers: &[u64]) {
    add(text, &[Text(b"{\"datagram\":\"")]);
    add_key(text, key);
    add(
        text,
        &[
            Text(b"\",\"fate\":\""),
            Text(word_for(end)),
            Text(b"\",\"records\":["),
        ],
    );
    for (place, number) in numbers.iter().enumerate() {
        add(text, &[Either(place == 0, b"", b","), Long(*number)]);
    }
    add(text, &[Text(b"]}\n")]);
}

/// Puts a line or an object into a buffer for a datagram that wasn't completed: its key, what happened to it, and the
/// records of its fragments.
pub(crate) fn put_unfinished(
    text: &mut Buffer<FATE>,
    layout: Layout,
    machine: &Stack,
    datagram: (FragmentKey, End),
    numbers: &[u64],
) {
    let (key, end) = datagram;
    text.clear();
    match layout {
        Layout::Lines => {
            add(
                text,
                &[
                    Text(b"    unfinished: datagram "),
                    Number(u32::from(key.id)),
                    Text(b" of "),
                    Way(key.protocol, key.source, key.destination),
                ],
            );
            add_end(text, machine, end);
            add_records(text, numbers);
            add(text, &[Text(b"\n")]);
        }
        Layout::Objects => put_object(text, key, end, numbers),
    }
}
