//! What happened to packets, as JSON objects. An object that doesn't fit is left out completely, since a part of it
//! wouldn't be JSON.
use crate::add::{add, add_number};
use crate::names::NAME;
use crate::show::name_at;
use crate::verdict::Verdict;
use script_loop::Buffer;

/// The size of a buffer for the objects of a line.
pub(crate) const OBJECTS: usize = 1_048_576;

/// The size of a buffer for an object with a packet of the longest link.
const OBJECT: usize = 10_240;

/// The fields of an object for a packet.
#[derive(Clone, Copy)]
pub(crate) struct Fields<'a> {
    /// The number of the line.
    pub(crate) number: u64,
    /// The places of the host that has sent it, and of the host at which it arrived.
    pub(crate) from: usize,
    pub(crate) to: Option<usize>,
    pub(crate) packet: &'a [u8],
    pub(crate) fate: &'static [u8],
    /// The number of carries before it is due.
    pub(crate) wait: u64,
}

/// Appends a text in quotes; nothing in it needs an escape.
fn add_text(objects: &mut Buffer<OBJECTS>, text: &[u8]) {
    add(objects, b"\"");
    add(objects, text);
    add(objects, b"\"");
}

/// Appends bytes as digits in quotes.
fn add_bytes(objects: &mut Buffer<OBJECTS>, bytes: &[u8]) {
    add(objects, b"\"");
    for byte in bytes {
        let mut digits = [0; 2];
        let _ = hex::encode_to_slice([*byte], &mut digits);
        if objects.len() <= OBJECTS - digits.len() {
            objects.append(&digits);
        }
    }
    add(objects, b"\"");
}

/// Appends the name of the host at a place, or `null`.
fn add_name(objects: &mut Buffer<OBJECTS>, names: &[Buffer<NAME>], place: Option<usize>) {
    match place {
        Some(place) => add_text(objects, name_at(names, place)),
        None => add(objects, b"null"),
    }
}

/// Appends why the packet was dropped, or `null`.
fn add_cause(objects: &mut Buffer<OBJECTS>, verdict: Option<&Verdict>) {
    match verdict {
        Some(verdict) if verdict.is_dropped() => {
            add(objects, b"\"");
            verdict.put_causes(objects, b"");
            add(objects, b"\"");
        }
        _ => add(objects, b"null"),
    }
}

/// Returns whether one more object fits.
pub(crate) fn has_room(objects: &Buffer<OBJECTS>) -> bool {
    objects.len() <= OBJECTS - OBJECT
}

/// Appends an object if it fits.
pub(crate) fn add_object(
    objects: &mut Buffer<OBJECTS>,
    names: &[Buffer<NAME>],
    fields: &Fields<'_>,
    verdict: Option<&Verdict>,
) {
    if !has_room(objects) {
        return;
    }
    add(objects, b"{\"number\":");
    add_number(objects, fields.number);
    add(objects, b",\"from\":");
    add_name(objects, names, Some(fields.from));
    add(objects, b",\"to\":");
    add_name(objects, names, fields.to);
    add(objects, b",\"packet\":");
    add_bytes(objects, fields.packet);
    add(objects, b",\"fate\":");
    add_text(objects, fields.fate);
    add(objects, b",\"wait\":");
    add_number(objects, fields.wait);
    add(objects, b",\"cause\":");
    add_cause(objects, verdict);
    add(objects, b"}\n");
}

/// Appends an object that says how many packets of a host were sent once.
pub(crate) fn add_sent(objects: &mut Buffer<OBJECTS>, number: u64, name: &[u8], count: u64) {
    add(objects, b"{\"number\":");
    add_number(objects, number);
    add(objects, b",\"from\":");
    add_text(objects, name);
    add(objects, b",\"fate\":\"sent\",\"count\":");
    add_number(objects, count);
    add(objects, b"}\n");
}

/// Appends an object that says that there were more packets.
pub(crate) fn add_more(objects: &mut Buffer<OBJECTS>, number: u64) {
    add(objects, b"{\"number\":");
    add_number(objects, number);
    add(objects, b",\"fate\":\"more\"}\n");
}
