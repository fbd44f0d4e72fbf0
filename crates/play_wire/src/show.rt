//! What is in flight, as text.
use crate::add::{add, add_number};
use crate::names::NAME;
use byteorder::{BigEndian, ByteOrder};
use params::IP_HEADER;
use play_script::REPLY_LINE;
use play_show::SHOWN;
use play_text::add_frame;
use script_loop::Buffer;
use segment::{Segment, UnderWay};

/// The most packets that are printed.
const MOST: usize = 200;

/// An IP header without options.
type Header = [u8; IP_HEADER as usize];

/// Returns the first 20 bytes of a packet. A missing byte is 0.
fn header_of(packet: &[u8]) -> Header {
    let mut header = [0; IP_HEADER as usize];
    let len = packet.len().min(header.len());
    header[..len].copy_from_slice(&packet[..len]);
    header
}

/// Appends the four numbers of an address.
fn add_address(text: &mut Buffer<SHOWN>, octets: &[u8]) {
    for (place, octet) in octets.iter().enumerate() {
        if place != 0 {
            add(text, b".");
        }
        add_number(text, u64::from(*octet));
    }
}

/// Appends which part of a datagram a packet has, if it doesn't have all of it.
fn add_part(text: &mut Buffer<SHOWN>, header: &Header) {
    let word = BigEndian::read_u16(&header[6..]);
    let more = word & 0x2000 != 0;
    let offset = u64::from(word & 0x1fff) * 8;
    if !more && offset == 0 {
        return;
    }
    add(text, b", a fragment at ");
    add_number(text, offset);
    if more {
        add(text, b" with more after it");
    }
}

/// Appends a packet.
fn add_packet(text: &mut Buffer<SHOWN>, packet: &[u8]) {
    let header = header_of(packet);
    add_address(text, &header[12..16]);
    add(text, b" > ");
    add_address(text, &header[16..]);
    add(text, b", ");
    add_number(text, packet.len() as u64);
    add(text, b" bytes, id ");
    add_number(text, u64::from(BigEndian::read_u16(&header[4..])));
    add_part(text, &header);
}

/// Appends a packet or a frame that is in flight, as a line.
fn add_under_way(text: &mut Buffer<SHOWN>, at: usize, name: &[u8], it: UnderWay<'_>, ether: bool) {
    add(text, b"    ");
    add_number(text, at as u64);
    add(text, b"  ");
    add(text, name);
    add(text, b": ");
    if ether {
        add_frame(text, it.packet);
    } else {
        add_packet(text, it.packet);
    }
    if it.wait != 0 {
        add(text, b", due after ");
        add_number(text, it.wait);
    }
    add(text, b"\n");
}

/// Returns the name of the host at a place.
pub(crate) fn name_at(names: &[Buffer<NAME>], place: usize) -> &[u8] {
    match names.get(place) {
        Some(name) => name.as_slice(),
        None => b"?",
    }
}

/// Reports how many packets or frames are in flight, and below that a line for each of the first 200.
pub(crate) fn report_wire(
    segment: &Segment,
    names: &[Buffer<NAME>],
    reply_line: &mut Buffer<REPLY_LINE>,
    below: &mut Buffer<SHOWN>,
) {
    let count = segment.flight_len();
    add_number(reply_line, count as u64);
    add(
        reply_line,
        match (segment.is_ether(), count) {
            (false, 1) => b" packet under way".as_slice(),
            (false, _) => b" packets under way",
            (true, 1) => b" frame under way",
            (true, _) => b" frames under way",
        },
    );
    for at in 0..MOST {
        if let Some(it) = segment.under_way(at) {
            let name = name_at(names, it.sender);
            add_under_way(below, at, name, it, segment.is_ether());
        }
    }
}
