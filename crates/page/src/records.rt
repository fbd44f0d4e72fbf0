//! The records of a capture file.
ghost use Rattle.std.specs.Prelude.{◌≡◌, ◌⊎◌, ◌+◌, ◌≤◌, ◌++◌, length, decimal, IfOk};
ghost use Rattle.page.specs.Recorded.{HasNoWords, IsCaptureText, IsCaptureUnread, ReadsAll, Recorded, record_head, ipv4_of, record_bytes, nanoseconds_text};

use crate::handed::{hand_over, number_of};
use capture::pcap::{LinkType, ipv4_packet};
use capture::{Fault, LONGEST_RECORD, Record, Records};
use link_script::RunFault;
use script_loop::Buffer;
use std::alloc::{AllocError, Global};
use std::io::Write;

/// What was read from a capture: `struct page_capture`, of 16 bytes.
#[repr(C)]
#[derive(Clone, Copy)]
pub struct PageCapture {
    /// How many records were read.
    pub records: u64,
    /// How many of the bytes that are returned are those of the records. The bytes after them describe the fault of the
    /// file, with its offset; a file that was read to its end has no such bytes.
    pub lines_len: u64,
}

/// The size of the buffer for the line before a packet.
const HEAD: usize = 120;

/// Appends the digits of a number to the text, at most 20 of them.
fn put_digits(text: &mut Buffer<HEAD>, n: u64)
    requires { length text.old + 20 ≤ HEAD }
    ensures items { text.new ≡ text.old ++ decimal n }
    ensures len { length text.new ≤ length text.old + 20 }
{
    let mut digits = itoa::Buffer::new();
    text.append(digits.format(n).as_bytes());
}

/// Appends the digits of a time to the text, or a dash.
fn put_time(text: &mut Buffer<HEAD>, time: Option<u64>)
    requires { length text.old + 20 ≤ HEAD }
    ensures items { text.new ≡ text.old ++ nanoseconds_text time }
    ensures len { length text.new ≤ length text.old + 20 }
{
    match time {
        Some(time) => put_digits(text, time),
        None => text.append(b"-"),
    }
}

/// Replaces the text by the line before a record's packet.
fn put_head(text: &mut Buffer<HEAD>, read: Record, captured: usize, len: usize)
    ensures { text.new ≡ record_head read captured len }
{
    text.clear();
    put_digits(text, read.number);
    text.append(b" ");
    put_time(text, read.time);
    text.append(b" ");
    put_digits(text, u64::from(read.original_len));
    text.append(b" ");
    put_digits(text, captured as u64);
    text.append(b" ");
    put_digits(text, len as u64);
    text.append(b"\n");
}

/// The IPv4 packet of a frame, or no bytes.
fn packet_in(link: Option<LinkType>, frame: &[u8]) -> &[u8]
    ensures { result.now ≡ ipv4_of link frame.now }
{
    match link {
        Some(link) => match ipv4_packet(link, frame) {
            Ok(packet) => packet,
            Err(_) => &[],
        },
        None => &[],
    }
}

/// Appends a record to the text: its line, and its packet. If an allocation fails, a part of it was appended.
fn put_record(
    read: Record,
    frame: &[u8],
    head: &mut Buffer<HEAD>,
    text: &mut Vec<u8>,
) -> Result<(), AllocError>
    ensures { IfOk result (λ u. text.new.items ≡ text.old.items ++ record_bytes read frame.now) }
{
    let packet = packet_in(read.link, frame);
    put_head(head, read, frame.len(), packet.len());
    text.extend_from_slice(head.as_slice())?;
    text.extend_from_slice(packet)
}

/// Appends all records to the text, and returns how many there are, and the fault of the file. Returns `AllocError` if
/// an allocation fails, or for 4,294,967,295 records, which no memory holds; a part of them was appended then.
#[tactic(auto, using(crate::proofs::Entries::more_of, crate::proofs::Entries::ended, crate::proofs::Entries::failed))]
fn put_records(
    records: &mut Records<&[u8]>,
    head: &mut Buffer<HEAD>,
    text: &mut Vec<u8>,
) -> Result<(u32, Option<Fault>), AllocError>
    ensures { IfOk result (λ r. ReadsAll records.old text.old.items text.new.items r.0 r.1) }
{
    for count in 0..u32::MAX {
        match records.next_record() {
            Ok(Some(record)) => put_record(record, records.bytes(), head, text)?,
            Ok(None) => return Ok((count, None)),
            Err(fault) => return Ok((count, Some(fault))),
        }
    }
    Err(AllocError)
}

/// Returns the fault of a file in words, with its offset. No words if there is no fault.
fn words_for(alloc: Global, fault: Option<Fault>) -> Result<Vec<u8>, AllocError>
    ensures { IfOk result (λ words. HasNoWords fault words.items) }
{
    let mut words = Vec::new(alloc);
    if let Some(fault) = fault {
        if let Err(_) = write!(words, "{fault}") {
            return Err(AllocError);
        }
    }
    Ok(words)
}

/// What was read of a file.
#[derive(Drop)]
struct Text {
    /// The records, and after them the fault of the file.
    bytes: Vec<u8>,
    capture: PageCapture,
}

/// Reads all records of a file.
fn read_file(alloc: Global, file: &[u8]) -> Result<Text, AllocError>
    ensures { IfOk result (λ t. IsCaptureText file.now t.bytes.items t.capture) }
{
    let mut head = Buffer::new(alloc)?;
    let mut bytes = Vec::new(alloc);
    let buffer: Buffer<LONGEST_RECORD> = Buffer::new(alloc)?;
    let mut records = Records::new(file, buffer);
    let read = put_records(&mut records, &mut head, &mut bytes);
    let (_file, _room) = records.end();
    let (count, fault) = read?;
    let lines_len = bytes.len() as u64;
    let words = words_for(alloc, fault)?;
    bytes.extend_from_slice(words.as_slice())?;
    Ok(Text {
        bytes,
        capture: PageCapture {
            records: u64::from(count),
            lines_len,
        },
    })
}

/// Reads a capture file of either format, classic pcap or pcapng, and returns its records: `uint32_t
/// bsdudp_page_records(const uint8_t *file, size_t, uint8_t *room, size_t, size_t *len, struct page_capture *)`. Each
/// record is a line, `NUMBER TIME ORIGINAL CAPTURED LEN`, and then the LEN bytes of its IPv4 packet. NUMBER counts from
/// 1, as Wireshark does; TIME is in nanoseconds since 1970, or `-` if the file doesn't have it; ORIGINAL is how many
/// bytes the frame had, and CAPTURED how many of them the file has. LEN is 0 if there is no IPv4 packet in them. The
/// fault of the file, if it has one, follows the records, with its offset.
///
/// Returns 0, also for a file with a fault, and the bytes as `bsdudp_page_run` returns its replies. Or returns 3,
/// `Memory`: then `len` is 0, and the buffer and `capture` are unchanged.
#[unsafe(no_mangle)]
pub extern "C" fn bsdudp_page_records(
    alloc: Global,
    file: &[u8],
    buffer: &mut [u8],
    len: &mut usize,
    capture: &mut PageCapture,
) -> u32
    ensures recorded { Recorded file.now result len.new buffer.old buffer.new capture.new
        ⊎ IsCaptureUnread result len.new buffer.old buffer.new capture.old capture.new }
{
    match read_file(alloc, file) {
        Ok(text) => {
            *len = hand_over(text.bytes.as_slice(), buffer);
            *capture = text.capture;
            number_of(Ok(()))
        }
        Err(_) => {
            *len = 0;
            number_of(Err(RunFault::Memory))
        }
    }
}
