//! Captures of either format, as whole files. The player of captures reads classic files, so a pcapng file is converted
//! to one: with the same records and times, and with the packets instead of their frames, since these may be of several
//! link types.
use byteorder::{ByteOrder, LittleEndian};
use capture::pcap::ipv4_packet;
use capture::{Fault, LONGEST_RECORD, Record, Records};
use play_pcap::{CaptureFault, read_whole};
use play_script::Silent;
use script_loop::{Buffer, Source};
use std::alloc::{AllocError, Global};
use std::fs;

/// The first bytes of a pcapng file, and of one that gzip compressed.
const PCAPNG: [u8; 4] = [0x0a, 0x0d, 0x0d, 0x0a];

const GZIP: [u8; 2] = [0x1f, 0x8b];

/// The magic number of a classic file with nanoseconds.
const MAGIC: u32 = 0xa1b2_3c4d;

/// Bytes of a packet at most, and the link type Ethernet.
const SNAP_LEN: u32 = 65_549;

const ETHERNET: u32 = 1;

/// An Ethernet header for an IPv4 packet, and one without a protocol.
const IPV4_FRAME: [u8; 14] = [0, 0, 0, 0, 0, 0, 0, 0, 0, 0, 0, 0, 0x08, 0x00];

const OTHER_FRAME: [u8; 14] = [0; 14];

const NANOSECONDS: u64 = 1_000_000_000;

/// Why a file has no classic form.
#[derive(Clone, Copy)]
pub(crate) enum Unread {
    Whole(CaptureFault),
    Bad(Fault),
}

/// Returns the header of a classic file: little endian, version 2.4, nanoseconds, Ethernet.
fn file_header() -> [u8; 24] {
    let mut header = [0; 24];
    LittleEndian::write_u32(&mut header, MAGIC);
    LittleEndian::write_u16_into(&[2, 4], &mut header[4..8]);
    LittleEndian::write_u32_into(&[0, 0, SNAP_LEN, ETHERNET], &mut header[8..]);
    header
}

/// Returns the header of a record with this time in nanoseconds and this many bytes. The format has no time after the
/// year 2106.
fn record_header(time: u64, len: u32) -> [u8; 16] {
    let seconds = (time / NANOSECONDS).min(u64::from(u32::MAX)) as u32;
    let mut header = [0; 16];
    LittleEndian::write_u32_into(
        &[seconds, (time % NANOSECONDS) as u32, len, len],
        &mut header,
    );
    header
}

/// Adds a record with the packet in these bytes, or with none.
fn push_record(
    file: &mut Vec<u8>,
    record: Record,
    time: u64,
    bytes: &[u8],
) -> Result<(), AllocError> {
    let packet = match record.link {
        Some(link) => ipv4_packet(link, bytes).ok(),
        None => None,
    };
    let (front, packet) = match packet {
        Some(packet) => (IPV4_FRAME, packet),
        None => (OTHER_FRAME, [].as_slice()),
    };
    let len = (front.len() + packet.len().min(LONGEST_RECORD)) as u32;
    file.extend_from_slice(&record_header(time, len))?;
    file.extend_from_slice(&front)?;
    file.extend_from_slice(&packet[..packet.len().min(LONGEST_RECORD)])
}

/// Returns the records as a classic file. A record without a time has that of the one before it.
fn classic_of<S: Source>(alloc: Global, records: &mut Records<S>) -> Result<Vec<u8>, Unread> {
    let lacking = Unread::Whole(CaptureFault::Memory);
    let mut file = Vec::new(alloc);
    if file.extend_from_slice(&file_header()).is_err() {
        return Err(lacking);
    }
    let mut time = 0;
    for _ in 0..u64::MAX {
        let record = match records.next_record() {
            Ok(Some(record)) => record,
            Ok(None) => break,
            Err(fault) => return Err(Unread::Bad(fault)),
        };
        time = record.time.unwrap_or(time);
        if push_record(&mut file, record, time, records.bytes()).is_err() {
            return Err(lacking);
        }
    }
    Ok(file)
}

/// Returns a whole file in classic format: unchanged, unless it's a pcapng file or compressed by gzip.
fn classic_form(alloc: Global, file: Vec<u8>) -> Result<Vec<u8>, Unread> {
    if !file.starts_with(&PCAPNG) && !file.starts_with(&GZIP) {
        return Ok(file);
    }
    let Ok(room) = Buffer::new(alloc) else {
        return Err(Unread::Whole(CaptureFault::Memory));
    };
    let mut records = Records::new(file.as_slice(), room);
    let classic = classic_of(alloc, &mut records);
    let (_rest, _room) = records.end();
    classic
}

/// All that a source has left, in classic form.
fn load_source<S: Source + Drop>(alloc: Global, mut source: S) -> Result<Vec<u8>, Unread> {
    match read_whole(alloc, &mut source) {
        Ok(file) => classic_form(alloc, file),
        Err(fault) => Err(Unread::Whole(fault)),
    }
}

/// Returns the capture of this name in classic form; `-` is standard input.
pub(crate) fn load_capture(rt: &HostRuntime, name: &str) -> Result<Vec<u8>, Unread> {
    if name == "-" {
        return load_source(rt.alloc(), Silent(rt.stdin()));
    }
    load_file(rt, rt.alloc(), name)
}

/// Returns the capture in a file in classic form.
pub(crate) fn load_file(rt: &HostRuntime, alloc: Global, name: &str) -> Result<Vec<u8>, Unread> {
    match fs::open(rt, name) {
        Ok(file) => load_source(alloc, Silent(file)),
        Err(_) => Err(Unread::Whole(CaptureFault::NotOpened)),
    }
}
