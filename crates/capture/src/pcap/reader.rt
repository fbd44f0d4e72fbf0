//! Reading files, record by record or as a whole.
ghost use Rattle.std.specs.Prelude.{◌≡◌, ◌+◌, ◌*◌, ◌^◌, ◌<◌, ◌≤◌, ◌++◌, drop, length, IfOk, IfErr, OnErr, Result};
ghost use Rattle.std.specs.Int.{w32};
ghost use Rattle.capture.specs.File.{ReturnsBy, header_of, number_of};
ghost use Rattle.capture.specs.Records.{FitsFields, IsCut, Reads, Steps, Whole, RecordReading, nanoseconds, record_bytes};
ghost use Rattle.capture.specs.Seen.{ReturnsUnlessMemory, captured, stepped};
ghost use Rattle.capture.specs.declared.pcap.fault.Fault.{Fault};

use crate::pcap::fault::{Fault, ReadError, Why};
use crate::pcap::header::{HEADER_BYTES, Header, Order, Resolution, read_header};
use crate::pcap::numbers::{first_u32, u32_at};
use std::alloc::Global;
use std::marker::Model;

/// Bytes of a record's header.
const RECORD_HEADER_BYTES: usize = 16;

/// A record: when a packet was captured, and the bytes that were. They are those of the file's link type.
#[derive(Clone, Copy, Debug)]
pub struct Record<'a> {
    /// Seconds since 1970-01-01, 00:00 UTC.
    pub seconds: u32,
    /// Microseconds or nanoseconds since that second, as the file's header says. Not checked: it may be a second or
    /// more.
    pub fraction: u32,
    /// How many bytes the packet had. Not checked: it may be less than what was captured.
    pub original_len: u32,
    /// The bytes that were captured.
    pub bytes: &'a [u8],
}

/// A reader of a file's records, in the order of the file. It allocates no memory.
#[derive(Drop)]
pub struct Reader<'a> {
    header: Header,
    file_len: usize,
    rest: &'a [u8],
}

impl<'a> Model for Reader<'a> {
    ghost use Rattle.std.specs.Prelude.{◌-◌, ◌≤◌, length};
    ghost use Rattle.capture.specs.Records.{RecordReading};

    ghost Value = { RecordReading };

    ghost view = { λ r. record { header = r.header; offset = r.file_len - length r.rest.now; rest = r.rest.now } };

    ghost invariant = { λ r. length r.rest.now ≤ r.file_len };
}

/// A file that was read to its end.
#[derive(Debug, Drop)]
pub struct Capture<'a> {
    pub header: Header,
    pub records: Vec<Record<'a>>,
}

/// Returns how many bytes were captured in the record that begins these bytes, as its header says. There must be at
/// least 16 bytes.
pub fn captured_len(order: Order, bytes: &[u8]) -> usize
    requires { 16 ≤ length bytes.now }
    ensures is { result ≡ number_of order w32 (drop 8 bytes.now) }
    ensures short { result < 2 ^ 32 }
{
    u32_at(order, bytes, 8) as usize
}

/// Returns the record at the beginning of these bytes, and the bytes after it. Fails with `RecordCut` if there are
/// fewer than its header's 16 bytes, and with `BytesCut` if there are fewer than the header says, with the offset in
/// these bytes.
pub fn first_record(order: Order, bytes: &[u8]) -> Result<(Record<'_>, &[u8]), Fault>
    requires { 0 < length bytes.now }
    ensures fits { IfOk result (λ r. FitsFields (captured r.0)) }
    ensures spelled { IfOk result (λ r. bytes.now ≡ record_bytes order (captured r.0) ++ r.1.now) }
    ensures sized { IfOk result (λ r. length bytes.now ≡ 16 + number_of order w32 (drop 8 bytes.now) + length r.1.now) }
    ensures cut { IfErr result (λ f. IsCut f.why order bytes.now f.offset) }
    ensures short { OnErr result (length bytes.now < 16 + number_of order w32 (drop 8 bytes.now)) }
    ensures inside { IfErr result (λ f. f.offset ≤ 8) }
{
    if bytes.len() < RECORD_HEADER_BYTES {
        return Err(Why::RecordCut.at(0));
    }
    let (seconds, rest) = first_u32(order, bytes);
    let (fraction, rest) = first_u32(order, rest);
    let (captured, rest) = first_u32(order, rest);
    let (original_len, rest) = first_u32(order, rest);
    let captured = captured as usize;
    if rest.len() < captured {
        return Err(Why::BytesCut.at(8));
    }
    let (bytes, rest) = rest.split_at(captured);
    Ok((
        Record {
            seconds,
            fraction,
            original_len,
            bytes,
        },
        rest,
    ))
}

impl<'a> Reader<'a> {
    /// Opens a file, of which all bytes are given. Fails with the first fault of its header: `HeaderCut`, `BadMagic`,
    /// `BadVersion`, `BadLinkType`.
    pub fn open(file: &'a [u8]) -> Result<Reader<'a>, Fault>
        ensures header { ReturnsBy (λ r. r.header) result (header_of file.now) }
        ensures start { IfOk result (λ r. (r.offset ≡ 24) × (r.rest ≡ drop 24 file.now)) }
    {
        let header = read_header(file)?;
        let (_, rest) = file.split_at(HEADER_BYTES);
        Ok(Reader {
            header,
            file_len: file.len(),
            rest,
        })
    }

    /// Returns the file's header.
    pub fn header(&self) -> Header
        ensures { result ≡ self.now.header }
    {
        self.header
    }

    /// Returns how many bytes of the file have been read.
    pub fn offset(&self) -> usize
        ensures { result ≡ self.now.offset }
    {
        self.file_len - self.rest.len()
    }

    /// Returns the next record, or `None` at the end of the file. Fails with `RecordCut` or `BytesCut`; the reader is
    /// then unchanged, and returns the same again.
    pub fn next_record(&mut self) -> Result<Option<Record<'a>>, Fault>
        ensures { Steps self.old self.new (stepped result) }
    {
        if self.rest.is_empty() {
            return Ok(None);
        }
        match first_record(self.header.order, self.rest) {
            Ok((record, rest)) => {
                self.rest = rest;
                Ok(Some(record))
            }
            Err(found) => Err(found.why.at(self.offset() + found.offset)),
        }
    }
}

impl Header {
    /// Returns a record's time in nanoseconds since 1970-01-01, 00:00 UTC.
    pub fn nanoseconds(&self, of: &Record<'_>) -> u64
        ensures { result ≡ nanoseconds self.now.resolution of.now.seconds of.now.fraction }
    {
        let unit = match self.resolution {
            Resolution::Microseconds => 1_000,
            Resolution::Nanoseconds => 1,
        };
        u64::from(of.seconds) * 1_000_000_000 + u64::from(of.fraction) * unit
    }
}

/// Reads a whole file.
fn read_all<'a>(alloc: Global, file: &'a [u8]) -> Result<Capture<'a>, ReadError>
    ensures { ReturnsUnlessMemory result (Reads file.now) }
{
    let mut reader = Reader::open(file)?;
    let mut records = Vec::new(alloc);
    while let Some(record) = reader.next_record()? {
        records.push(record)?;
    }
    Ok(Capture {
        header: reader.header(),
        records,
    })
}

/// Reads a whole file. Fails with its first fault, or `Memory`.
#[tactic(auto, using(crate::proofs::Answered::only_one))]
pub fn read<'a>(alloc: Global, file: &'a [u8]) -> Result<Capture<'a>, ReadError>
    ensures found { ReturnsUnlessMemory result (Reads file.now) }
    ensures only { (outcome : Result Whole Fault) → Reads file.now outcome
        → ReturnsUnlessMemory result (λ answer. answer ≡ outcome) }
{
    read_all(alloc, file)
}
