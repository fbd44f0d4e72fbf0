//! A capture of either format, record by record.
ghost use Rattle.std.specs.Prelude.{◌≡◌, ◌≤◌, [], length, IfOk};
ghost use Rattle.capture.specs.Packets.{IsInside};
ghost use Rattle.capture.specs.Places.{FindsIn, Opens, Steps, kind_in, place_of, start};

use crate::blocks::{Blocks, Found};
use crate::classic::read_record;
use crate::fault::{Fault, FaultAt, Why};
use crate::feed::{Feed, LONGEST_RECORD};
use crate::pcap::{Header, LinkType, Reader};
use crate::section::{EMPTY_BLOCK, read_packet};
use arrayvec::ArrayVec;
use script_loop::{Buffer, Source};
use std::marker::Model;

/// Bytes of a classic file's header.
const FILE_HEADER: usize = 24;

/// A record of a capture: a packet, or a frame with one.
#[derive(Clone, Copy, Debug, PartialEq, Eq)]
pub struct Record {
    /// Its number, from 1, as Wireshark counts.
    pub number: u64,
    /// When it was captured, in nanoseconds since 1970-01-01, 00:00 UTC; `None` if the file doesn't say, as a simple
    /// packet block of pcapng doesn't.
    pub time: Option<u64>,
    /// How many bytes it had. Not checked: it may be less than what was captured.
    pub original_len: u32,
    /// The number of the link type of its bytes.
    pub link_number: u16,
    /// The link type, if `pcap` knows it.
    pub link: Option<LinkType>,
}

/// The kind of a file, by its first bytes.
#[derive(Clone, Copy)]
pub(crate) enum Kind {
    Gzip,
    Pcapng,
    Classic,
}

/// The format of a file, as far as it was determined.
#[derive(Clone, Copy)]
pub(crate) enum Format {
    /// Nothing was read so far.
    Unread,
    /// A classic file with this header.
    Classic(Header),
    Pcapng,
}

/// Returns the kind of a file with these first bytes.
fn kind_of(bytes: &[u8]) -> Kind
    ensures { result ≡ kind_in bytes.now }
{
    if bytes.len() >= 2 && bytes[0] == 0x1f && bytes[1] == 0x8b {
        return Kind::Gzip;
    }
    if bytes.len() >= 4
        && bytes[0] == 0x0a
        && bytes[1] == 0x0d
        && bytes[2] == 0x0d
        && bytes[3] == 0x0a
    {
        return Kind::Pcapng;
    }
    Kind::Classic
}

/// A file that is being read.
pub(crate) struct Course<S: Source> {
    pub(crate) feed: Feed<S>,
    pub(crate) blocks: Blocks,
    pub(crate) format: Format,
    pub(crate) number: u64,
    pub(crate) offset: u64,
}

/// Reads the first bytes of a file into an empty buffer. Returns the header of a classic file; for a pcapng file, the
/// buffer then holds the first bytes of the first block. Fails with `NotRead`, with `Gzip`, or with the fault of the
/// header.
#[tactic(auto, using(crate::proofs::Opening::bad_header, crate::proofs::Opening::short_header))]
fn open<S: Source>(feed: &mut Feed<S>) -> Result<Option<Header>, FaultAt>
    requires { feed.old.buffer ≡ [] }
    ensures { Opens (S.remaining feed.old.source) (S.remaining feed.new.source) feed.new.buffer result }
{
    if let Err(error) = feed.fill(EMPTY_BLOCK) {
        return Err(error);
    }
    match kind_of(feed.buffer.as_slice()) {
        Kind::Gzip => Err(FaultAt {
            why: Why::Gzip,
            at: 0,
        }),
        Kind::Pcapng => Ok(None),
        Kind::Classic => {
            if feed.buffer.len() < EMPTY_BLOCK {
                return Err(FaultAt {
                    why: Why::Classic(crate::pcap::Why::HeaderCut),
                    at: 0,
                });
            }
            if let Err(error) = feed.fill(FILE_HEADER) {
                return Err(error);
            }
            match Reader::open(feed.buffer.as_slice()) {
                Ok(reader) => Ok(Some(reader.header())),
                Err(found) => Err(found.into()),
            }
        }
    }
}

/// Returns the next packet, and the place of its bytes in the buffer, which must be empty. Opens the file at the first
/// call.
fn find<S: Source>(course: &mut Course<S>) -> Result<Option<Found>, FaultAt>
    requires empty { course.old.feed.buffer ≡ [] }
    ensures finds { FindsIn course.old.format (place_of course.old.format course.old.blocks course.old.number
        course.old.offset (S.remaining course.old.feed.source)) (place_of course.new.format course.new.blocks
        course.new.number course.new.offset (S.remaining course.new.feed.source)) course.new.feed.buffer result }
    ensures number { course.new.number ≡ course.old.number }
    ensures inside { IfOk result (IsInside (length course.new.feed.buffer)) }
{
    match course.format {
        Format::Unread => match open(&mut course.feed) {
            Ok(Some(header)) => {
                course.format = Format::Classic(header);
                course.offset = 24;
                course.feed.buffer.clear();
                read_record(&mut course.feed, header)
            }
            Ok(None) => {
                course.format = Format::Pcapng;
                read_packet(&mut course.feed, &mut course.blocks, &mut course.offset)
            }
            Err(error) => Err(error),
        },
        Format::Classic(header) => read_record(&mut course.feed, header),
        Format::Pcapng => { read_packet(&mut course.feed, &mut course.blocks, &mut course.offset) }
    }
}

/// A reader of a capture's records, in the order of the file. It holds one record of the file at a time.
pub struct Records<S: Source> {
    course: Course<S>,
    /// The fault after which reading ended.
    fault: Option<Fault>,
    /// The offset in the buffer of the bytes of the last record.
    from: usize,
    len: usize,
}

impl<S: Source> Model for Records<S> {
    ghost use Rattle.std.specs.Prelude.{◌+◌, ◌≤◌, drop, length, take};
    ghost use Rattle.capture.specs.Places.{Reading, place_of};

    ghost Value = { Reading };

    ghost view = { λ r. record {
      place = place_of r.course.format r.course.blocks r.course.number r.course.offset
          (S.remaining r.course.feed.source);
      fault = r.fault;
      bytes = take r.len (drop r.from r.course.feed.buffer);
    } };

    ghost invariant = { λ r. r.from + r.len ≤ length r.course.feed.buffer };
}

impl<S: Source> Records<S> {
    /// Returns a reader at the start of a file. Nothing is read yet.
    pub fn new(source: S, buffer: Buffer<LONGEST_RECORD>) -> Records<S>
        ensures { result ≡ start (S.remaining source) }
    {
        Records {
            course: Course {
                feed: Feed { source, buffer },
                blocks: Blocks {
                    order: None,
                    interfaces: ArrayVec::new(),
                },
                format: Format::Unread,
                number: 0,
                offset: 0,
            },
            fault: None,
            from: 0,
            len: 0,
        }
    }

    /// Returns the next record, or `None` at the end of the file. After an error, every call returns the same error.
    ///
    /// # Errors
    ///
    /// The fault of the file, with its offset. All records before that offset were returned.
    pub fn next_record(&mut self) -> Result<Option<Record>, Fault>
        ensures { Steps self.old self.new result }
    {
        self.from = 0;
        self.len = 0;
        if let Some(fault) = self.fault {
            return Err(fault);
        }
        self.course.feed.buffer.clear();
        match find(&mut self.course) {
            Ok(None) => Ok(None),
            Ok(Some(found)) => {
                self.course.number = self.course.number.saturating_add(1);
                let read = self.course.feed.buffer.len() as u64;
                self.course.offset = self.course.offset.saturating_add(read);
                self.from = found.from;
                self.len = found.len;
                Ok(Some(Record {
                    number: self.course.number,
                    time: found.time,
                    original_len: found.original_len,
                    link_number: found.link_number,
                    link: found.link,
                }))
            }
            Err(error) => {
                let fault = Fault {
                    why: error.why,
                    offset: self.course.offset.saturating_add(error.at as u64),
                };
                self.fault = Some(fault);
                Err(fault)
            }
        }
    }

    /// Returns the captured bytes of the record that was read last; no bytes before the first record, at the end and
    /// after a fault.
    pub fn bytes(&self) -> &[u8]
        ensures { result.now ≡ self.now.bytes }
    {
        &self.course.feed.buffer.as_slice()[self.from..self.from + self.len]
    }

    /// Ends reading, and returns the source and the buffer.
    pub fn end(self) -> (S, Buffer<LONGEST_RECORD>)
        ensures { S.remaining result.0 ≡ self.place.rest }
    {
        let Records {
            course,
            fault: _fault,
            from: _from,
            len: _len,
        } = self;
        let Course {
            feed,
            blocks: _blocks,
            format: _format,
            number: _number,
            offset: _offset,
        } = course;
        let Feed { source, buffer } = feed;
        (source, buffer)
    }
}
