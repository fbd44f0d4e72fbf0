//! Captures that are played.
ghost use Rattle.std.specs.Prelude.{◌≡◌, ◌≤◌, ◌+◌, length, map, replicate};
ghost use Rattle.capture.specs.Seen.{captured};
ghost use Rattle.play_pcap.specs.Acts.{Passes};
ghost use Rattle.play_pcap.specs.Events as events;
ghost use Rattle.play_pcap.specs.Events.{Goes, IsOrdered, PlaysFile, Selects, acts_left, came, going, record_acts, tally_of, ticks_in};

use crate::ask::{Details, Range};
use crate::fault::CaptureFault;
use crate::moves::{Course, Moves, Tally};
use crate::wire::Wire;
use capture::pcap::{Header, ReadError, Record, read};
use std::alloc::Global;

/// Lets this many ticks pass.
fn tick_all<X: Wire>(wire: &mut X, count: u32)
    ensures { Goes X.may_go (replicate count Passes) (X.state wire.old) (X.state wire.new) }
{
    let mut left = count;
    while left > 0 {
        wire.tick();
        left -= 1;
    }
}

/// Plays all remaining packets with their ticks, and returns how many there were.
fn play_moves<X: Wire>(wire: &mut X, moves: &mut Moves<'_>) -> u64
    requires { moves.old.passed ≤ 65535 }
    ensures goes { Goes X.may_go (acts_left (going moves.old)) (X.state wire.old) (X.state wire.new) }
    ensures packets { result ≡ came (acts_left (going moves.old)) }
    ensures most { result ≤ length moves.old.rest.now }
    ensures ticks { moves.new.passed ≡ moves.old.passed + ticks_in (acts_left (going moves.old)) }
{
    let mut packets: u64 = 0;
    while let Some(next) = moves.next_move() {
        tick_all(wire, next.ticks);
        wire.rx(next.place, next.packet);
        packets += 1;
    }
    packets
}

/// Returns the records of a range, or `None` if the capture has fewer.
fn select<'a>(range: Option<Range>, records: &'a [Record<'a>]) -> Option<&'a [Record<'a>]>
    requires { IsOrdered range }
    ensures { Selects range records.now result }
{
    let Some(Range { first, last }) = range else {
        return Some(records);
    };
    let (front, end) = (first as usize - 1, last as usize);
    if end > records.len() {
        return None;
    }
    Some(&records[front..end])
}

/// Returns the number of the first record of a range, 1 without a range.
fn first_of(range: Option<Range>) -> u64
    ensures { result ≡ events.first_of range }
{
    match range {
        None => 1,
        Some(range) => u64::from(range.first),
    }
}

/// Returns the time of the first of these records.
fn begin_of(header: Header, records: &[Record<'_>]) -> u64
    ensures { result ≡ events.begin_of header (map captured records.now) }
{
    match records {
        [] => 0,
        [first, ..] => header.nanoseconds(first),
    }
}

/// Plays records of a capture; the first has this number.
fn play_records<X: Wire>(wire: &mut X, course: Course, number: u64, records: &[Record<'_>]) -> Tally
    ensures goes { Goes X.may_go (record_acts course number 0 (map captured records.now)) (X.state wire.old)
        (X.state wire.new) }
    ensures tally { result ≡ tally_of (length records.now) (record_acts course number 0 (map captured records.now)) }
{
    let mut moves = Moves {
        course,
        number,
        passed: 0,
        rest: records,
    };
    let packets = play_moves(wire, &mut moves);
    Tally {
        packets,
        others: records.len() as u64 - packets,
        ticks: moves.passed,
    }
}

/// Plays a capture, given all its bytes: the IPv4 packets of its records arrive in order, and other records are
/// counted. If `details.ticks` is set, a packet arrives after one tick for each half second between the times of the
/// first record that is played and of its own, at most 65,535 ticks.
///
/// # Errors
///
/// `Bad` with the first fault of a file that isn't a capture, is truncated, or claims a length that it doesn't have;
/// `TooFew` if it has fewer records than the range requests; `Memory` if the host refuses memory for the list of its
/// records (each has at least 16 bytes in the file). On error, nothing has arrived.
pub fn play_file<X: Wire>(
    alloc: Global,
    wire: &mut X,
    file: &[u8],
    details: Details,
) -> Result<Tally, CaptureFault>
    requires { IsOrdered details.range }
    ensures { PlaysFile X.may_go details file.now result (X.state wire.old) (X.state wire.new) }
{
    let capture = match read(alloc, file) {
        Ok(capture) => capture,
        Err(ReadError::Memory) => return Err(CaptureFault::Memory),
        Err(ReadError::Fault(fault)) => return Err(CaptureFault::Bad(fault)),
    };
    let header = capture.header;
    let all = capture.records.as_slice();
    let Some(records) = select(details.range, all) else {
        return Err(CaptureFault::TooFew);
    };
    let origin = begin_of(header, all);
    let begin = begin_of(header, records);
    let course = Course {
        header,
        origin,
        ticks: details.ticks,
        begin,
    };
    let first = first_of(details.range);
    Ok(play_records(wire, course, first, records))
}
