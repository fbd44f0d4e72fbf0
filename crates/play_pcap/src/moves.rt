//! The packets of a capture, one after another, with the ticks before each.
ghost use Rattle.std.specs.Prelude.{◌≡◌, ◌≤◌, length, IfSome};
ghost use Rattle.capture.specs.Seen.{captured};
ghost use Rattle.capture.specs.Records.{nanoseconds};
ghost use Rattle.play_pcap.specs.Events as events;

use crate::wire::RecordPlace;
use capture::pcap::{Header, LinkType, Record, ipv4_packet};

/// The most bytes of a packet.
const MOST_BYTES: usize = 65_535;

/// The most ticks that pass while a capture is played.
const MOST_TICKS: u64 = 65_535;

/// Half a second, in nanoseconds.
const TICK: u64 = 500_000_000;

/// The result of playing a capture.
#[derive(Clone, Copy, Debug, PartialEq, Eq)]
pub struct Tally {
    /// How many packets arrived.
    pub packets: u64,
    /// How many records had no IPv4 packet.
    pub others: u64,
    /// How many ticks passed.
    pub ticks: u32,
}

/// How records are played: the capture's header, the time of its first record, and the time from which ticks are
/// counted if they pass.
#[derive(Clone, Copy)]
pub(crate) struct Course {
    pub(crate) header: Header,
    pub(crate) origin: u64,
    pub(crate) ticks: bool,
    pub(crate) begin: u64,
}

/// A packet with its record, and the number of ticks that pass before it.
#[derive(Clone, Copy)]
pub(crate) struct Move<'a> {
    pub(crate) ticks: u32,
    pub(crate) place: RecordPlace,
    pub(crate) packet: &'a [u8],
}

/// The records that are left to play, the number of the first of them, and how many ticks have passed.
#[derive(Clone, Copy)]
pub(crate) struct Moves<'a> {
    pub(crate) course: Course,
    pub(crate) number: u64,
    pub(crate) passed: u32,
    pub(crate) rest: &'a [Record<'a>],
}

/// Returns the packet in a record, if it has one that a machine accepts.
fn packet_in<'a>(link: LinkType, bytes: &'a [u8]) -> Option<&'a [u8]>
    ensures is { events.seen_packet result ≡ events.packet_in_record link bytes.now }
    ensures short { IfSome result (λ p. length p.now ≤ 65535) }
{
    match ipv4_packet(link, bytes) {
        Ok(packet) if packet.len() <= MOST_BYTES => Some(packet),
        _ => None,
    }
}

impl Course {
    /// Returns how many ticks have passed before a record is played.
    fn due(&self, of: &Record<'_>) -> u32
        ensures is { result ≡ events.due self.now (captured of.now) }
        ensures most { result ≤ 65535 }
    {
        if !self.ticks {
            return 0;
        }
        let ticks = self.header.nanoseconds(of).saturating_sub(self.begin) / TICK;
        ticks.min(MOST_TICKS) as u32
    }

    /// Returns the place of the record of this number.
    fn place(&self, number: u64, of: &Record<'_>) -> RecordPlace
        ensures { result ≡ events.record_place self.now number (captured of.now) }
    {
        let time = self.header.nanoseconds(of).saturating_sub(self.origin);
        RecordPlace { number, time }
    }
}

impl<'a> Moves<'a> {
    /// Returns the next packet, with the ticks before it.
    pub(crate) fn next_move(&mut self) -> Option<Move<'a>>
        requires { self.old.passed ≤ 65535 }
        ensures is { events.Moves_on (events.going self.old) result (events.going self.new) }
        ensures passed { self.new.passed ≤ 65535 }
    {
        'records: loop {
            let [record, rest @ ..] = self.rest else {
                return None;
            };
            let record = *record;
            let number = self.number;
            let next = number.saturating_add(1);
            self.rest = rest;
            self.number = next;
            match packet_in(self.course.header.link, record.bytes) {
                None => {}
                Some(packet) => {
                    let due = self.course.due(&record);
                    let ticks = due.saturating_sub(self.passed);
                    self.passed = self.passed.max(due);
                    let place = self.course.place(number, &record);
                    return Some(Move {
                        ticks,
                        place,
                        packet,
                    });
                }
            }
        }
    }
}
