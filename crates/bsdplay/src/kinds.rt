//! What the records of a capture contain, counted for the summary.
use crate::link_names::name_of;
use capture::Record;
use capture::pcap::{NoPacket, ipv4_packet};
use std::io::{self, Write};

/// How many kinds there are.
const KINDS: usize = 10;

/// The content of a record.
#[derive(Clone, Copy)]
enum Kind {
    Udp,
    Tcp,
    Icmp,
    /// IPv4 with another protocol, or cut before the protocol.
    OtherIpv4,
    Ipv6,
    Arp,
    Pppoe,
    /// A frame of another kind.
    Other,
    /// A frame that ends within its link header.
    Cut,
    /// A link type that isn't read.
    Link,
}

/// The kinds, with their names.
static NAMES: [&str; KINDS] = [
    "UDP",
    "TCP",
    "ICMP",
    "other IPv4",
    "IPv6",
    "ARP",
    "PPPoE",
    "other frames",
    "cut in the link header",
    "of link type",
];

/// Returns the kind of an IPv4 packet.
fn kind_of_packet(packet: &[u8]) -> Kind {
    match packet.get(9).copied() {
        Some(17) => Kind::Udp,
        Some(6) => Kind::Tcp,
        Some(1) => Kind::Icmp,
        _ => Kind::OtherIpv4,
    }
}

/// Returns the kind of a frame without IPv4.
fn kind_of_frame(why: NoPacket) -> Kind {
    match why {
        NoPacket::FrameCut => Kind::Cut,
        NoPacket::OtherProtocol(0x0806) => Kind::Arp,
        NoPacket::OtherProtocol(0x86dd | 0x0057) => Kind::Ipv6,
        NoPacket::OtherProtocol(0x8863 | 0x8864) => Kind::Pppoe,
        // AF_INET6 of Linux, of three BSDs, and of macOS.
        NoPacket::OtherFamily(10 | 24 | 28 | 30) => Kind::Ipv6,
        NoPacket::OtherVersion(6) => Kind::Ipv6,
        _ => Kind::Other,
    }
}

/// Returns the kind of a record, and why it has no IPv4.
fn kind_of(record: Record, bytes: &[u8]) -> (Kind, Option<NoPacket>) {
    match record.link {
        None => (Kind::Link, None),
        Some(link) => match ipv4_packet(link, bytes) {
            Ok(packet) => (kind_of_packet(packet), None),
            Err(why) => (kind_of_frame(why), Some(why)),
        },
    }
}

impl Kind {
    /// Returns the index of its count.
    fn place(self) -> usize {
        match self {
            Kind::Udp => 0,
            Kind::Tcp => 1,
            Kind::Icmp => 2,
            Kind::OtherIpv4 => 3,
            Kind::Ipv6 => 4,
            Kind::Arp => 5,
            Kind::Pppoe => 6,
            Kind::Other => 7,
            Kind::Cut => 8,
            Kind::Link => 9,
        }
    }
}

/// How many records there are of each kind.
#[derive(Clone, Copy)]
pub(crate) struct Kinds {
    records: u64,
    counts: [u64; KINDS],
    /// The first link type that isn't read.
    link: u16,
    /// Why the first of the other frames has no IPv4.
    other: Option<NoPacket>,
}

/// The kinds of a range of indices.
#[derive(Clone, Copy)]
struct Part {
    from: usize,
    to: usize,
}

/// The kinds without IPv4.
const WITHOUT: usize = 4;

impl Kinds {
    /// No record was counted.
    pub(crate) fn new() -> Kinds {
        Kinds {
            records: 0,
            counts: [0; KINDS],
            link: 0,
            other: None,
        }
    }

    /// Counts a record.
    pub(crate) fn add(&mut self, record: Record, bytes: &[u8]) {
        let (kind, why) = kind_of(record, bytes);
        self.records = self.records.saturating_add(1);
        if matches!(kind, Kind::Link) && self.count(Kind::Link) == 0 {
            self.link = record.link_number;
        }
        if matches!(kind, Kind::Other) && self.other.is_none() {
            self.other = why;
        }
        if let Some(count) = self.counts.get_mut(kind.place()) {
            *count = count.saturating_add(1);
        }
    }

    /// Returns how many records there are of a kind.
    fn count(&self, kind: Kind) -> u64 {
        self.count_at(kind.place())
    }

    /// Returns the count at an index.
    fn count_at(&self, kind: usize) -> u64 {
        self.counts.get(kind).copied().unwrap_or(0)
    }

    /// Writes the counts of a part of the kinds that aren't 0, such as `4 TCP, 2 ARP`.
    fn write_part(&self, out: &mut impl Write, part: Part) -> io::Result<()> {
        let mut is_first = true;
        for kind in part.from..part.to {
            let count = self.count_at(kind);
            if count != 0 {
                let name = match (kind, count) {
                    (7, 1) => "other frame",
                    _ => NAMES.get(kind).copied().unwrap_or(""),
                };
                write!(out, "{}{count} {name}", if is_first { "" } else { ", " })?;
                is_first = false;
                if kind == Kind::Other.place() {
                    self.write_other(out, count)?;
                }
            }
        }
        if part.to == KINDS && self.count(Kind::Link) != 0 {
            write!(out, " {}", self.link)?;
            if let Some(name) = name_of(self.link) {
                write!(out, " ({name})")?;
            }
        }
        Ok(())
    }

    /// Writes the number by which the first of the other frames isn't IPv4, such as ` (protocol 0x88b5)`.
    fn write_other(&self, out: &mut impl Write, count: u64) -> io::Result<()> {
        let Some(why) = self.other else {
            return Ok(());
        };
        let front = if count == 1 { "" } else { "first: " };
        let tag = match why {
            NoPacket::OtherProtocol(0x8100 | 0x88a8) => ", a third VLAN tag",
            _ => "",
        };
        write!(out, " ({front}{why}{tag})")
    }

    /// Writes all counts, such as `4 records: 4 TCP.`.
    pub(crate) fn write_all(&self, out: &mut impl Write) -> io::Result<()> {
        if self.records == 0 {
            return out.write_all(b"No records.\n");
        }
        let word = if self.records == 1 {
            "record"
        } else {
            "records"
        };
        write!(out, "{} {word}: ", self.records)?;
        self.write_part(out, Part { from: 0, to: KINDS })?;
        out.write_all(b".\n")
    }

    /// Writes the counts of records without IPv4, such as ` (2 ARP)`. Without such a record it writes nothing.
    pub(crate) fn write_without(&self, out: &mut impl Write) -> io::Result<()> {
        let mut any = false;
        for kind in WITHOUT..KINDS {
            any = any || self.count_at(kind) != 0;
        }
        if any {
            out.write_all(b" (")?;
            self.write_part(
                out,
                Part {
                    from: WITHOUT,
                    to: KINDS,
                },
            )?;
            out.write_all(b")")?;
        }
        Ok(())
    }

    /// Writes the counts as the members of a JSON object: the summary of a capture without UDP for a host.
    pub(crate) fn write_object(&self, out: &mut impl Write) -> io::Result<()> {
        write!(
            out,
            "{{\"summary\":{{\"host\":null,\"records\":{},\"udp\":{},\"tcp\":{},\"icmp\":{}",
            self.records,
            self.count(Kind::Udp),
            self.count(Kind::Tcp),
            self.count(Kind::Icmp),
        )?;
        writeln!(
            out,
            ",\"other_ipv4\":{},\"ipv6\":{},\"arp\":{},\"other\":{}}}}}",
            self.count(Kind::OtherIpv4),
            self.count(Kind::Ipv6),
            self.count(Kind::Arp),
            self.others(),
        )
    }

    /// Returns how many records are of kinds that the summary doesn't name.
    fn others(&self) -> u64 {
        self.count(Kind::Pppoe)
            .saturating_add(self.count(Kind::Other))
            .saturating_add(self.count(Kind::Cut))
            .saturating_add(self.count(Kind::Link))
    }
}
