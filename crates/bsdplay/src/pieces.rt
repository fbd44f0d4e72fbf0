//! The fragments that the host keeps, as the capture shows them: the ports of their datagrams, the missing bytes, and
//! bytes that differ where fragments overlap.
use crate::vlan::number_at;
use play_text::Fate;
use play_why::{Layout, Verdict};
use std::alloc::{AllocError, Global};
use std::io::{self, Write};

/// The key by which fragments belong together (RFC 791, section 3.2).
#[derive(Clone, Copy, PartialEq, Eq)]
pub(crate) struct Key {
    pub(crate) source: u32,
    pub(crate) destination: u32,
    protocol: u8,
    id: u16,
}

/// The source port and the destination port of a datagram, if they are known.
pub(crate) type Ports = (Option<u16>, Option<u16>);

/// A fragment that is kept.
#[derive(Drop)]
struct Piece {
    key: Key,
    number: u64,
    first: usize,
    /// The least offset at which a byte of it is kept.
    owned: usize,
    is_last: bool,
    bytes: Vec<u8>,
}

/// The ports of an unfinished datagram.
#[derive(Clone, Copy)]
struct Known {
    key: Key,
    ports: Ports,
}

/// Bytes of two fragments that overlap and differ.
#[derive(Clone, Copy)]
struct Overlap {
    /// The record of the fragment that was kept.
    with: u64,
    first: usize,
    last: usize,
    /// The record whose bytes are kept.
    stays: u64,
}

/// The fragments that are kept, and where the last one overlaps others with different bytes.
#[derive(Drop)]
pub(crate) struct Pieces {
    alloc: Global,
    kept: Vec<Piece>,
    known: Vec<Known>,
    overlaps: Vec<Overlap>,
}

/// A fragment that has just arrived.
#[derive(Clone, Copy)]
struct New<'a> {
    key: Key,
    number: u64,
    first: usize,
    is_last: bool,
    bytes: &'a [u8],
}

/// Returns the key of a packet with a verdict.
fn key_by(verdict: &Verdict) -> Option<Key> {
    let ends = verdict.ends?;
    Some(Key {
        source: ends.source,
        destination: ends.destination,
        protocol: ends.protocol,
        id: ends.id,
    })
}

/// Returns the key of a packet with a whole header.
fn key_of(packet: &[u8]) -> Option<Key> {
    let (a, b) = (number_at(packet, 12)?, number_at(packet, 14)?);
    let (c, d) = (number_at(packet, 16)?, number_at(packet, 18)?);
    Some(Key {
        source: u32::from(a) * 65_536 + u32::from(b),
        destination: u32::from(c) * 65_536 + u32::from(d),
        protocol: packet.get(9).copied()?,
        id: number_at(packet, 4)?,
    })
}

/// Returns how many bytes a packet's header has, as it says.
fn header_of(packet: &[u8]) -> usize {
    match packet.first() {
        Some(first) => usize::from(*first % 16) * 4,
        None => 0,
    }
}

/// Returns where a packet's bytes begin in its datagram.
fn offset_of(packet: &[u8]) -> usize {
    usize::from(number_at(packet, 6).unwrap_or(0) % 8192) * 8
}

/// Returns whether more fragments follow.
fn has_more(packet: &[u8]) -> bool {
    number_at(packet, 6).unwrap_or(0) / 8192 % 2 == 1
}

/// Returns the ports that a packet of UDP or TCP shows.
fn ports_in(packet: &[u8]) -> Ports {
    let at = header_of(packet);
    match packet.get(9) {
        Some(6 | 17) if offset_of(packet) == 0 => (
            number_at(packet, at),
            number_at(packet, at.saturating_add(2)),
        ),
        _ => (None, None),
    }
}

/// Returns the bytes that a fragment carries.
fn bytes_of(packet: &[u8]) -> &[u8] {
    let end = usize::from(number_at(packet, 2).unwrap_or(0)).min(packet.len());
    packet.get(header_of(packet).min(end)..end).unwrap_or(&[])
}

/// Returns how two fragments overlap, if their bytes differ there.
fn overlap_of(old: &Piece, new: New<'_>) -> Option<Overlap> {
    let first = new.first.max(old.owned);
    let end = new
        .first
        .saturating_add(new.bytes.len())
        .min(old.first.saturating_add(old.bytes.len()));
    if end <= first {
        return None;
    }
    let ours = old.bytes.as_slice().get(
        first.saturating_sub(old.first)..end.saturating_sub(old.first),
    )?;
    let theirs = new.bytes.get(first.saturating_sub(new.first)..end.saturating_sub(new.first))?;
    if ours == theirs {
        return None;
    }
    Some(Overlap {
        with: old.number,
        first,
        last: end.saturating_sub(1),
        stays: if old.owned <= new.first {
            old.number
        } else {
            new.number
        },
    })
}

impl Pieces {
    /// None is kept.
    pub(crate) fn new(alloc: Global) -> Pieces {
        Pieces {
            alloc,
            kept: Vec::new(alloc),
            known: Vec::new(alloc),
            overlaps: Vec::new(alloc),
        }
    }

    /// Returns the ports that are known of a datagram.
    fn ports_by(&self, key: Key) -> Ports {
        let mut ports = (None, None);
        for known in self.known.as_slice() {
            if known.key == key {
                ports = known.ports;
            }
        }
        ports
    }

    /// Returns the ports of a packet's datagram: those that the packet shows, or those of a fragment that is kept.
    pub(crate) fn ports_for(&self, packet: &[u8]) -> Ports {
        if offset_of(packet) == 0 {
            return ports_in(packet);
        }
        match key_of(packet) {
            Some(key) => self.ports_by(key),
            None => (None, None),
        }
    }

    /// Forgets the fragments of a datagram.
    fn remove(&mut self, key: Key) {
        self.kept.retain(|piece| piece.key != key);
        self.known.retain(|known| known.key != key);
    }

    /// Finds where a fragment overlaps those that are kept with different bytes.
    fn find_overlaps(&mut self, new: New<'_>) -> Result<(), AllocError> {
        let Pieces { kept, overlaps, .. } = self;
        for old in kept.as_slice() {
            if old.key == new.key {
                if let Some(overlap) = overlap_of(old, new) {
                    overlaps.push(overlap)?;
                }
            }
        }
        Ok(())
    }

    /// Keeps a fragment. Where it overlaps others, the bytes of the one that begins first are kept (volume 2, chapter
    /// 10).
    fn keep(&mut self, new: New<'_>, ports: Ports) -> Result<(), AllocError> {
        let end = new.first.saturating_add(new.bytes.len());
        let mut owned = new.first;
        for old in self.kept.as_mut_slice() {
            if old.key == new.key {
                if old.owned <= new.first {
                    owned = owned.max(old.first.saturating_add(old.bytes.len()));
                } else if old.owned < end {
                    old.owned = end;
                }
            }
        }
        let mut bytes = Vec::new(self.alloc);
        bytes.extend_from_slice(new.bytes)?;
        self.kept.push(Piece {
            key: new.key,
            number: new.number,
            first: new.first,
            owned,
            is_last: new.is_last,
            bytes,
        })?;
        if new.first == 0 {
            self.known.push(Known {
                key: new.key,
                ports,
            })?;
        }
        Ok(())
    }

    /// Notes a verdict on a packet: a fragment is kept, or its datagram is whole and is forgotten.
    pub(crate) fn note(&mut self, packet: &[u8], verdict: &Verdict) -> Result<(), AllocError> {
        self.overlaps.clear();
        let is_fragment = offset_of(packet) != 0 || has_more(packet);
        let (Some(key), true) = (key_by(verdict), is_fragment) else {
            return Ok(());
        };
        let new = New {
            key,
            number: verdict.number,
            first: offset_of(packet),
            is_last: !has_more(packet),
            bytes: bytes_of(packet),
        };
        self.find_overlaps(new)?;
        match verdict.fate {
            Fate::Kept => self.keep(new, ports_in(packet)),
            Fate::Whole => {
                self.remove(key);
                Ok(())
            }
            Fate::Other => Ok(()),
        }
    }

    /// Writes where the last fragment overlaps others with different bytes.
    pub(crate) fn write_overlaps(
        &self,
        number: u64,
        layout: Layout,
        out: &mut impl Write,
    ) -> io::Result<()> {
        for it in self.overlaps.as_slice() {
            let (with, first, last, stays) = (it.with, it.first, it.last, it.stays);
            match layout {
                Layout::Lines => writeln!(
                    out,
                    "    bytes {first} to {last} differ from those of record {with}: those of record {stays} are kept"
                )?,
                Layout::Objects => writeln!(
                    out,
                    "{{\"overlap\":{number},\"with\":{with},\"first\":{first},\"last\":{last},\"kept\":{stays}}}"
                )?,
            }
        }
        Ok(())
    }

    /// Returns the key of the datagram whose fragments are in these records.
    pub(crate) fn key_in(&self, numbers: &[u64]) -> Option<Key> {
        let first = numbers.first().copied()?;
        for piece in self.kept.as_slice() {
            if piece.number == first {
                return Some(piece.key);
            }
        }
        None
    }

    /// Returns the first byte at or after an offset that a datagram has, and the end of those that follow it.
    fn next_run(&self, key: Key, at: usize) -> Option<(usize, usize)> {
        let mut run: Option<(usize, usize)> = None;
        for piece in self.kept.as_slice() {
            let end = piece.first.saturating_add(piece.bytes.len());
            if piece.key == key && at < end {
                let first = piece.first.max(at);
                run = match run {
                    Some(found) if found.0 <= first => Some(found),
                    _ => Some((first, end)),
                };
            }
        }
        run
    }

    /// Writes the missing bytes of a datagram, as words or as a JSON array.
    pub(crate) fn write_missing(
        &self,
        key: Key,
        layout: Layout,
        out: &mut impl Write,
    ) -> io::Result<()> {
        let (mut at, mut comma) = (0, "");
        for _ in 0..self.kept.len() {
            let Some((first, end)) = self.next_run(key, at) else {
                break;
            };
            if at < first {
                let last = first.saturating_sub(1);
                match layout {
                    Layout::Lines => write!(out, "{comma} bytes {at} to {last}")?,
                    Layout::Objects => write!(out, "{comma}[{at},{last}]")?,
                }
                comma = ",";
            }
            at = end;
        }
        let mut has_last = false;
        for piece in self.kept.as_slice() {
            has_last = has_last || (piece.key == key && piece.is_last);
        }
        match (layout, has_last) {
            (_, true) => Ok(()),
            (Layout::Lines, false) => write!(out, "{comma} all from byte {at} on"),
            (Layout::Objects, false) => write!(out, "{comma}[{at},null]"),
        }
    }

    /// Writes the members of an object for a datagram that isn't completed: its ports and its missing bytes.
    pub(crate) fn write_members(&self, key: Key, out: &mut impl Write) -> io::Result<()> {
        let (source, destination) = self.ports_by(key);
        write_port("sport", source, out)?;
        write_port("dport", destination, out)?;
        out.write_all(b",\"missing\":[")?;
        self.write_missing(key, Layout::Objects, out)?;
        out.write_all(b"]")
    }

    /// Returns whether a datagram may be from or to an end: its ports may be unknown.
    pub(crate) fn may_be_of(&self, key: Key, end: (u32, u16)) -> bool {
        let (source, destination) = self.ports_by(key);
        (key.source == end.0 && source.unwrap_or(end.1) == end.1)
            || (key.destination == end.0 && destination.unwrap_or(end.1) == end.1)
    }

    /// Forgets a datagram that the stack dropped.
    pub(crate) fn drop_unfinished(&mut self, key: Option<Key>) {
        if let Some(key) = key {
            self.remove(key);
        }
    }
}

/// Writes a port as a member of an object.
fn write_port(name: &str, port: Option<u16>, out: &mut impl Write) -> io::Result<()> {
    match port {
        Some(port) => write!(out, ",\"{name}\":{port}"),
        None => write!(out, ",\"{name}\":null"),
    }
}
