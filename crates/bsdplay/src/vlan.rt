//! The VLANs of a capture (IEEE 802.1Q): hosts of two VLANs are two hosts, even with one address.
use capture::pcap::LinkType;
use play_why::Layout;
use std::alloc::{AllocError, Global};
use std::io::{self, Write};

/// The tags before a packet, the outer one first. An identifier of 0 is none: such a tag has only a priority.
#[derive(Clone, Copy, PartialEq, Eq)]
pub(crate) struct Vlan {
    outer: u16,
    inner: u16,
}

/// How many VLANs are counted. More are left out of the first line.
const MOST_VLANS: usize = 64;

/// Returns the 16-bit number at an offset.
pub(crate) fn number_at(frame: &[u8], at: usize) -> Option<u16> {
    let high = frame.get(at).copied()?;
    let low = frame.get(at.saturating_add(1)).copied()?;
    Some(u16::from(high) * 256 + u16::from(low))
}

/// Returns the VLAN of the tag at `rest`, if the type at `at` is that of a tag.
fn tag_at(frame: &[u8], at: usize, rest: usize) -> Option<u16> {
    match number_at(frame, at)? {
        0x8100 | 0x88a8 => Some(number_at(frame, rest)? % 4096),
        _ => None,
    }
}

/// Returns where a frame's type is, and where the bytes after its header begin.
fn places_in(link: LinkType) -> Option<(usize, usize)> {
    match link {
        LinkType::Ethernet => Some((12, 14)),
        LinkType::LinuxCooked => Some((14, 16)),
        LinkType::LinuxCooked2 => Some((0, 20)),
        _ => None,
    }
}

/// Returns the destination of an IPv4 packet with a whole header.
pub(crate) fn destination_of(packet: &[u8]) -> Option<u32> {
    let (high, low) = (number_at(packet, 16)?, number_at(packet, 18)?);
    Some(u32::from(high) * 65_536 + u32::from(low))
}

/// Returns the VLAN of a frame.
pub(crate) fn vlan_of(link: Option<LinkType>, frame: &[u8]) -> Vlan {
    let mut vlan = Vlan { outer: 0, inner: 0 };
    let Some((at, rest)) = link.and_then(places_in) else {
        return vlan;
    };
    let Some(outer) = tag_at(frame, at, rest) else {
        return vlan;
    };
    vlan.outer = outer;
    let (at, rest) = (rest.saturating_add(2), rest.saturating_add(4));
    if let Some(inner) = tag_at(frame, at, rest) {
        if outer == 0 {
            vlan.outer = inner;
        } else {
            vlan.inner = inner;
        }
    }
    vlan
}

/// Returns the VLAN that an option names: a number, or two with a dot.
pub(crate) fn vlan_in(word: Option<&str>) -> Result<Option<Vlan>, &'static str> {
    let Some(word) = word else {
        return Ok(None);
    };
    let (outer, inner) = match word.split_once('.') {
        Some((outer, inner)) => (outer.parse::<u16>(), inner.parse::<u16>()),
        None => (word.parse::<u16>(), Ok(0)),
    };
    match (outer, inner) {
        (Ok(outer), Ok(inner)) if outer < 4096 && inner < 4096 => Ok(Some(Vlan { outer, inner })),
        _ => Err("--vlan takes a number below 4096, such as 100, or 100.7 for a tag in another"),
    }
}

impl Vlan {
    /// Returns whether there is no tag.
    pub(crate) fn is_none(self) -> bool {
        self.outer == 0
    }

    /// Writes it, such as `of VLAN 100.7`.
    pub(crate) fn write_name(self, out: &mut impl Write) -> io::Result<()> {
        if self.is_none() {
            return out.write_all(b"without a VLAN");
        }
        write!(out, "of VLAN {}", self.outer)?;
        if self.inner != 0 {
            write!(out, ".{}", self.inner)?;
        }
        Ok(())
    }

    /// Writes its numbers as a JSON array.
    pub(crate) fn write_array(self, out: &mut impl Write) -> io::Result<()> {
        if self.is_none() {
            return out.write_all(b"[]");
        }
        if self.inner == 0 {
            return write!(out, "[{}]", self.outer);
        }
        write!(out, "[{},{}]", self.outer, self.inner)
    }
}

/// A VLAN, and how many packets for the host are of it.
#[derive(Clone, Copy)]
struct Share {
    vlan: Vlan,
    count: u64,
}

/// The VLANs of the packets for a host.
#[derive(Drop)]
pub(crate) struct Vlans {
    shares: Vec<Share>,
}

impl Vlans {
    /// No packet was counted.
    pub(crate) fn new(alloc: Global) -> Vlans {
        Vlans {
            shares: Vec::new(alloc),
        }
    }

    /// Counts a packet of a VLAN.
    pub(crate) fn add(&mut self, vlan: Vlan) -> Result<(), AllocError> {
        for share in self.shares.as_mut_slice() {
            if share.vlan == vlan {
                share.count = share.count.saturating_add(1);
                return Ok(());
            }
        }
        if self.shares.len() < MOST_VLANS {
            self.shares.push(Share { vlan, count: 1 })?;
        }
        Ok(())
    }

    /// Returns the VLAN of most packets.
    pub(crate) fn busiest(&self) -> Option<Vlan> {
        let mut most: Option<Share> = None;
        for share in self.shares.as_slice() {
            match most {
                Some(it) if share.count <= it.count => {}
                _ => most = Some(*share),
            }
        }
        match most {
            Some(share) => Some(share.vlan),
            None => None,
        }
    }

    /// Writes the VLANs of the packets for the host, and which one is judged, if one has a tag.
    pub(crate) fn write(
        &self,
        chosen: Option<Vlan>,
        layout: Layout,
        out: &mut impl Write,
    ) -> io::Result<()> {
        let mut any = false;
        for share in self.shares.as_slice() {
            any = any || !share.vlan.is_none();
        }
        let (Layout::Lines, Some(vlan), true) = (layout, chosen, any) else {
            return Ok(());
        };
        out.write_all(b"Packets for it: ")?;
        let mut is_first = true;
        for share in self.shares.as_slice() {
            write!(out, "{}{} ", if is_first { "" } else { ", " }, share.count)?;
            share.vlan.write_name(out)?;
            is_first = false;
        }
        if self.shares.len() == 1 && self.busiest() == chosen {
            return out.write_all(b".\n");
        }
        out.write_all(b". Those ")?;
        vlan.write_name(out)?;
        out.write_all(b" are judged; --vlan takes others.\n")
    }
}
