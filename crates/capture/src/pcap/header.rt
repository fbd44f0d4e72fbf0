//! The header of a capture file: 24 bytes.
ghost use Rattle.std.specs.Prelude.{◌≡◌, ◌≤◌, length, OnOk};
ghost use Rattle.capture.specs.File.{header_of, mark_of};

use crate::pcap::fault::{Fault, Why};
use crate::pcap::link_type::LinkType;
use crate::pcap::numbers::{u16_at, u32_at};

/// Bytes of a file header.
pub(crate) const HEADER_BYTES: usize = 24;

/// The byte order of a file's numbers.
#[derive(Clone, Copy, Debug, PartialEq, Eq)]
pub enum Order {
    /// The low byte first.
    Little,
    /// The high byte first.
    Big,
}

/// The unit of the fraction in a record's time.
#[derive(Clone, Copy, Debug, PartialEq, Eq)]
pub enum Resolution {
    /// Millionths of a second: magic number 0xa1b2c3d4.
    Microseconds,
    /// Thousand-millionths of a second: magic number 0xa1b23c4d.
    Nanoseconds,
}

/// The header of a file.
#[derive(Clone, Copy, Debug, PartialEq, Eq)]
pub struct Header {
    pub order: Order,
    pub resolution: Resolution,
    /// 0 in today's files; ignored.
    pub time_zone: u32,
    /// 0 in today's files; ignored.
    pub accuracy: u32,
    /// The most bytes that the writer kept of a packet. The reader accepts longer ones too.
    pub snap_len: u32,
    /// The link type in the low 16 bits. The high bits are ignored: the draft puts the length of a frame check sequence
    /// there.
    pub link_field: u32,
    /// The link type.
    pub link: LinkType,
}

/// Returns the byte order and the resolution that a magic number gives, read with the low byte first.
fn mark(magic: u32) -> Option<(Order, Resolution)>
    ensures { result ≡ mark_of magic }
{
    match magic {
        0xa1b2_c3d4 => Some((Order::Little, Resolution::Microseconds)),
        0xd4c3_b2a1 => Some((Order::Big, Resolution::Microseconds)),
        0xa1b2_3c4d => Some((Order::Little, Resolution::Nanoseconds)),
        0x4d3c_b2a1 => Some((Order::Big, Resolution::Nanoseconds)),
        _ => None,
    }
}

/// Parses the first 24 bytes of a file. Fails with the first fault in them.
#[tactic(auto, unfolding(crate::specs::File::header_of))]
pub(crate) fn read_header(file: &[u8]) -> Result<Header, Fault>
    ensures exact { result ≡ header_of file.now }
    ensures long { OnOk result (HEADER_BYTES ≤ length file.now) }
{
    if file.len() < HEADER_BYTES {
        return Err(Why::HeaderCut.at(0));
    }
    let Some((order, resolution)) = mark(u32_at(Order::Little, file, 0)) else {
        return Err(Why::BadMagic.at(0));
    };
    if u16_at(order, file, 4) != 2 || u16_at(order, file, 6) != 4 {
        return Err(Why::BadVersion.at(4));
    }
    let link_field = u32_at(order, file, 20);
    let number = (link_field % 65_536) as u16;
    let Some(link) = LinkType::of(number) else {
        return Err(Why::BadLinkType(number).at(20));
    };
    Ok(Header {
        order,
        resolution,
        time_zone: u32_at(order, file, 8),
        accuracy: u32_at(order, file, 12),
        snap_len: u32_at(order, file, 16),
        link_field,
        link,
    })
}
