//! The headers of files that are written: that of the file, and that of each packet.
ghost use Rattle.std.specs.Prelude.{◌≡◌};
ghost use Rattle.capture.specs.File.{file_header_bytes, header_for};
ghost use Rattle.capture.specs.Records.{record_header};
ghost use Rattle.capture.specs.declared.pcap.header.Order.TheVariants.{Little};

use crate::pcap::link_type::LinkType;
use byteorder::{ByteOrder, LittleEndian};

/// The most bytes of a packet or frame that is written: the file's snapshot length. An IPv4 packet has no more.
pub const LONGEST_PACKET: usize = 65_535;

/// The magic number of a file with microseconds.
const MAGIC: u32 = 0xa1b2_c3d4;

/// The version, 2.4.
const VERSION: [u16; 2] = [2, 4];

/// Returns the header of a file that is written with this link type: little endian, version 2.4, microseconds, time
/// zone and accuracy 0, snapshot length 65,535.
pub fn file_header(link: LinkType) -> [u8; 24]
    ensures { result ≡ file_header_bytes (header_for link) }
{
    let mut header = [0; 24];
    LittleEndian::write_u32(&mut header, MAGIC);
    LittleEndian::write_u16_into(&VERSION, &mut header[4..8]);
    let link = u32::from(link.number());
    LittleEndian::write_u32_into(&[0, 0, LONGEST_PACKET as u32, link], &mut header[8..]);
    header
}

/// Returns the 16 bytes before a packet of `len` bytes, all of them captured, in a file with the header of
/// [`file_header`]: seconds since 1970-01-01, 00:00 UTC, and microseconds since that second, 0 to 999,999. A larger
/// number is written as it is.
pub fn record_header(seconds: u32, microseconds: u32, len: u32) -> [u8; 16]
    ensures { result ≡ record_header Little seconds microseconds len len }
{
    let mut header = [0; 16];
    LittleEndian::write_u32_into(&[seconds, microseconds, len, len], &mut header);
    header
}
