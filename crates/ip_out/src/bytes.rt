//! Numbers in bytes, the highest byte first (network byte order).
ghost use Rattle.std.specs.Prelude.{◌≡◌, ◌+◌, ◌≤◌, length};
ghost use Rattle.flat_model.specs.Packets.Header.{four_bytes, two_bytes, u16_at, u32_at};
ghost use Rattle.ip_out.specs.Bytes.{written};

use byteorder::{BigEndian, ByteOrder};

/// Returns the 16-bit number at offset `at`.
#[inline(always)]
pub fn u16_at(bytes: &[u8], at: usize) -> u16
    requires { at + 2 ≤ length bytes.now }
    ensures { result ≡ u16_at at bytes.now }
{
    BigEndian::read_u16(&bytes[at..])
}

/// Returns the 32-bit number at offset `at`.
#[inline(always)]
pub fn u32_at(bytes: &[u8], at: usize) -> u32
    requires { at + 4 ≤ length bytes.now }
    ensures { result ≡ u32_at at bytes.now }
{
    BigEndian::read_u32(&bytes[at..])
}

/// Writes a 16-bit number at offset `at`.
#[inline(always)]
pub fn put_u16(bytes: &mut [u8], at: usize, n: u16)
    requires { at + 2 ≤ length bytes.old }
    ensures { bytes.new ≡ written bytes.old at (two_bytes n) }
{
    BigEndian::write_u16(&mut bytes[at..at + 2], n);
}

/// Writes a 32-bit number at offset `at`.
#[inline(always)]
pub fn put_u32(bytes: &mut [u8], at: usize, n: u32)
    requires { at + 4 ≤ length bytes.old }
    ensures { bytes.new ≡ written bytes.old at (four_bytes n) }
{
    BigEndian::write_u32(&mut bytes[at..at + 4], n);
}
