//! Numbers of 16 and 32 bits, in either byte order.
ghost use Rattle.std.specs.Prelude.{◌≡◌, ◌+◌, ◌≤◌, ◌++◌, length, drop};
ghost use Rattle.std.specs.Int.{w16, w32};
ghost use Rattle.capture.specs.File.{number, number_of};

use crate::pcap::header::Order;
use byteorder::{BigEndian, ByteOrder, LittleEndian};

/// Returns the 16-bit number at an offset, at which two bytes must exist.
pub fn u16_at(order: Order, bytes: &[u8], at: usize) -> u16
    requires { at + 2 ≤ length bytes.now }
    ensures { result ≡ number_of order w16 (drop at bytes.now) }
{
    match order {
        Order::Little => LittleEndian::read_u16(&bytes[at..]),
        Order::Big => BigEndian::read_u16(&bytes[at..]),
    }
}

/// Returns the 32-bit number at an offset, at which four bytes must exist.
pub fn u32_at(order: Order, bytes: &[u8], at: usize) -> u32
    requires { at + 4 ≤ length bytes.now }
    ensures { result ≡ number_of order w32 (drop at bytes.now) }
{
    match order {
        Order::Little => LittleEndian::read_u32(&bytes[at..]),
        Order::Big => BigEndian::read_u32(&bytes[at..]),
    }
}

/// Returns the number in the first four bytes, which must exist, and the bytes after it.
pub fn first_u32(order: Order, bytes: &[u8]) -> (u32, &[u8])
    requires { 4 ≤ length bytes.now }
    ensures front { bytes.now ≡ number order w32 result.0 ++ result.1.now }
    ensures number { result.0 ≡ number_of order w32 bytes.now }
    ensures after { result.1.now ≡ drop 4 bytes.now }
{
    (u32_at(order, bytes, 0), &bytes[4..])
}
