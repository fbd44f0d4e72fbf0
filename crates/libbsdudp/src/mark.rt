//! Type of service and time to live of packets that leave. No stack takes part in it.
ghost use Rattle.std.specs.Prelude.{◌≡◌, [], ◌∷◌, ◌+◌, ◌≤◌, length, take};
ghost use Rattle.flat_model.specs.Packets.Checksum.{checksum};
ghost use Rattle.flat_model.specs.Packets.Header.{head_fault};
ghost use Rattle.ip_out.specs.Bytes.{written};
ghost use Rattle.libbsdudp.specs.Mark.{IsMarked, marked};

use crate::errors::INVALID;
use flat_model::Why;
use in_cksum::sum_slice;
use ip_out::{put_u16, read_packet};
use params::{IP_HEADER, IP_MAX_PACKET};

/// Writes an 8-bit number at offset `at`.
fn put_u8(bytes: &mut [u8], at: usize, n: u8)
    requires { at + 1 ≤ length bytes.old }
    ensures { bytes.new ≡ written bytes.old at (n ∷ []) }
{
    bytes[at] = n;
}

/// Returns the checksum of a packet's header, which must have 0 in its field.
fn checksum_of(packet: &[u8]) -> u16
    requires { IP_HEADER ≤ length packet.now }
    ensures { result ≡ checksum (take IP_HEADER packet.now) }
{
    !sum_slice(&packet[..IP_HEADER as usize])
}

/// Writes the fields and the checksum.
fn write_fields(packet: &mut [u8], ttl: u8, tos: u8)
    requires { IP_HEADER ≤ length packet.old }
    ensures { packet.new ≡ marked ttl tos packet.old }
{
    put_u8(packet, 1, tos);
    put_u8(packet, 8, ttl);
    put_u16(packet, 10, 0);
    let sum = checksum_of(packet);
    put_u16(packet, 10, sum);
}

/// Returns for which fault of its header a stack drops a packet, if there is one.
fn fault_of(packet: &[u8]) -> Option<Why>
    requires { length packet.now ≤ IP_MAX_PACKET }
    ensures { result ≡ head_fault packet.now }
{
    match read_packet(packet) {
        Ok(_headed) => None,
        Err(why) => Some(why),
    }
}

/// Sets time to live and type of service in a packet that leaves, and the checksum of its header. Returns 0, or -EINVAL
/// if the packet has more than 65,535 bytes, or its header has a fault for which a stack drops it: options, a wrong
/// checksum, or a total length above `len`, for example. The packet is then unchanged (RFC 791, section 3.1).
///
///     int bsdudp_core_mark(uint8_t *packet, size_t len, uint8_t ttl, uint8_t tos)
#[unsafe(no_mangle)]
pub extern "C" fn bsdudp_core_mark(packet: &mut [u8], ttl: u8, tos: u8) -> i32
    ensures { IsMarked ttl tos result packet.old packet.new }
{
    if packet.len() > IP_MAX_PACKET as usize || fault_of(packet).is_some() {
        return INVALID;
    }
    write_fields(packet, ttl, tos);
    0
}
