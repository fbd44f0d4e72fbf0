//! The decoded headers of a packet.
ghost use Rattle.std.specs.Prelude.{◌≡◌, ◌≤◌, length};
ghost use Rattle.params.specs.declared.TheConstants.{IP_HEADER, IP_UDP_HEADERS};
ghost use Rattle.page.specs.Headed.{Headed, header_struct, ip_struct, no_header, udp_struct};

use crate::handed::number_of;
use flat_plain::{u16_at, u32_at};
use link_script::RunFault;
use params::{FRAGMENT_UNIT, IP_HEADER, IP_UDP_HEADERS};
use play_why::{COVERED, pseudo_sum, right_header_sum, right_udp_sum};
use script_loop::Buffer;
use std::alloc::Global;

/// The decoded headers of a packet (RFC 791, section 3.1; RFC 768): `struct page_header`, 20 numbers of 32 bits. A
/// missing field is 0.
#[repr(C)]
#[derive(Clone, Copy)]
pub struct PageHeader {
    /// 0: the packet has fewer than the 20 bytes of an IP header. 1: fewer than 28. 2: 28 or more, and the fields from
    /// `source_port` on are set too, whatever the packet carries.
    pub parts: u32,
    pub version: u32,
    /// The header length in words of four bytes.
    pub words: u32,
    pub service: u32,
    /// The total length.
    pub total: u32,
    pub id: u32,
    /// 4 is reserved, 2 "don't fragment", 1 "more fragments".
    pub flags: u32,
    /// In bytes.
    pub offset: u32,
    pub ttl: u32,
    pub protocol: u32,
    pub sum: u32,
    /// The checksum that would be right for the first 20 bytes.
    pub right_sum: u32,
    pub source: u32,
    pub destination: u32,
    pub source_port: u32,
    pub destination_port: u32,
    pub udp_len: u32,
    pub udp_sum: u32,
    /// The checksum that would be right for the bytes after the first 20, taken as a datagram with its UDP length.
    pub right_udp_sum: u32,
    /// The sum of only its pseudo header. The field contains it if the sender's network card fills in the checksum.
    pub pseudo_sum: u32,
}

impl PageHeader {
    /// Returns a header without any fields.
    fn none() -> PageHeader
        ensures { result ≡ no_header }
    {
        PageHeader {
            parts: 0,
            version: 0,
            words: 0,
            service: 0,
            total: 0,
            id: 0,
            flags: 0,
            offset: 0,
            ttl: 0,
            protocol: 0,
            sum: 0,
            right_sum: 0,
            source: 0,
            destination: 0,
            source_port: 0,
            destination_port: 0,
            udp_len: 0,
            udp_sum: 0,
            right_udp_sum: 0,
            pseudo_sum: 0,
        }
    }

    /// Decodes the IP header of a packet.
    fn of_ip(packet: &[u8], covered: &mut Buffer<COVERED>) -> PageHeader
        requires { IP_HEADER ≤ length packet.now }
        ensures { result ≡ ip_struct packet.now }
    {
        let fragment = u16_at(packet, 6);
        PageHeader {
            parts: 1,
            version: u32::from(packet[0] / 16),
            words: u32::from(packet[0] % 16),
            service: u32::from(packet[1]),
            total: u32::from(u16_at(packet, 2)),
            id: u32::from(u16_at(packet, 4)),
            flags: u32::from(fragment / 8192),
            offset: u32::from(fragment % 8192) * FRAGMENT_UNIT,
            ttl: u32::from(packet[8]),
            protocol: u32::from(packet[9]),
            sum: u32::from(u16_at(packet, 10)),
            right_sum: u32::from(right_header_sum(packet, covered)),
            source: u32_at(packet, 12),
            destination: u32_at(packet, 16),
            ..PageHeader::none()
        }
    }

    /// Decodes the IP header, and the UDP header after it.
    fn of_udp(packet: &[u8], covered: &mut Buffer<COVERED>) -> PageHeader
        requires { IP_UDP_HEADERS ≤ length packet.now }
        ensures { result ≡ udp_struct packet.now }
    {
        let header = PageHeader::of_ip(packet, covered);
        let (_, datagram) = packet.split_at(IP_HEADER as usize);
        PageHeader {
            parts: 2,
            source_port: u32::from(u16_at(datagram, 0)),
            destination_port: u32::from(u16_at(datagram, 2)),
            udp_len: u32::from(u16_at(datagram, 4)),
            udp_sum: u32::from(u16_at(datagram, 6)),
            right_udp_sum: u32::from(right_udp_sum(packet, datagram, covered)),
            pseudo_sum: u32::from(pseudo_sum(packet, datagram)),
            ..header
        }
    }

    /// Decodes the headers of a packet.
    fn of(packet: &[u8], covered: &mut Buffer<COVERED>) -> PageHeader
        ensures { result ≡ header_struct packet.now }
    {
        if packet.len() < IP_HEADER as usize {
            PageHeader::none()
        } else if packet.len() < IP_UDP_HEADERS as usize {
            PageHeader::of_ip(packet, covered)
        } else {
            PageHeader::of_udp(packet, covered)
        }
    }
}

/// Decodes the headers of a packet, and computes which checksums would be right: `uint32_t bsdudp_page_header(const
/// uint8_t *packet, size_t, struct page_header *)`. Nothing is checked: any bytes are a packet.
///
/// Returns 0, and the header is written; or 3, `Memory`, and the header is unchanged.
#[unsafe(no_mangle)]
pub extern "C" fn bsdudp_page_header(alloc: Global, packet: &[u8], header: &mut PageHeader) -> u32
    ensures headed { Headed packet.now result header.old header.new }
{
    match Buffer::new(alloc) {
        Ok(mut covered) => {
            *header = PageHeader::of(packet, &mut covered);
            number_of(Ok(()))
        }
        Err(_) => number_of(Err(RunFault::Memory)),
    }
}
