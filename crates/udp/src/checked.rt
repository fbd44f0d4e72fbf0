//! A UDP datagram that is read in place, before any of it is stored.
ghost use Rattle.std.specs.Prelude.{◌≡◌, ◌+◌, ◌≤◌, Some, length, take, drop, IfOk, IfErr};
ghost use Rattle.udp.specs.Checked.{IsChecked, datagram_fault, is_to_all, unmatched};
ghost use Rattle.pcb_table.specs.Table.{packet_key};
ghost use Rattle.udp.specs.Datagrams.{AreMatching};
ghost use Rattle.udp.specs.Inside.{has_right_sum, header_in};

use crate::arrival::find_matching;
use crate::header::{Header, header_of, pseudo_sum};
use arrayvec::ArrayVec;
use flat_model::{Addr, Why};
use in_cksum::Sum;
use ip_out::Headed;
use params::{IP_HEADER, IP_UDP_HEADERS, LIMITED_BROADCAST, PROTOCOL_UDP, UDP_HEADER};
use pcb_table::{Pcbs, SOCKETS};

/// A packet that carries a UDP datagram, both without a fault: `read` has tested them. The value proves it, so no
/// caller tests the packet again.
#[derive(Clone, Copy, Drop)]
pub struct Checked<'a> {
    /// The bytes as received. The first 28 are the headers.
    pub packet: &'a [u8],
    /// The offset in `packet` at which the data end. Bytes after it are padding.
    pub end: u32,
    /// The sender.
    pub from: Addr,
    /// The destination.
    pub to: Addr,
    /// The tests that the packet has passed.
    pub ghost is_checked: { IsChecked packet.now end from to },
}

/// Whether a datagram with this header has no checksum or the right one. Bytes after its UDP length don't count.
#[inline(always)]
fn has_right_sum(carried: &[u8], header: Header, from: u32, to: u32) -> bool
    requires said { header ≡ header_in carried.now }
    requires within { header.len ≤ length carried.now }
    ensures { result ≡ has_right_sum from to carried.now }
{
    if header.sum == 0 {
        return true;
    }
    let mut sum: Sum = pseudo_sum(from, to, header.len);
    sum.add(&carried[..header.len as usize]);
    sum.finish() == 0
}

/// Reads the datagram in a packet in place. Returns the first test that fails: the protocol isn't UDP (`NoProtocol`);
/// the packet carries fewer than 8 bytes (`UdpHeaderDrops`); the UDP length is above the number of bytes carried, or
/// below 8 (`UdpBadLength`); the checksum isn't 0 and is wrong (`UdpBadSum`).
#[inline(always)]
pub fn read(packet: Headed<'_>) -> Result<Checked<'_>, Why>
    ensures packet { IfOk result (λ c. c.packet.now ≡ packet.entry.packet.now) }
    ensures err { IfErr result (λ why. datagram_fault packet.entry.packet.now ≡ Some why) }
{
    let head = packet.head();
    if head.proto != PROTOCOL_UDP {
        return Err(Why::NoProtocol);
    }
    let carried = packet.carried();
    let Some((front, _)) = carried.split_first_chunk() else {
        return Err(Why::UdpHeaderDrops);
    };
    let header = header_of(front);
    if carried.len() < header.len as usize || (header.len as u32) < UDP_HEADER {
        return Err(Why::UdpBadLength);
    }
    if !has_right_sum(carried, header, head.src, head.dst) {
        return Err(Why::UdpBadSum);
    }
    let from = Addr {
        ip: head.src,
        port: header.source,
    };
    let to = Addr {
        ip: head.dst,
        port: header.destination,
    };
    let end = IP_HEADER + header.len as u32;
    Ok(Checked {
        packet: packet.packet,
        end,
        from,
        to,
    })
}

impl<'a> Checked<'a> {
    /// The data, without both headers.
    #[inline(always)]
    pub fn data(&self) -> &'a [u8]
        ensures value { result.now ≡ drop IP_UDP_HEADERS (take self.now.end self.now.packet.now) }
        ensures len { length result.now + IP_UDP_HEADERS ≡ self.now.end }
    {
        &self.packet[IP_UDP_HEADERS as usize..self.end as usize]
    }
}

/// Whether the address is one of the two broadcast addresses.
#[inline(always)]
pub fn is_broadcast(pcbs: &Pcbs, ip: u32) -> bool
    ensures { result ≡ is_to_all pcbs.now ip }
{
    ip == pcbs.bcast() || ip == LIMITED_BROADCAST
}

/// The cause that counts a datagram for this address that no socket matches.
pub fn no_port(pcbs: &Pcbs, destination: u32) -> Why
    ensures { result ≡ unmatched pcbs.now destination }
{
    if is_broadcast(pcbs, destination) {
        Why::UdpNoPortBroadcast
    } else {
        Why::UdpNoPort
    }
}

/// Replaces the contents of `matching` by the descriptors of the sockets that match a packet: for a broadcast all of
/// them, the youngest first, otherwise the best match. No control block changes.
pub fn matching_sockets(
    pcbs: &mut Pcbs,
    packet: &Checked<'_>,
    matching: &mut ArrayVec<u32, SOCKETS>,
)
    ensures found { AreMatching pcbs.old packet.now.to.ip
        (packet_key packet.now.to.ip packet.now.to.port packet.now.from) matching.new.items }
    ensures blocks { pcbs.new ≡ pcbs.old }
{
    // Popping the usual single entry takes fewer steps than clearing an array.
    let _ = matching.pop();
    matching.clear();
    find_matching(pcbs, packet.to.ip, packet.to.port, packet.from, matching);
}
