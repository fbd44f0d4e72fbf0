//! The packets of a send whose buffers are free.
ghost use Rattle.std.specs.Prelude.{◌≡◌, ℕ, ◌+◌, ◌≤◌, ◌++◌, drop, length};
ghost use Rattle.flat_model.specs.Amounts.Layout.{sent};
ghost use Rattle.mbuf_chain.specs.Chain.{chain_of, string};
ghost use Rattle.flat_model.specs.Machine.Send.{need_to};
ghost use Rattle.flat_model.specs.Machine.Sending as flat;
ghost use Rattle.flat_model.specs.Machine.Sending.{is_looped, mtu_to};
ghost use Rattle.chain_ops.specs.Stored.{Has};
ghost use Rattle.sock_calls.specs.Inside.Putting.{send_config, head_as, sent_as, IsBuilt, IsStored, way_of};

use chain_ops::theorems::sent_layout;
use chain_ops::{from_user, m_prepend};
use flat_model::{Addr, Need};
use ip_out::{IpHead, Way, need, need_bcast};
use mbuf_chain::{Chain, Pool};
use params::{
    IP_DEFAULT_TTL, IP_HEADER, IP_UDP_HEADERS, LOOPBACK, LOOPBACK_MTU, MIN_MTU, PROTOCOL_UDP,
    UDP_HEADER, UDP_SEND_SPACE,
};
use pcb_table::Pcbs;
use udp::header_for;

/// The header fields of a send.
#[derive(Clone, Copy)]
pub(crate) struct Heading {
    /// The identification.
    pub(crate) id: u16,
    /// The source address.
    pub(crate) source: u32,
    /// The source port.
    pub(crate) port: u16,
    /// The destination.
    pub(crate) to: Addr,
}

/// The route of a send.
#[derive(Clone, Copy)]
pub(crate) struct Route {
    /// The destination.
    pub(crate) to: Addr,
    /// To the link, back to this machine, or both.
    pub(crate) way: Way,
    /// The largest length in bytes of its packets.
    pub(crate) longest: u16,
}

/// Whether packets to an address only come back, and don't go to the link.
#[inline(always)]
fn is_looped(pcbs: &Pcbs, ip: u32) -> bool
    ensures { result ≡ is_looped (send_config pcbs.now 0) ip }
{
    ip == pcbs.addr() || ip == LOOPBACK
}

/// The way of packets to an address, and their largest length.
#[inline(always)]
pub(crate) fn way_to(pcbs: &Pcbs, mtu: u16, ip: u32) -> (Way, u16)
    ensures way { result.0 ≡ way_of (send_config pcbs.now mtu) ip }
    ensures mtu { result.1 ≡ mtu_to (send_config pcbs.now mtu) ip }
{
    if is_looped(pcbs, ip) {
        (Way::Loopback, LOOPBACK_MTU)
    } else if ip == pcbs.bcast() {
        (Way::Both, mtu)
    } else {
        (Way::Link, mtu)
    }
}

/// The number of free buffers that a send of `len` bytes takes: those of its packets, which have at most `longest`
/// bytes, and of the copy of a broadcast.
pub(crate) fn need_to(pcbs: &Pcbs, longest: u16, ip: u32, len: u32) -> Need
    requires most { len ≤ UDP_SEND_SPACE }
    requires longest { MIN_MTU ≤ longest }
    ensures { (mtu : ℕ) → longest ≡ mtu_to (send_config pcbs.now mtu) ip
        → result ≡ need_to (send_config pcbs.now mtu) ip len }
{
    if ip == pcbs.bcast() {
        need_bcast(len)
    } else {
        need(len, longest)
    }
}

/// Makes a chain of the 28 bytes of the headers and the bytes after them.
#[inline(always)]
fn with_headers(pool: &mut Pool, headers: &[u8; IP_UDP_HEADERS as usize], bytes: &[u8]) -> Chain
    requires most { length bytes.now ≤ UDP_SEND_SPACE }
    requires free { Has pool.old (sent (length bytes.now)) }
    ensures stored { IsStored pool.old bytes.now pool.new result }
    ensures string { string (chain_of pool.new result) ≡ headers.now ++ bytes.now }
{
    sent_layout();
    let Ok(mut chain) = from_user(pool, bytes) else {
        unreachable!()
    };
    match m_prepend(pool, &mut chain, headers) {
        Ok(()) => {}
        Err(_) => unreachable!(),
    }
    chain
}

/// Writes UDP's header after the 20 bytes for that of IP.
#[inline(always)]
fn put_udp(headers: &mut [u8; IP_UDP_HEADERS as usize], udp: &[u8; UDP_HEADER as usize])
    ensures { drop IP_HEADER headers.new ≡ udp.now }
{
    headers[IP_HEADER as usize..].copy_from_slice(udp);
}

/// Writes UDP's header of these bytes after the 20 bytes for that of IP.
// The header is computed from the caller's bytes and written once, into the array that is copied into the mbuf.
#[inline(always)]
pub(crate) fn write_udp(headers: &mut [u8; IP_UDP_HEADERS as usize], heading: Heading, bytes: &[u8])
    requires { length bytes.now ≤ UDP_SEND_SPACE }
    ensures { drop IP_HEADER headers.new ++ bytes.now ≡ flat.datagram (sent_as heading bytes.now) }
{
    let from = Addr {
        ip: heading.source,
        port: heading.port,
    };
    put_udp(headers, &header_for(from, heading.to, bytes));
}

/// The datagram, with its header, after 20 bytes for that of IP.
#[inline(never)]
pub(crate) fn datagram(pool: &mut Pool, heading: Heading, bytes: &[u8]) -> Chain
    requires most { length bytes.now ≤ UDP_SEND_SPACE }
    requires free { Has pool.old (sent (length bytes.now)) }
    ensures { IsBuilt pool.old (sent_as heading bytes.now) pool.new result }
{
    let mut headers = [0; IP_UDP_HEADERS as usize];
    write_udp(&mut headers, heading, bytes);
    with_headers(pool, &headers, bytes)
}

/// The IP header of all its packets, except their lengths and offsets.
#[inline(always)]
pub(crate) fn ip_head(heading: Heading) -> IpHead
    ensures { result ≡ head_as heading }
{
    IpHead {
        tos: 0,
        total: 0,
        id: heading.id,
        dont: false,
        more: false,
        offset: 0,
        ttl: IP_DEFAULT_TTL,
        proto: PROTOCOL_UDP,
        src: heading.source,
        dst: heading.to.ip,
    }
}
