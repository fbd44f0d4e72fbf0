//! A datagram that arrives in a chain.
ghost use Rattle.std.specs.Prelude.{◌≡◌, ◌≤◌, ◌∷◌, [], IfErr, IfOk, None, Some, length, true};
ghost use Rattle.flat_model.specs.Packets.Header.{udp_fault};
ghost use Rattle.flat_model.specs.Machine.Arrival as flat;
ghost use Rattle.mbuf_chain.specs.Chain.{IsLive, chain_of, string, with_chain, without};
ghost use Rattle.mbuf_chain.specs.Owners.{Moves};
ghost use Rattle.pcb_table.specs.Table.{packet_key};
ghost use Rattle.udp.specs.Datagrams.{AreMatching, IsUdpInput, outcome_chains, without_header};
ghost use Rattle.udp.specs.Checked.{is_to_all};
ghost use Rattle.udp.specs.Inside.{header_in};

use crate::checked::{is_broadcast, no_port};
use crate::header::{Header, is_right, read_header};
use arrayvec::ArrayVec;
use chain_ops::{trim_back, trim_front};
use flat_model::{Addr, Why};
use ip_out::IpHead;
use mbuf_chain::{Chain, Pool};
use params::{IP_MAX_PACKET, PROTOCOL_UDP, UDP_HEADER};
use pcb_table::{Pcbs, SOCKETS};

/// What happens to a datagram. It holds a chain, and so must be consumed.
pub enum Outcome {
    /// It goes to the sockets that `input` found, one or more. The chain has its data: the bytes between the UDP header
    /// and the end by its UDP length.
    Deliver {
        /// The sender.
        from: Addr,
        /// The data, without the UDP header.
        chain: Chain,
    },
    /// It was dropped for this cause, and its chain was freed.
    Drop(Why),
}

/// Reads the header of a datagram. Returns the first test that fails.
fn examine(pool: &Pool, chain: &Chain, src: u32, dst: u32) -> Result<Header, Why>
    requires { IsLive pool.now chain.now }
    ensures ok { IfOk result (λ header. (udp_fault src dst (string (chain_of pool.now chain.now)) ≡ None)
        × (header ≡ header_in (string (chain_of pool.now chain.now)))) }
    ensures err { IfErr result (λ why. udp_fault src dst (string (chain_of pool.now chain.now)) ≡ Some why) }
{
    let carried = pool.len(chain);
    if carried < UDP_HEADER {
        return Err(Why::UdpHeaderDrops);
    }
    let header = read_header(pool, chain);
    if carried < header.len as u32 || (header.len as u32) < UDP_HEADER {
        return Err(Why::UdpBadLength);
    }
    if !is_right(pool, chain, header, src, dst) {
        return Err(Why::UdpBadSum);
    }
    Ok(header)
}

/// Adds the sockets that match a datagram to `matching`, which must be empty: for a broadcast all of them, otherwise
/// the best match.
pub(crate) fn find_matching(
    pcbs: &mut Pcbs,
    destination: u32,
    port: u16,
    source: Addr,
    matching: &mut ArrayVec<u32, SOCKETS>,
)
    requires { matching.old.items ≡ [] }
    ensures found { AreMatching pcbs.old destination (packet_key destination port source) matching.new.items }
    ensures blocks { pcbs.new ≡ pcbs.old }
{
    if is_broadcast(pcbs, destination) {
        pcbs.receivers(destination, port, source, matching);
        return;
    }
    if let Some(fd) = pcbs.lookup(destination, port, source) {
        matching.push(fd);
    }
}

/// Trims a datagram of `len` bytes to its data: removes the bytes after them, and then the header. No mbuf is freed.
fn trim(pool: &mut Pool, chain: &Chain, len: u16)
    requires { IsLive pool.old chain.now }
    ensures { pool.new ≡ with_chain pool.old chain.now (without_header len (chain_of pool.old chain.now)) }
{
    trim_back(pool, chain, u32::from(len));
    trim_front(pool, chain, UDP_HEADER);
}

/// Processes a whole datagram without its IP header, whose fields are in `head` (`udp_input` of volume 2, chapter 23).
/// The chain has at most 65,535 bytes.
///
/// It's dropped for the first of these causes that holds: its protocol isn't UDP (`NoProtocol`); it has fewer than 8
/// bytes (`UdpHeaderDrops`); its UDP length is above the number of bytes carried, or below 8 (`UdpBadLength`); its
/// checksum isn't 0 and is wrong (`UdpBadSum`); no socket matches (`UdpNoPort`, or `UdpNoPortBroadcast` for the
/// machine's broadcast address and 255.255.255.255). Its chain is freed then.
///
/// Otherwise it goes to the socket that the lookup finds, or for those two addresses to all sockets that match. Bytes
/// after the UDP length are removed, and so is the header: the chain keeps its number, its mbufs and its clusters. No
/// control block changes.
///
/// On return `matching` has exactly the descriptors of these sockets, the youngest first. It's empty if the datagram
/// was dropped.
pub fn input(
    pool: &mut Pool,
    chain: Chain,
    head: IpHead,
    pcbs: &mut Pcbs,
    matching: &mut ArrayVec<u32, SOCKETS>,
) -> Outcome
    requires live { IsLive pool.old chain }
    requires most { length (string (chain_of pool.old chain)) ≤ IP_MAX_PACKET }
    ensures answer { IsUdpInput pool.old chain head pcbs.old pool.new matching.new.items result }
    ensures moves { Moves pool.old (chain ∷ []) pool.new (outcome_chains result) }
    ensures blocks { pcbs.new ≡ pcbs.old }
{
    // Popping the usual single entry takes fewer steps than clearing an array.
    let _ = matching.pop();
    matching.clear();
    if head.proto != PROTOCOL_UDP {
        return drop_for(pool, chain, Why::NoProtocol);
    }
    let header = match examine(pool, &chain, head.src, head.dst) {
        Ok(header) => header,
        Err(why) => return drop_for(pool, chain, why),
    };
    let from = Addr {
        ip: head.src,
        port: header.source,
    };
    find_matching(pcbs, head.dst, header.destination, from, matching);
    if matching.is_empty() {
        let why = no_port(pcbs, head.dst);
        return drop_for(pool, chain, why);
    }
    trim(pool, &chain, header.len);
    Outcome::Deliver { from, chain }
}

/// Frees the chain of a dropped datagram.
fn drop_for(pool: &mut Pool, chain: Chain, why: Why) -> Outcome
    requires { IsLive pool.old chain }
    ensures outcome { result ≡ Outcome.Drop why }
    ensures freed { pool.new ≡ without pool.old chain }
{
    pool.free_chain(chain);
    Outcome::Drop(why)
}
