//! What `bench/peers` and `bench/growth` time: fragments arrive as packets, are stored, have their headers parsed,
//! and wait or complete their datagram.

ghost use Rattle.std.specs.Prelude.{◌≡◌, ◌≤◌, ◌∷◌, ◌++◌, true, length, IfSome};
ghost use Rattle.mbuf_chain.specs.Chain.{chain_of, string};
ghost use Rattle.mbuf_chain.specs.Owners.{IsOwned};
ghost use Rattle.ip_reass.specs.Arrivals.{in_hand};
ghost use Rattle.ip_reass.specs.AtOnce.{fits_at_once};
ghost use Rattle.ip_reass.specs.Table.{IsReady, held_all};

use byteorder::{BigEndian, ByteOrder};
use chain_ops::from_wire;
use flat_model::Counters;
use ip_out::{IpHead, read_head, read_packet};
use ip_reass::{Arrival, Reass, fits_at_once};
use mbuf_chain::{Chain, Pool};
use mbuf_pool::{Sizes, Store};
use params::{IP_HEADER, IP_MAX_PACKET};
use std::alloc::Global;

/// The distance of packets that are passed together.
const APART: usize = 1500;

/// A pool of which all is free, and a table for it.
fn ready(alloc: Global, mbufs: u32, clusters: u32) -> Option<(Pool, Reass)>
    ensures { IfSome result (λ r. IsReady r.0 r.1) }
{
    let Ok(store) = Store::boot(alloc, Sizes { mbufs, clusters }) else {
        return None;
    };
    let pool = Pool::over(store);
    let Ok(table) = Reass::boot(alloc, mbufs) else {
        return None;
    };
    Some((pool, table))
}

/// Stores a packet and parses its header. `None` if no buffer is free, or the header is invalid or has another length.
fn stored(pool: &mut Pool, table: &Reass, packet: &[u8]) -> Option<(Chain, IpHead)>
    requires ready { IsReady pool.old table.now }
    requires short { length packet.now ≤ IP_MAX_PACKET }
    ensures ready { IsReady pool.new table.now }
    ensures owned { IfSome result (λ r. IsOwned pool.new (r.0 ∷ held_all pool.new table.now.datagrams)) }
    ensures headed { IfSome result (λ r. (chain_of pool.new r.0).front.header ≡ true) }
    ensures total { IfSome result (λ r. length (string (chain_of pool.new r.0)) ≡ r.1.total) }
    ensures header { IfSome result (λ r. IP_HEADER ≤ r.1.total) }
    ensures offset { IfSome result (λ r. r.1.offset ≤ IP_MAX_PACKET) }
{
    let _ = table;
    let Ok(chain) = from_wire(pool, packet) else {
        return None;
    };
    let Ok(head) = read_head(pool, &chain) else {
        pool.free_chain(chain);
        return None;
    };
    let total = u32::from(head.total);
    if total != pool.len(&chain) || total < IP_HEADER || head.offset > IP_MAX_PACKET {
        pool.free_chain(chain);
        return None;
    }
    Some((chain, head))
}

/// The fields of a packet's header, with another identification, if it can be queued directly as a fragment.
fn head_at_once(pool: &Pool, packet: &[u8], id: u16) -> Option<IpHead>
    requires short { length packet.now ≤ IP_MAX_PACKET }
    ensures { IfSome result (λ head. fits_at_once pool.now head packet.now ≡ true) }
{
    let Ok(headed) = read_packet(packet) else {
        return None;
    };
    let head = IpHead {
        id,
        ..headed.head()
    };
    if fits_at_once(pool, &head, packet) {
        Some(head)
    } else {
        None
    }
}

/// Frees a datagram that an arrival completed. Returns how many these are: 1 or 0.
#[inline(always)]
fn made_whole(pool: &mut Pool, table: &Reass, arrival: Arrival) -> u32
    requires ready { IsReady pool.old table.now }
    requires owned { IsOwned pool.old (in_hand arrival ++ held_all pool.old table.now.datagrams) }
    ensures { IsReady pool.new table.now }
{
    let _ = table;
    match arrival {
        Arrival::Kept => 0,
        Arrival::Dropped(_) => 0,
        Arrival::Whole(chain, _) => {
            pool.free_chain(chain);
            1
        }
    }
}

/// A packet arrives as a fragment of the datagram `id`, and is queued directly if possible; a datagram that it
/// completes is freed. Returns how many these are: 1 or 0.
// Inlined, as in `net_stack`: what is between the loop and `arrive_bytes` isn't what is timed.
#[inline(always)]
fn arrives(
    pool: &mut Pool,
    table: &mut Reass,
    counters: &mut Counters,
    packet: &[u8],
    id: u16,
) -> u32
    requires ready { IsReady pool.old table.old }
    requires short { length packet.now ≤ IP_MAX_PACKET }
    ensures { IsReady pool.new table.new }
{
    if let Some(head) = head_at_once(pool, packet, id) {
        let arrival = table.arrive_bytes(pool, counters, packet, head);
        return made_whole(pool, table, arrival);
    }
    let Some((chain, head)) = stored(pool, table, packet) else {
        return 0;
    };
    let arrival = table.arrive(pool, counters, chain, IpHead { id, ..head });
    made_whole(pool, table, arrival)
}

/// The packet at the beginning of some bytes, which may continue after it.
fn packet_in(bytes: &[u8]) -> &[u8]
    requires { length bytes.now ≤ IP_MAX_PACKET }
    ensures { length result.now ≤ IP_MAX_PACKET }
{
    if bytes.len() < 4 {
        return bytes;
    }
    let total = BigEndian::read_u16(&bytes[2..]);
    &bytes[..bytes.len().min(total as usize)]
}

/// All packets of some bytes arrive, in order. Returns how many datagrams they completed.
fn all_arrive(pool: &mut Pool, table: &mut Reass, counters: &mut Counters, packets: &[u8]) -> u32
    requires { IsReady pool.old table.old }
    ensures { IsReady pool.new table.new }
{
    let mut whole = 0u32;
    'packets: for bytes in packets.chunks(APART) {
        let made = arrives(pool, table, counters, packet_in(bytes), 1);
        whole = whole.saturating_add(made);
    }
    whole
}

/// Packets that are 1,500 bytes apart arrive in order as fragments at a pool of `mbufs` mbufs, `times` times; datagrams
/// that they complete are freed. Returns how many datagrams that were: `uint32_t bsdudp_reassemble(const uint8_t
/// *packets, size_t len, uint32_t mbufs, uint32_t times)`.
#[unsafe(no_mangle)]
pub extern "C" fn bsdudp_reassemble(alloc: Global, packets: &[u8], mbufs: u32, times: u32) -> u32 {
    let Some((mut pool, mut table)) = ready(alloc, mbufs, 16) else {
        return 0;
    };
    let mut counters = Counters::none();
    let mut whole = 0u32;
    'turns: for _ in 0..times {
        let made = all_arrive(&mut pool, &mut table, &mut counters, packets);
        whole = whole.saturating_add(made);
    }
    table.end(&mut pool);
    whole
}

/// With `held` unfinished datagrams of one fragment each, `times` times the fragment `first` arrives under a key that
/// none of them has, and then `last`, which completes its datagram; that is freed. Returns how many were completed:
/// `uint32_t bsdudp_new_keys(const uint8_t *first, size_t first_len, const uint8_t *last, size_t last_len, uint16_t
/// held, uint32_t times)`.
#[unsafe(no_mangle)]
pub extern "C" fn bsdudp_new_keys(
    alloc: Global,
    first: &[u8],
    last: &[u8],
    held: u16,
    times: u32,
) -> u32 {
    if first.len() > IP_MAX_PACKET as usize || last.len() > IP_MAX_PACKET as usize {
        return 0;
    }
    let Some((mut pool, mut table)) = ready(alloc, 65_535, 16) else {
        return 0;
    };
    let mut counters = Counters::none();
    'held: for id in 0..held {
        let _ = arrives(&mut pool, &mut table, &mut counters, first, id);
    }
    let mut whole = 0u32;
    'turns: for _ in 0..times {
        let _ = arrives(&mut pool, &mut table, &mut counters, first, held);
        let made = arrives(&mut pool, &mut table, &mut counters, last, held);
        whole = whole.saturating_add(made);
    }
    table.end(&mut pool);
    whole
}

/// With `held` unfinished datagrams of one fragment each, `times` times the fragment `last` completes the oldest of
/// all, which is freed, and `first` begins it again, as the newest. Returns how many were completed: `uint32_t
/// bsdudp_oldest_keys(const uint8_t *first, size_t first_len, const uint8_t *last, size_t last_len, uint16_t held,
/// uint32_t times)`.
#[unsafe(no_mangle)]
pub extern "C" fn bsdudp_oldest_keys(
    alloc: Global,
    first: &[u8],
    last: &[u8],
    held: u16,
    times: u32,
) -> u32 {
    if first.len() > IP_MAX_PACKET as usize || last.len() > IP_MAX_PACKET as usize {
        return 0;
    }
    let Some((mut pool, mut table)) = ready(alloc, 65_535, 16) else {
        return 0;
    };
    let mut counters = Counters::none();
    'held: for id in 0..held {
        let _ = arrives(&mut pool, &mut table, &mut counters, first, id);
    }
    let _ = arrives(&mut pool, &mut table, &mut counters, first, held);
    let mut oldest = 0u16;
    let mut whole = 0u32;
    'turns: for _ in 0..times {
        let made = arrives(&mut pool, &mut table, &mut counters, last, oldest);
        let _ = arrives(&mut pool, &mut table, &mut counters, first, oldest);
        whole = whole.saturating_add(made);
        oldest = if oldest < held { oldest + 1 } else { 0 };
    }
    table.end(&mut pool);
    whole
}
