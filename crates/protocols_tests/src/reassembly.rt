//! Packets that arrive, and ticks: what happens to each fragment, worked out by hand from 4.4BSD's rules.

mod steps;

ghost use Rattle.std.specs.Prelude.{◌≡◌, ◌∷◌, ◌≤◌, length, true};
ghost use Rattle.mbuf_chain.specs.Chain.{chain_of, string};
ghost use Rattle.mbuf_chain.specs.Owners.{IsOwned};
ghost use Rattle.ip_reass.specs.Table.{IsReady, held_all};

use chain_ops::m_copydata;
use flat_model::{Counter, Why};
use ip_out::{IpHead, read_head};
use ip_reass::{Arrival, Reass};
use mbuf_chain::{Chain, Pool};
use params::{IP_HEADER, IP_MAX_PACKET};
use std::alloc::Global;
use std::process::Abort;
use steps::{Host, booted, received};

/// What happens to a fragment; for a whole datagram, the bytes after its IP header.
#[derive(Clone, Copy, PartialEq, Eq)]
enum Became {
    Kept,
    Dropped(Why),
    Whole(&'static [u8]),
}

/// What happens, and what is checked then.
enum Event {
    /// A packet arrives.
    Arrives(&'static [u8], Became),
    /// This many ticks, and how many datagrams they end.
    Ticks(u32, u32),
    /// How many of 512 mbufs are free.
    Free(u32),
    /// The value of a counter.
    Counted(Counter, u64),
}

use Became::{Dropped, Kept, Whole};
use Event::{Arrives, Counted, Free, Ticks};

/// The IP header of each packet is on a line of its own. They're from 10.0.0.2 to 10.0.0.1; the bytes after the header
/// are a UDP header if they aren't letters.
static CASES: [(&str, &[Event]); 3] = [
    // Each overlaps the one before and begins earlier, so those in the queue lose their front.
    (
        "later ones lose their front",
        &[
            Arrives(
                b"\x45\x00\x00\x24\x00\x05\x00\x02\x40\x11\x66\xc0\x0a\x00\x00\x02\x0a\x00\x00\x01\
                  cccccccccccccccc",
                Kept,
            ),
            Arrives(
                b"\x45\x00\x00\x24\x00\x05\x20\x01\x40\x11\x46\xc1\x0a\x00\x00\x02\x0a\x00\x00\x01\
                  dddddddddddddddd",
                Kept,
            ),
            Free(509),
            Arrives(
                b"\x45\x00\x00\x24\x00\x05\x20\x00\x40\x11\x46\xc2\x0a\x00\x00\x02\x0a\x00\x00\x01\
                  \x13\x88\x00\x07\x00\x20\x00\x00eeeeeeee",
                Whole(b"\x13\x88\x00\x07\x00\x20\x00\x00eeeeeeeeddddddddcccccccc"),
            ),
            Free(512),
            Counted(Counter::IpReassembled, 1),
        ],
    ),
    // The first fragment has all of the second.
    (
        "held by a predecessor",
        &[
            Arrives(
                b"\x45\x00\x00\x24\x00\x06\x20\x00\x40\x11\x46\xc1\x0a\x00\x00\x02\x0a\x00\x00\x01\
                  \x13\x88\x00\x07\x00\x18\x00\x00aaaaaaaa",
                Kept,
            ),
            Arrives(
                b"\x45\x00\x00\x1c\x00\x06\x20\x01\x40\x11\x46\xc8\x0a\x00\x00\x02\x0a\x00\x00\x01\
                  cccccccc",
                Dropped(Why::FragmentDropped),
            ),
            Counted(Counter::IpFragments, 2),
            Counted(Counter::IpFragdropped, 1),
            Arrives(
                b"\x45\x00\x00\x1c\x00\x06\x00\x02\x40\x11\x66\xc7\x0a\x00\x00\x02\x0a\x00\x00\x01\
                  bbbbbbbb",
                Whole(b"\x13\x88\x00\x07\x00\x18\x00\x00aaaaaaaabbbbbbbb"),
            ),
            Free(512),
        ],
    ),
    // A datagram ends at its 60th tick.
    (
        "times out",
        &[
            Arrives(
                b"\x45\x00\x00\x1c\x00\x06\x00\x02\x40\x11\x66\xc7\x0a\x00\x00\x02\x0a\x00\x00\x01\
                  bbbbbbbb",
                Kept,
            ),
            Ticks(59, 0),
            Free(510),
            Ticks(1, 1),
            Free(512),
        ],
    ),
];

/// Receives a packet into the pool of a table. Also returns its header.
fn fragment_in(rt: &impl Abort, pool: &mut Pool, table: &Reass, packet: &[u8]) -> (Chain, IpHead)
    requires { IsReady pool.old table.now }
    ensures ready { IsReady pool.new table.now }
    ensures owned { IsOwned pool.new (result.0 ∷ held_all pool.new table.now.datagrams) }
    ensures headed { (chain_of pool.new result.0).front.header ≡ true }
    ensures total { length (string (chain_of pool.new result.0)) ≡ result.1.total }
    ensures header { IP_HEADER ≤ result.1.total }
    ensures offset { result.1.offset ≤ IP_MAX_PACKET }
{
    assert!(rt; packet.len() <= 64);
    let chain = received(rt, pool, table, packet);
    let Ok(head) = read_head(pool, &chain) else {
        panic!(rt; "no packet")
    };
    let total = u32::from(head.total);
    assert!(rt; total == pool.len(&chain) && total >= IP_HEADER && head.offset <= IP_MAX_PACKET);
    (chain, head)
}

/// Returns whether a whole datagram has these bytes, and frees it.
fn has_bytes(rt: &impl Abort, pool: &mut Pool, table: &Reass, chain: Chain, bytes: &[u8]) -> bool
    requires owned { IsOwned pool.old (chain ∷ held_all pool.old table.now.datagrams) }
    requires ready { IsReady pool.old table.now }
    ensures { IsReady pool.new table.now }
{
    let mut buffer = [0; 64];
    let len = pool.len(&chain) as usize;
    assert!(rt; len <= 64);
    m_copydata(pool, &chain, 0, &mut buffer[..len]);
    pool.free_chain(chain);
    buffer.get(..len) == Some(bytes)
}

/// Returns whether this happens to a packet that arrives.
fn becomes(rt: &impl Abort, host: &mut Host, packet: &[u8], want: Became) -> bool
    requires { IsReady host.old.pool host.old.table }
    ensures { IsReady host.new.pool host.new.table }
{
    let (chain, head) = fragment_in(rt, &mut host.pool, &host.table, packet);
    let arrival = host
        .table
        .arrive(&mut host.pool, &mut host.counters, chain, head);
    match arrival {
        Arrival::Kept => want == Kept,
        Arrival::Dropped(why) => want == Dropped(why),
        Arrival::Whole(chain, _) => {
            let Whole(bytes) = want else {
                panic!(rt; "the datagram is whole")
            };
            has_bytes(rt, &mut host.pool, &host.table, chain, bytes)
        }
    }
}

/// Returns whether an event has its expected result.
fn comes_out(rt: &impl Abort, host: &mut Host, event: &Event) -> bool
    requires { IsReady host.old.pool host.old.table }
    ensures { IsReady host.new.pool host.new.table }
{
    match event {
        Arrives(packet, want) => becomes(rt, host, packet, *want),
        Ticks(n, ended) => host.ticks(*n) == *ended,
        Free(mbufs) => host.pool.free_mbufs() == *mbufs,
        Counted(counter, value) => host.counters.value(*counter) == *value,
    }
}

/// Returns whether all events have their expected results on a table of their own, and all of the pool is free when
/// that ends.
fn all_comes_out(rt: &impl Abort, alloc: Global, case: &str, events: &[Event]) -> bool {
    let mut host = booted(rt, alloc, 512, 64);
    'events: for (row, event) in events.iter().enumerate() {
        assert!(rt; comes_out(rt, &mut host, event), "{case}: row {row}");
    }
    host.ended()
}

#[test]
fn what_happens_to_fragments(rt: HostRuntime) {
    for (case, events) in CASES.iter() {
        assert!(rt; all_comes_out(&rt, rt.alloc(), case, events), "{case}");
    }
}
