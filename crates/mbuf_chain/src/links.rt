//! Freeing, joining and cutting chains.
ghost use Rattle.std.specs.Prelude.{◌≡◌, ◌≢◌, ℕ, ◌+◌, ◌<◌, ◌≤◌, true, IsTrue, Some, None, length, take, MatchOption, is_some, if◌then◌else◌};
ghost use Rattle.mbuf_pool.specs.Store.{IsStore, is_out, mbuf_head};
ghost use Rattle.mbuf_chain.specs.Chain.{IsPlace, chain_of, with_chain, without, string_in, room_start, room_end, leading_space, trailing_space, Adds, entry_in, HasLeadingSpace, HasTrailingSpace};
ghost use Rattle.mbuf_chain.specs.Steps.{linked, first_part, second_part};
ghost use Rattle.mbuf_chain.specs.Inside.Access.{HasChain, HasMbuf};
ghost use Rattle.mbuf_chain.specs.Inside.Cells.{IsPool, LeadsToEnd, pool_of, cells_from, weigh, one, len_at, last_of, packet_len};

use crate::cells::{bytes_from, count_from, free_from, free_mbuf};
use crate::data::set_total;
use crate::place::{Place, Segment};
use mbuf_pool::{Change, PacketHeader, Store};
use params::{MBUF_HEADER, MSIZE, PACKET_START};

/// Returns how many bytes a chain has.
#[inline(always)]
pub(crate) fn bytes_of(store: &Store, first: u32) -> u32
    requires { HasChain store.now first }
    ensures { result ≡ length (string_in (pool_of store.now) first) }
{
    match store.head(first).packet {
        Some(packet) => packet.len,
        None => bytes_from(store, first),
    }
}

/// Returns how many mbufs a chain has.
pub(crate) fn mbufs_of(store: &Store, first: u32) -> u32
    requires { HasChain store.now first }
    ensures { result ≡ length (chain_of (pool_of store.now) first).entries }
{
    count_from(store, first)
}

/// Returns whether a chain has a packet header.
#[inline(always)]
pub(crate) fn has_header(store: &Store, first: u32) -> bool
    requires { HasChain store.now first }
    ensures { result ≡ (chain_of (pool_of store.now) first).front.header }
{
    store.head(first).packet.is_some()
}

/// Returns the place after another.
pub(crate) fn next(store: &Store, first: u32, at: Place) -> Option<Place>
    requires { HasMbuf store.now first at }
    ensures { MatchOption result (at.index + 1 ≡
        length (chain_of (pool_of store.now) first).entries)
        (λ q. IsPlace (chain_of (pool_of store.now) first) q × (q.index ≡ at.index + 1)) }
{
    match store.head(at.cell).next {
        Some(cell) => Some(Place {
            index: at.index + 1,
            cell,
        }),
        None => None,
    }
}

/// Returns the place of a chain's last mbuf.
pub(crate) fn last(store: &Store, start: u32) -> Place
    requires { HasChain store.now start }
    ensures place { IsPlace (chain_of (pool_of store.now) start) result }
    ensures index { result.index + 1 ≡ length (chain_of (pool_of store.now) start).entries }
{
    let mut at = Place {
        index: 0,
        cell: start,
    };
    let mut after = next(store, start, at);
    'mbufs: while let Some(place) = after {
        at = place;
        after = next(store, start, at);
    }
    at
}

/// Returns the location of an mbuf's bytes.
#[inline(always)]
pub(crate) fn segment(store: &Store, first: u32, at: Place) -> Segment
    requires { HasMbuf store.now first at }
    ensures value { result ≡ record {
      start = (entry_in (pool_of store.now) first at).start;
      len = length (entry_in (pool_of store.now) first at).bytes;
      cluster = (entry_in (pool_of store.now) first at).cluster;
    } }
    ensures known { (c : ℕ) → (entry_in (pool_of store.now) first at).cluster ≡ Some c →
        c < length store.now.clusters }
    ensures low { room_start (chain_of (pool_of store.now) first) at.index ≤ result.start }
    ensures high { result.start + result.len ≤ room_end (entry_in (pool_of store.now) first at) }
{
    let head = store.head(at.cell);
    Segment {
        start: head.start,
        len: head.len,
        cluster: head.cluster,
    }
}

/// Returns the offset at which the data area of an mbuf begins, with or without a packet header.
#[inline(always)]
fn data_start(packet: Option<PacketHeader>) -> u32
    ensures { result ≡ (if is_some packet then PACKET_START else MBUF_HEADER) }
{
    match packet {
        Some(_) => PACKET_START,
        None => MBUF_HEADER,
    }
}

/// Returns the number of free bytes before an mbuf's data.
#[inline(always)]
pub(crate) fn leading_space(store: &Store, first: u32, at: Place) -> u32
    requires { HasMbuf store.now first at }
    ensures value { result ≡ leading_space (chain_of (pool_of store.now) first) at.index }
    ensures within { HasLeadingSpace (chain_of (pool_of store.now) first) at.index result }
{
    let head = store.head(at.cell);
    if head.cluster.is_some() {
        0
    } else {
        head.start - data_start(head.packet)
    }
}

/// Returns the number of free bytes after an mbuf's data.
pub(crate) fn trailing_space(store: &Store, first: u32, at: Place) -> u32
    requires { HasMbuf store.now first at }
    ensures value { result ≡ trailing_space (entry_in (pool_of store.now) first at) }
    ensures within { HasTrailingSpace (entry_in (pool_of store.now) first at) result }
{
    let head = store.head(at.cell);
    if head.cluster.is_some() {
        0
    } else {
        MSIZE - head.start - head.len
    }
}

/// Frees a chain's mbufs and their cluster references.
pub(crate) fn free_chain(store: &mut Store, first: u32)
    requires { HasChain store.old first }
    ensures pool { IsPool store.new }
    ensures change { pool_of store.new ≡ without (pool_of store.old) first }
{
    free_from(store, first);
}

/// Frees the first mbuf of a chain of two or more and its cluster reference. Returns the number of the rest.
pub(crate) fn free_first(store: &mut Store, first: u32) -> u32
    requires chain { HasChain store.old first }
    requires several { 1 < length (chain_of (pool_of store.old) first).entries }
    ensures pool { IsPool store.new }
    ensures change { Adds (without (pool_of store.old) first) (pool_of store.new) result
        (second_part 1 (chain_of (pool_of store.old) first)) }
{
    free_mbuf(store, first).unwrap()
}

/// Returns how many bytes the packet length of a chain grows by when another chain is linked after it. This is 0
/// without a packet header, because then no length is stored.
pub(crate) fn added_by(store: &Store, front: u32, back: u32) -> u32
    requires front { HasChain store.now front }
    requires back { HasChain store.now back }
    ensures { (chain_of (pool_of store.now) front).front.header ≡ true →
        result ≡ length (string_in (pool_of store.now) back) }
{
    if has_header(store, front) {
        bytes_of(store, back)
    } else {
        0
    }
}

/// Links a chain after another. The chain that is linked loses its packet header. If the other has one, `added` is the
/// number of bytes of the chain that is linked.
pub(crate) fn link(store: &mut Store, front: u32, last: Place, back: u32, added: u32) -> Place
    requires place { HasMbuf store.old front last }
    requires back { HasChain store.old back }
    requires apart { front ≢ back }
    requires last { last.index + 1 ≡ length (chain_of (pool_of store.old) front).entries }
    requires bytes { (chain_of (pool_of store.old) front).front.header ≡ true →
        added ≡ length (string_in (pool_of store.old) back) }
    ensures pool { IsPool store.new }
    ensures change { pool_of store.new ≡ linked (pool_of store.old) front back }
    ensures place { IsPlace (chain_of (pool_of store.new) front) result }
    ensures index { result.index ≡ last.index + 1 }
{
    store.change_head(back, Change::NoPacket);
    store.change_head(back, Change::NextPacket(None));
    store.change_head(last.cell, Change::Next(Some(back)));
    set_total(store, front, added, 0);
    Place {
        index: last.index + 1,
        cell: back,
    }
}

/// Returns the last of a chain's first `keep` mbufs, and how many bytes these mbufs have.
fn end_of(store: &Store, first: u32, keep: u32) -> (u32, u32)
    requires whole { LeadsToEnd store.now (Some first) }
    requires store { IsStore store.now }
    requires some { 0 < keep }
    requires within { keep ≤ weigh one (cells_from store.now (Some first)) }
    ensures cell { result.0 ≡ last_of (take keep (cells_from store.now (Some first))) }
    ensures bytes { result.1 ≡
        weigh (len_at store.now) (take keep (cells_from store.now (Some first))) }
{
    let mut at = first;
    let mut head = store.head(first);
    let mut bytes = head.len;
    'mbufs: for _ in 1..keep {
        at = head.next.unwrap();
        head = store.head(at);
        bytes += head.len;
    }
    (at, bytes)
}

/// Returns the packet length of a chain, or 0 if it has no packet header.
fn packet_len(store: &Store, first: u32) -> u32
    requires { IsTrue (is_out store.now first) }
    ensures { result ≡ packet_len (mbuf_head store.now first) }
{
    match store.head(first).packet {
        Some(packet) => packet.len,
        None => 0,
    }
}

/// Cuts a chain after its first `keep` mbufs, and returns the number of the rest.
pub(crate) fn cut(store: &mut Store, first: u32, keep: u32) -> u32
    requires chain { HasChain store.old first }
    requires some { 0 < keep }
    requires within { keep < length (chain_of (pool_of store.old) first).entries }
    ensures pool { IsPool store.new }
    ensures change { Adds (with_chain (pool_of store.old) first
        (first_part keep (chain_of (pool_of store.old) first))) (pool_of store.new) result
        (second_part keep (chain_of (pool_of store.old) first)) }
{
    let whole = packet_len(store, first);
    let (last, kept) = end_of(store, first, keep);
    let head = store.head(last);
    let rest = head.next.unwrap();
    store.change_head(last, Change::Next(None));
    set_total(store, first, kept, whole);
    rest
}
