//! The fragments of an unfinished datagram, in order of offset, as a train (TCP/IP Illustrated, volume 2, chapter 10).
ghost use Rattle.std.specs.Prelude.{◌≡◌, ◌+◌, ◌-◌, ◌<◌, ◌≤◌, ◌++◌, ◌∷◌, [], true, length, take, drop, remove, slice_set};
ghost use Rattle.mbuf_chain.specs.Chain.{IsLive, chain_of, string, alone, flat_bytes};
ghost use Rattle.mbuf_chain.specs.Owners.{times_among, Moves};
ghost use Rattle.mbuf_chain.specs.Train.{numbers, queued_packet_at, IsQueuedPlace, IsHeld};
ghost use Rattle.ip_reass.specs.Fragments.{AllEnd, IsQueue, bytes_held, cut, cut_to, fragments, joined_fragments, map_of, queued, queued_end};
ghost use Rattle.ip_reass.specs.Inside.Queue.{CanClear, CanInsert, HasNext, LeavesFront};
ghost use Rattle.ip_reass.specs.Inside.Walks.{AllAbove, AllUpto, IsFront, ReportsWhole, arrived, after, is_left, queued_at, reach};
ghost use Rattle.ip_reass.specs.Inside.Steps.{IsInserted};

use crate::datagram::Datagram;
use crate::place::{insert_after, next_after, take_after};
use crate::span::{Span, Tag};
use chain_ops::{cat_after, trim_front};
use mbuf_chain::{Chain, Pool, QueuedPlace, Train};
use params::{IP_MAX_DATA, appends_fragments};

/// The fragments before the place of a new one.
#[derive(Clone, Copy)]
struct Before {
    /// The last of the fragments that begin no later.
    front: Option<QueuedPlace>,
    /// Its end.
    end: u32,
}

/// Returns the fragments that begin no later than an offset.
fn walk_to(pool: &Pool, train: &Train, offset: u32) -> Before
    requires { IsQueue pool.now train.now }
    ensures front { IsFront pool.now train.now result.front }
    ensures upto { AllUpto offset (take (after result.front) (fragments pool.now train.now)) }
    ensures above { AllAbove offset (drop (after result.front) (fragments pool.now train.now)) }
    ensures end { result.end ≡ reach 0 (take (after result.front) (fragments pool.now train.now)) }
{
    let mut found = Before {
        front: None,
        end: 0,
    };
    'fragments: while let Some(at) = next_after(pool, train, found.front) {
        let begin = begins(pool, train, at);
        if begin > offset {
            return found;
        }
        found = Before {
            front: Some(at),
            end: begin + train.len_at(pool, at),
        };
    }
    found
}

/// Returns the tag of the fragment that has `i` before it.
fn tag_of(pool: &Pool, train: &Train, i: u32) -> Tag
    requires place { i < train.now.len }
    requires held { IsHeld pool.now train.now }
    ensures { result.bits ≡ (queued_packet_at pool.now train.now i).tag }
{
    Tag {
        bits: train.tag(pool, i),
    }
}

/// Returns the end of the last fragment, or 0 if there are no fragments. It takes O(1) steps.
// Inlined, because each arrival begins with it: as a call it cost seven fragments 95 more instructions.
#[inline(always)]
fn end_of_last(pool: &Pool, train: &Train) -> u32
    requires { IsQueue pool.now train.now }
    ensures { result ≡ reach 0 (fragments pool.now train.now) }
{
    if train.is_empty() {
        return 0;
    }
    let last = train.len() - 1;
    tag_of(pool, train, last).offset() + train.chain_len(pool, last)
}

/// Returns the offset of the fragment at a place.
fn begins(pool: &Pool, train: &Train, at: QueuedPlace) -> u32
    requires place { IsQueuedPlace pool.now train.now at }
    requires held { IsHeld pool.now train.now }
    ensures { result ≡ (queued_at (queued pool.now train.now) at.index).offset }
{
    let tag = Tag {
        bits: train.tag_at(pool, at),
    };
    tag.offset()
}

/// Returns the first offset after the fragment at a place.
fn ends(pool: &Pool, train: &Train, at: QueuedPlace) -> u32
    requires place { IsQueuedPlace pool.now train.now at }
    requires held { IsHeld pool.now train.now }
    requires small { AllEnd IP_MAX_DATA (fragments pool.now train.now) }
    ensures { result ≡ queued_end (queued_at (queued pool.now train.now) at.index) }
{
    begins(pool, train, at) + train.len_at(pool, at)
}

/// Removes the fragment after a place and frees it.
fn free_after(pool: &mut Pool, train: &mut Train, front: Option<QueuedPlace>)
    requires { HasNext pool.old train.old front }
    ensures queue { queued pool.new train.new ≡ remove (queued pool.old train.old) (after front) }
    ensures left { LeavesFront pool.old (numbers pool.old train.old) pool.new train.new front }
    ensures len { train.new.len + 1 ≡ train.old.len }
{
    let (chain, _) = take_after(pool, train, front);
    pool.free_chain(chain);
}

/// Cuts the first n bytes off the fragment after a place, like `m_adj`.
fn trim_after(pool: &mut Pool, train: &mut Train, front: Option<QueuedPlace>, n: u32)
    requires next { HasNext pool.old train.old front }
    requires small { AllEnd IP_MAX_DATA (fragments pool.old train.old) }
    requires within { n ≤ length (flat_bytes (queued_at (queued pool.old train.old) (after front)).entries) }
    ensures queue { queued pool.new train.new ≡
        slice_set (queued pool.old train.old) (after front)
        (cut n (queued_at (queued pool.old train.old) (after front))) }
    ensures left { LeavesFront pool.old (numbers pool.old train.old) pool.new train.new front }
    ensures len { train.new.len ≡ train.old.len }
{
    let (chain, tag) = take_after(pool, train, front);
    let moved = Tag { bits: tag }.moved(n);
    trim_front(pool, &chain, n);
    insert_after(pool, train, front, chain, moved.bits);
}

/// Removes the bytes below an offset from the fragments after a place: whole fragments, and the front of one. Returns
/// how many bytes that are.
fn clear(pool: &mut Pool, train: &mut Train, front: Option<QueuedPlace>, end: u32) -> u32
    requires { CanClear pool.old train.old front }
    ensures queue { queued pool.new train.new ≡
        take (after front) (queued pool.old train.old) ++ cut_to end (drop (after front) (queued pool.old train.old)) }
    ensures left { LeavesFront pool.old (numbers pool.old train.old) pool.new train.new front }
    ensures len { train.new.len ≤ train.old.len }
    ensures gone { result + bytes_held (fragments pool.new train.new) ≡ bytes_held (fragments pool.old train.old) }
{
    let mut gone = 0;
    'fragments: while let Some(at) = next_after(pool, train, front) {
        let begin = begins(pool, train, at);
        if end <= begin {
            return gone;
        }
        let limit = ends(pool, train, at);
        if end < limit {
            trim_after(pool, train, front, end - begin);
            return gone + (end - begin);
        }
        free_after(pool, train, front);
        gone += limit - begin;
    }
    gone
}

/// Puts the rest of a fragment after those that begin no later, and removes the bytes that it has from those after
/// it. Returns how many bytes these lose.
fn insert_trimmed(
    pool: &mut Pool,
    train: &mut Train,
    chain: Chain,
    before: Before,
    span: Span,
) -> u32
    requires clear { CanClear pool.old train.old before.front }
    requires live { IsLive pool.old chain }
    requires headed { (chain_of pool.old chain).front.header ≡ true }
    requires apart { times_among chain (numbers pool.old train.old) ≡ 0 }
    requires left { before.end - span.offset < length (string (chain_of pool.old chain)) }
    requires within { span.offset + length (string (chain_of pool.old chain)) ≤ IP_MAX_DATA }
    ensures queue { let f = arrived pool.old chain span.offset span.more in
        queued pool.new train.new ≡ take (after before.front) (queued pool.old train.old)
        ++ cut (before.end - span.offset) f ∷ cut_to (queued_end f)
        (drop (after before.front) (queued pool.old train.old)) }
    ensures left { LeavesFront pool.old (chain ∷ numbers pool.old train.old) pool.new train.new before.front }
    ensures gone { result + bytes_held (fragments pool.new train.new) ≡ bytes_held (fragments pool.old train.old)
        + (length (string (chain_of pool.old chain)) - (before.end - span.offset)) }
{
    let end = span.offset + pool.len(&chain);
    let skip = before.end.saturating_sub(span.offset);
    let tag = Tag::new(Span {
        offset: span.offset + skip,
        ..span
    });
    trim_front(pool, &chain, skip);
    let gone = clear(pool, train, before.front, end);
    insert_after(pool, train, before.front, chain, tag.bits);
    gone
}

/// What happened to a fragment that was put among those of its datagram.
pub(crate) enum Insertion {
    /// None of its bytes was left.
    Covered,
    /// The datagram isn't whole with it.
    Waits,
    /// The datagram is whole with it, and has that many bytes.
    Whole(u32),
}

/// Returns `Whole` if the fragments are a whole datagram: none follows the last, and the number of their bytes is its
/// end, so none is missing. Otherwise returns `Waits`.
#[inline(never)]
fn whole(pool: &Pool, datagram: &Datagram) -> Insertion
    requires queue { IsQueue pool.now datagram.now.fragments }
    requires some { 0 < datagram.now.fragments.len }
    requires counted { datagram.now.bytes ≡ bytes_held (fragments pool.now datagram.now.fragments) }
    ensures left { is_left result ≡ true }
    ensures whole { ReportsWhole (map_of (fragments pool.now datagram.now.fragments)) result }
{
    let train = &datagram.fragments;
    if tag_of(pool, train, train.len() - 1).more() {
        return Insertion::Waits;
    }
    let bytes = u32::from(datagram.bytes);
    if bytes < end_of_last(pool, train) {
        return Insertion::Waits;
    }
    Insertion::Whole(bytes)
}

/// Puts a fragment after all others, which end no later than it begins. Then it's the last, so nothing has to be read
/// to find out whether the datagram is whole.
#[inline(always)]
fn append(pool: &mut Pool, datagram: &mut Datagram, chain: Chain, span: Span) -> Insertion
    requires can { CanInsert pool.old datagram.old chain span.offset }
    requires past { reach 0 (fragments pool.old datagram.old.fragments) ≤ span.offset }
    ensures left { is_left result ≡ true }
    ensures inserted { IsInserted pool.old datagram.old chain (arrived pool.old chain span.offset span.more) true
        pool.new datagram.new }
    ensures whole { ReportsWhole (map_of (fragments pool.new datagram.new.fragments)) result }
{
    let len = pool.len(&chain);
    let place = datagram.fragments.len();
    let tag = Tag::new(span);
    let bytes = u32::from(datagram.bytes) + len;
    datagram.bytes = bytes as u16;
    datagram.fragments.insert(pool, place, chain, tag.bits);
    if span.more {
        return Insertion::Waits;
    }
    if bytes < span.offset + len {
        return Insertion::Waits;
    }
    Insertion::Whole(bytes)
}

/// Puts a fragment at its place, which is found by a walk. The fragments before it keep their bytes, those after it
/// lose the bytes that it has. A fragment without bytes left is freed, and the others are unchanged. Returns
/// whether something was left.
// Not inlined, like `whole`: few fragments come out of order.
#[inline(never)]
fn insert_between(pool: &mut Pool, datagram: &mut Datagram, chain: Chain, span: Span) -> bool
    requires { CanInsert pool.old datagram.old chain span.offset }
    ensures inserted { IsInserted pool.old datagram.old chain (arrived pool.old chain span.offset span.more) result
        pool.new datagram.new }
    ensures reach { reach 0 (fragments pool.old datagram.old.fragments)
        ≤ reach 0 (fragments pool.new datagram.new.fragments) }
{
    let len = pool.len(&chain);
    let train = &mut datagram.fragments;
    let before = walk_to(pool, train, span.offset);
    let lost = before.end.saturating_sub(span.offset);
    if len <= lost {
        pool.free_chain(chain);
        return false;
    }
    let gone = insert_trimmed(pool, train, chain, before, span);
    let bytes = u32::from(datagram.bytes) + (len - lost) - gone;
    datagram.bytes = bytes as u16;
    true
}

/// Puts a fragment among the others. Nearly every fragment comes in order: it goes after the last, whose end is tested
/// first, so it passes none of the others. If it goes elsewhere and bytes are missing below that end, the last one
/// isn't read again.
#[inline(always)]
pub(crate) fn insert(
    pool: &mut Pool,
    datagram: &mut Datagram,
    chain: Chain,
    span: Span,
) -> Insertion
    requires { CanInsert pool.old datagram.old chain span.offset }
    ensures inserted { IsInserted pool.old datagram.old chain (arrived pool.old chain span.offset span.more)
        (is_left result) pool.new datagram.new }
    ensures whole { ReportsWhole (map_of (fragments pool.new datagram.new.fragments)) result }
{
    if !appends_fragments() {
        // `insert_between` also finds the place after the last.
        if !insert_between(pool, datagram, chain, span) {
            return Insertion::Covered;
        }
        return whole(pool, datagram);
    }
    let end = end_of_last(pool, &datagram.fragments);
    if end <= span.offset {
        return append(pool, datagram, chain, span);
    }
    if !insert_between(pool, datagram, chain, span) {
        return Insertion::Covered;
    }
    let bytes = u32::from(datagram.bytes);
    if bytes < end {
        return Insertion::Waits;
    }
    whole(pool, datagram)
}

/// Joins the fragments, in order, into one chain, like `m_cat`.
pub(crate) fn join_all(pool: &mut Pool, train: Train) -> Chain
    requires held { IsHeld pool.old train }
    requires some { 0 < train.len }
    ensures entries { (chain_of pool.new result).entries ≡ joined_fragments (queued pool.old train) }
    ensures front { (chain_of pool.new result).front ≡ alone true }
    ensures moves { Moves pool.old (numbers pool.old train) pool.new (result ∷ []) }
{
    let mut rest = train;
    let (chain, _) = rest.take(pool, 0);
    let mut last = pool.last(&chain);
    'fragments: while rest.len() > 0 {
        let (next, _) = rest.take(pool, 0);
        last = cat_after(pool, &chain, last, next);
    }
    rest.free(pool);
    chain
}
