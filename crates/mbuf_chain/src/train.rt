//! Trains of chains.

ghost use Rattle.std.specs.Prelude.{◌≡◌, ◌==◌, ◌+◌, ◌<◌, ◌≤◌, [], true, Some, None, MatchOption, length, insert, remove, slice_get};
ghost use Rattle.mbuf_chain.specs.Chain.{IsLive, chain_of, flat_bytes, alone};
ghost use Rattle.mbuf_chain.specs.Owners.{times_among, Moves};
ghost use Rattle.mbuf_chain.specs.Heads.{heads, nth_heads};
ghost use Rattle.mbuf_chain.specs.Pieces.{pieces_of};
ghost use Rattle.mbuf_chain.specs.Train.{queued_packets, queued_packet_at, numbers, IsQueuedPlace, IsHeld, Inserts, Takes, MovesIn, MovesOut};

use crate::chain::Chain;
use crate::pieces::{MbufHeads, Pieces};
use crate::pool::Pool;
use crate::queued_place::QueuedPlace;
use std::marker::Model;

/// A list of chains. Each is linked to the next through their first mbufs, and each has a tag, which is stored in its
/// packet header. A train takes no buffer. It must be consumed: by `free`, or by `end_empty` if no chain is left.
///
/// The chains stay in the pool that is passed to each call. It must be the pool that they came from.
// A train is small, because each socket and each unfinished datagram has one: its two ends are plain numbers, which
// have no meaning while there is no chain.
pub struct Train {
    first: u32,
    last: u32,
    len: u32,
}

impl Model for Train {
    ghost use Rattle.std.specs.Prelude.{◌==◌, None, Some, if◌then◌else◌};
    ghost use Rattle.mbuf_chain.specs.Train.{TrainView};

    ghost Value = { TrainView };

    ghost view = { λ t. record {
      first = if t.len == 0 then None else Some t.first;
      last = if t.len == 0 then None else Some t.last;
      len = t.len;
    } };
}

impl Train {
    /// Creates a train without chains.
    pub const fn new() -> Train
        ensures { result ≡ record { first = None; last = None; len = 0 } }
    {
        Train {
            first: 0,
            last: 0,
            len: 0,
        }
    }

    /// Returns the number of chains.
    pub const fn len(&self) -> u32
        ensures { result ≡ self.now.len }
    {
        self.len
    }

    /// Returns whether there is no chain.
    pub const fn is_empty(&self) -> bool
        ensures { result ≡ (self.now.len == 0) }
    {
        self.len == 0
    }

    /// Inserts a chain at index `i`, with a tag. The index is at most the number of chains, and the chain must have a
    /// packet header. At the front and at the end this takes O(1) steps, elsewhere one step for each chain before it.
    // Inlined, so that a caller at the front or at the end takes only these few steps.
    #[inline(always)]
    pub fn insert(&mut self, pool: &mut Pool, i: u32, chain: Chain, tag: u32)
        requires place { i ≤ self.old.len }
        requires live { IsLive pool.old chain }
        requires headed { (chain_of pool.old chain).front.header ≡ true }
        requires held { IsHeld pool.old self.old }
        requires apart { times_among chain (numbers pool.old self.old) ≡ 0 }
        ensures queued_packets { queued_packets pool.new self.new ≡
            insert (queued_packets pool.old self.old) i
            (record { number = chain; entries = (chain_of pool.old chain).entries; tag = tag }) }
        ensures held { IsHeld pool.new self.new }
        ensures len { self.new.len ≡ self.old.len + 1 }
        ensures moves { MovesIn pool.old self.old chain pool.new self.new }
    {
        let number = chain.into_number();
        if i == 0 {
            self.insert_first(pool, number, tag);
        } else {
            let before = QueuedPlace {
                index: i - 1,
                number: self.number(pool, i - 1),
            };
            let _ = self.insert_next(pool, before, number, tag);
        }
    }

    /// Inserts a chain, which must have a packet header, after the chain at a place of a walk, with a tag. Returns its
    /// place. This takes O(1) steps. The place that was passed stays valid.
    pub fn insert_after(
        &mut self,
        pool: &mut Pool,
        at: QueuedPlace,
        chain: Chain,
        tag: u32,
    ) -> QueuedPlace
        requires place { IsQueuedPlace pool.old self.old at }
        requires live { IsLive pool.old chain }
        requires headed { (chain_of pool.old chain).front.header ≡ true }
        requires held { IsHeld pool.old self.old }
        requires apart { times_among chain (numbers pool.old self.old) ≡ 0 }
        ensures queued_packets { queued_packets pool.new self.new ≡
            insert (queued_packets pool.old self.old) (at.index + 1)
            (record { number = chain; entries = (chain_of pool.old chain).entries; tag = tag }) }
        ensures place { result ≡ record { index = at.index + 1; number = chain } }
        ensures stands { IsQueuedPlace pool.new self.new result }
        ensures kept { IsQueuedPlace pool.new self.new at }
        ensures held { IsHeld pool.new self.new }
        ensures len { self.new.len ≡ self.old.len + 1 }
        ensures moves { MovesIn pool.old self.old chain pool.new self.new }
    {
        let number = chain.into_number();
        self.insert_next(pool, at, number, tag)
    }

    /// Removes the chain at index `i` and returns it with its tag. The index must be below the number of chains. At the
    /// front this takes O(1) steps, elsewhere one step for each chain before it.
    pub fn take(&mut self, pool: &mut Pool, i: u32) -> (Chain, u32)
        requires place { i < self.old.len }
        requires held { IsHeld pool.old self.old }
        ensures queued_packets { queued_packets pool.new self.new ≡ remove (queued_packets pool.old self.old) i }
        ensures taken { queued_packet_at pool.old self.old i ≡
            record {
              number = result.0;
              entries = (chain_of pool.new result.0).entries;
              tag = result.1;
            } }
        ensures alone { (chain_of pool.new result.0).front ≡ alone true }
        ensures held { IsHeld pool.new self.new }
        ensures len { self.new.len + 1 ≡ self.old.len }
        ensures moves { MovesOut pool.old self.old result.0 pool.new self.new }
    {
        let (number, tag) = if i == 0 {
            self.take_first(pool)
        } else {
            let before = QueuedPlace {
                index: i - 1,
                number: self.number(pool, i - 1),
            };
            self.take_next(pool, before)
        };
        (Chain::from_number(number), tag)
    }

    /// Removes the chain after the one at a place of a walk, and returns it with its tag. There must be one. This takes
    /// O(1) steps. The place that was passed stays valid.
    pub fn take_after(&mut self, pool: &mut Pool, at: QueuedPlace) -> (Chain, u32)
        requires place { IsQueuedPlace pool.old self.old at }
        requires more { at.index + 1 < self.old.len }
        requires held { IsHeld pool.old self.old }
        ensures queued_packets { queued_packets pool.new self.new
            ≡ remove (queued_packets pool.old self.old) (at.index + 1) }
        ensures taken { queued_packet_at pool.old self.old (at.index + 1) ≡
            record {
              number = result.0;
              entries = (chain_of pool.new result.0).entries;
              tag = result.1;
            } }
        ensures alone { (chain_of pool.new result.0).front ≡ alone true }
        ensures kept { IsQueuedPlace pool.new self.new at }
        ensures held { IsHeld pool.new self.new }
        ensures len { self.new.len + 1 ≡ self.old.len }
        ensures moves { MovesOut pool.old self.old result.0 pool.new self.new }
    {
        let (number, tag) = self.take_next(pool, at);
        (Chain::from_number(number), tag)
    }

    /// Returns the place of the first chain, if there is one. A walk continues with `next`, and takes one step per
    /// chain.
    pub fn first(&self, pool: &Pool) -> Option<QueuedPlace>
        requires { IsHeld pool.now self.now }
        ensures { MatchOption result (self.now.len ≡ 0) (λ at. (at.index ≡ 0)
            × IsQueuedPlace pool.now self.now at) }
    {
        let _ = pool;
        if self.is_empty() {
            return None;
        }
        Some(QueuedPlace {
            index: 0,
            number: self.first,
        })
    }

    /// Returns the place after another, or `None` after the last.
    pub fn next(&self, pool: &Pool, at: QueuedPlace) -> Option<QueuedPlace>
        requires held { IsHeld pool.now self.now }
        requires place { IsQueuedPlace pool.now self.now at }
        ensures { MatchOption result (self.now.len ≡ at.index + 1) (λ to. (to.index ≡ at.index + 1)
            × IsQueuedPlace pool.now self.now to) }
    {
        if self.len == at.index + 1 {
            return None;
        }
        match pool.after(at.number) {
            Some(number) => Some(QueuedPlace {
                index: at.index + 1,
                number,
            }),
            None => unreachable!(),
        }
    }

    /// Returns the tag of the chain at a place of a walk.
    pub fn tag_at(&self, pool: &Pool, at: QueuedPlace) -> u32
        requires held { IsHeld pool.now self.now }
        requires place { IsQueuedPlace pool.now self.now at }
        ensures { result ≡ (queued_packet_at pool.now self.now at.index).tag }
    {
        pool.tag(at.number)
    }

    /// Returns how many bytes the chain at a place of a walk has.
    pub fn len_at(&self, pool: &Pool, at: QueuedPlace) -> u32
        requires held { IsHeld pool.now self.now }
        requires place { IsQueuedPlace pool.now self.now at }
        ensures { result ≡ length (flat_bytes (queued_packet_at pool.now self.now at.index).entries) }
    {
        len_of(pool, at.number)
    }

    /// Iterates over the mbufs of the chain at a place of a walk, in order: the bytes of each, without copying.
    pub fn pieces_at<'a>(&self, pool: &'a Pool, at: QueuedPlace) -> Pieces<'a>
        requires held { IsHeld pool.now self.now }
        requires place { IsQueuedPlace pool.now self.now at }
        ensures { result ≡ pieces_of (queued_packet_at pool.now self.now at.index).entries }
    {
        pieces_of(pool, at.number)
    }

    /// Returns the tag of the chain at index `i`, which must be below the number of chains.
    pub fn tag(&self, pool: &Pool, i: u32) -> u32
        requires place { i < self.now.len }
        requires held { IsHeld pool.now self.now }
        ensures { result ≡ (queued_packet_at pool.now self.now i).tag }
    {
        pool.tag(self.number(pool, i))
    }

    /// Returns how many bytes the chain at index `i` has. The index must be below the number of chains.
    pub fn chain_len(&self, pool: &Pool, i: u32) -> u32
        requires place { i < self.now.len }
        requires held { IsHeld pool.now self.now }
        ensures { result ≡ length (flat_bytes (queued_packet_at pool.now self.now i).entries) }
    {
        len_of(pool, self.number(pool, i))
    }

    /// Iterates over the mbufs of the chain at index `i`, in order, for drawing them: the head fields and the bytes of
    /// each, without copying. Returns `None` exactly if there are no more than `i` chains. It takes one step for each
    /// chain before it, and none for the last chain.
    pub fn heads<'a>(&self, pool: &'a Pool, i: u32) -> Option<MbufHeads<'a>>
        requires { IsHeld pool.now self.now }
        ensures { result ≡ nth_heads pool.now (numbers pool.now self.now) i }
    {
        if i >= self.len() {
            return None;
        }
        Some(heads_of(pool, self.number(pool, i)))
    }

    /// Consumes a train without chains. This needs no pool.
    pub fn end_empty(self)
        requires { self.len ≡ 0 }
    {
        let Train {
            first: _,
            last: _,
            len: _,
        } = self;
    }

    /// Frees the chains, with all their mbufs and references.
    pub fn free(mut self, pool: &mut Pool)
        requires { IsHeld pool.old self }
        ensures { Moves pool.old (numbers pool.old self) pool.new [] }
    {
        'chains: while self.len() > 0 {
            let (chain, _) = self.take(pool, 0);
            pool.free_chain(chain);
        }
        let Train {
            first: _,
            last: _,
            len: _,
        } = self;
    }

    /// Inserts a chain before the others.
    fn insert_first(&mut self, pool: &mut Pool, number: u32, tag: u32)
        requires live { IsLive pool.old number }
        requires headed { (chain_of pool.old number).front.header ≡ true }
        requires held { IsHeld pool.old self.old }
        requires apart { times_among number (numbers pool.old self.old) ≡ 0 }
        ensures { Inserts pool.old self.old 0 number tag pool.new self.new }
    {
        let is_only = self.is_empty();
        let first = (!is_only).then_some(self.first);
        pool.set_after(number, first, tag);
        self.first = number;
        if is_only {
            self.last = number;
        }
        self.len += 1;
    }

    /// Inserts a chain after another, and returns its place.
    fn insert_next(
        &mut self,
        pool: &mut Pool,
        before: QueuedPlace,
        number: u32,
        tag: u32,
    ) -> QueuedPlace
        requires before { IsQueuedPlace pool.old self.old before }
        requires live { IsLive pool.old number }
        requires headed { (chain_of pool.old number).front.header ≡ true }
        requires held { IsHeld pool.old self.old }
        requires apart { times_among number (numbers pool.old self.old) ≡ 0 }
        ensures change { Inserts pool.old self.old (before.index + 1) number tag pool.new self.new }
        ensures place { result ≡ record { index = before.index + 1; number = number } }
    {
        let after = pool.after(before.number);
        pool.set_after(number, after, tag);
        pool.relink(before.number, Some(number));
        if self.len == before.index + 1 {
            self.last = number;
        }
        self.len += 1;
        QueuedPlace {
            index: before.index + 1,
            number,
        }
    }

    /// Removes the first chain, and returns its number and its tag.
    fn take_first(&mut self, pool: &mut Pool) -> (u32, u32)
        requires some { 0 < self.old.len }
        requires held { IsHeld pool.old self.old }
        ensures { Takes pool.old self.old 0 result.0 result.1 pool.new self.new }
    {
        let number = self.first;
        let after = pool.after(number);
        let tag = pool.tag(number);
        pool.set_after(number, None, 0);
        self.first = after.unwrap_or(0);
        self.len -= 1;
        (number, tag)
    }

    /// Removes the chain after another, and returns its number and its tag.
    fn take_next(&mut self, pool: &mut Pool, before: QueuedPlace) -> (u32, u32)
        requires before { IsQueuedPlace pool.old self.old before }
        requires more { before.index + 1 < self.old.len }
        requires held { IsHeld pool.old self.old }
        ensures { Takes pool.old self.old (before.index + 1) result.0 result.1 pool.new self.new }
    {
        let Some(number) = pool.after(before.number) else {
            unreachable!()
        };
        let rest = pool.after(number);
        let tag = pool.tag(number);
        let kept = pool.tag(before.number);
        pool.set_after(before.number, rest, kept);
        pool.set_after(number, None, 0);
        if self.len == before.index + 2 {
            self.last = before.number;
        }
        self.len -= 1;
        (number, tag)
    }

    /// Returns the number of the chain at index `i`, which must be below the number of chains. The last chain takes
    /// O(1) steps; any other takes one step for each chain before it.
    fn number(&self, pool: &Pool, i: u32) -> u32
        requires place { i < self.now.len }
        requires held { IsHeld pool.now self.now }
        ensures { slice_get (numbers pool.now self.now) i ≡ Some result }
    {
        if self.len == i + 1 {
            return self.last;
        }
        let mut at = self.first;
        'chains: for _passed in 0..i {
            let Some(next) = pool.after(at) else {
                unreachable!()
            };
            at = next;
        }
        at
    }
}

/// Returns how many bytes a chain has.
fn len_of(pool: &Pool, number: u32) -> u32
    requires { IsLive pool.now number }
    ensures { result ≡ length (flat_bytes (chain_of pool.now number).entries) }
{
    let chain = Chain::from_number(number);
    let len = pool.len(&chain);
    let _ = chain.into_number();
    len
}

/// Iterates over the bytes of each mbuf of a chain.
fn pieces_of(pool: &Pool, number: u32) -> Pieces<'_>
    requires { IsLive pool.now number }
    ensures { result ≡ pieces_of (chain_of pool.now number).entries }
{
    let chain = Chain::from_number(number);
    let pieces = pool.pieces(&chain);
    let _ = chain.into_number();
    pieces
}

/// Iterates over the head fields and the bytes of each mbuf of a chain.
fn heads_of(pool: &Pool, number: u32) -> MbufHeads<'_>
    requires { IsLive pool.now number }
    ensures { result ≡ heads (chain_of pool.now number) }
{
    let chain = Chain::from_number(number);
    let heads = pool.heads(&chain);
    let _ = chain.into_number();
    heads
}
