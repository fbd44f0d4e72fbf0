//! The table of unfinished datagrams.
ghost use Rattle.std.specs.Prelude.{IfOk, count_by, ◌==◌, ◌≡◌, ℕ, ◌+◌, ◌-◌, ◌≤◌, ◌<◌, ◌*◌, length, take, find, sum_by, slice_get, MatchOption, None, ◌++◌, ◌∷◌, [], vec_len, vec_capacity};
ghost use Rattle.flat_model.specs.Machine.Count.{counts_more};
ghost use Rattle.flat_model.specs.Machine.State.{State};
ghost use Rattle.flat_model.specs.Machine.Step.{ticked};
ghost use Rattle.flat_model.specs.declared.counter.Counter.TheVariants.{IpFragtimeout};
ghost use Rattle.flat_model.specs.declared.counters.Counters.{Counters};
ghost use Rattle.mbuf_chain.specs.Chain.{PoolView};
ghost use Rattle.mbuf_chain.specs.Owners.{Moves};
ghost use Rattle.mbuf_chain.specs.Frames.{SameAt};
ghost use Rattle.ip_reass.specs.Arrivals.{with_waiting};
ghost use Rattle.ip_reass.specs.Inside.Index.{CanFind, Indexes, IsFound};
ghost use Rattle.ip_reass.specs.Table.{aged, unfinished, has_key, new_datagram, holds, held_all, AllUnfinished, IsTable, IsReady};

use crate::datagram::{Datagram, free_datagram};
use crate::index::Index;
use flat_model::FragmentKey;
use ledger::Waiting;
use mbuf_chain::{Chain, Pool, Reclaim, Train};
use params::{FRAGMENT_TICKS, indexes_fragments};
use std::alloc::{AllocError, Global};
use std::marker::Model;

/// The unfinished datagrams, oldest first: what 4.4BSD keeps in its fragment queue (TCP/IP Illustrated, volume 2,
/// chapter 10). It must be consumed, by `end`.
///
/// A contract sees the list of them, each with its key, the mbuf of its key, the ticks that it has left and its
/// fragments, and how many fit. The chains stay in the pool that each call is given, which must be the one that they
/// came from. Only `boot` allocates host memory.
pub struct Reass {
    pub(crate) datagrams: Vec<Datagram>,
    pub(crate) index: Index,
}

impl Model for Reass {
    ghost use Rattle.std.specs.Prelude.{◌≤◌, vec_len, vec_capacity};
    ghost use Rattle.params.specs.declared.TheConstants.{MAX_MBUFS};
    ghost use Rattle.ip_reass.specs.Table.{TableView};

    ghost Value = { TableView };

    ghost use Rattle.ip_reass.specs.Inside.Index.{Indexes};

    ghost view = { λ r. record { datagrams = r.datagrams.items; room = r.index.room } };

    ghost invariant = { λ r. (vec_len r.datagrams ≤ MAX_MBUFS) × (r.index.room ≤ vec_capacity r.datagrams)
        × Indexes r.index r.datagrams.items };
}

impl Reass {
    /// Creates a table without datagrams. Fails with `AllocError` if the host has no memory for it, and then nothing
    /// stays allocated.
    ///
    /// Afterwards it can hold one unfinished datagram for every two mbufs of the pool, without more host memory. There
    /// can't be more, because each takes at least two mbufs: one for its key, and those of its fragments. `mbufs` is
    /// that of the pool.
    pub fn boot(alloc: Global, mbufs: u32) -> Result<Reass, AllocError>
        ensures none { IfOk result (λ r. r.datagrams ≡ []) }
        ensures room { IfOk result (λ r. mbufs ≤ 2 * r.room) }
    {
        let places = mbufs.div_ceil(2);
        let datagrams = Vec::with_capacity(alloc, places as usize)?;
        let Ok(index) = Index::boot(alloc, places) else {
            datagrams.destroy_empty();
            return Err(AllocError);
        };
        Ok(Reass { datagrams, index })
    }

    /// Frees all datagrams, with all their mbufs and references.
    pub fn end(self, pool: &mut Pool)
        requires { IsTable pool.old self.datagrams }
        ensures { Moves pool.old (held_all pool.old self.datagrams) pool.new [] }
    {
        let Reass {
            mut datagrams,
            index,
        } = self;
        drop(index);
        free_beyond(pool, &mut datagrams, 0);
        datagrams.destroy_empty();
    }

    /// Returns how many datagrams are unfinished.
    pub fn len(&self) -> u32
        ensures { result ≡ length self.now.datagrams }
    {
        self.datagrams.len() as u32
    }

    /// Returns whether no datagram is unfinished.
    pub fn is_empty(&self) -> bool
        ensures { result ≡ (length self.now.datagrams == 0) }
    {
        self.datagrams.is_empty()
    }

    /// A tick of the slow timer, `ip_slowtimo` (volume 2, chapter 10): each datagram has one tick less, and those that
    /// have none left are freed with all their mbufs. Returns how many were freed.
    pub fn tick(&mut self, pool: &mut Pool) -> u32
        requires { IsReady pool.old self.old }
        ensures step { (rest : State) (c : Counters) → ticked (with_waiting pool.old self.old.datagrams c rest)
            ≡ with_waiting pool.new self.new.datagrams (counts_more IpFragtimeout result c) rest }
        ensures aged { self.new.datagrams ≡ aged self.old.datagrams }
        ensures gone { result + length (aged self.old.datagrams) ≡ length self.old.datagrams }
        ensures ready { IsReady pool.new self.new }
        ensures same { SameAt pool.old pool.new (held_all pool.old self.new.datagrams) }
        ensures moves { Moves pool.old (held_all pool.old self.old.datagrams) pool.new
            (held_all pool.new self.new.datagrams) }
    {
        let before = self.datagrams.len();
        let kept = age(self.datagrams.as_mut_slice());
        free_beyond(pool, &mut self.datagrams, kept);
        self.index.clear_if(kept < before);
        (before - kept) as u32
    }
}

/// Frees all datagrams from a place on, with all their buffers.
fn free_beyond(pool: &mut Pool, table: &mut Vec<Datagram>, kept: usize)
    requires place { kept ≤ vec_len table.old }
    requires table { IsTable pool.old table.old.items }
    ensures items { table.new.items ≡ take kept table.old.items }
    ensures len { vec_len table.new ≡ kept }
    ensures capacity { vec_capacity table.new ≡ vec_capacity table.old }
    ensures table { IsTable pool.new table.new.items }
    ensures same { SameAt pool.old pool.new (held_all pool.old table.new.items) }
    ensures moves { Moves pool.old (held_all pool.old table.old.items) pool.new
        (held_all pool.new table.new.items) }
{
    'table: while table.len() > kept {
        if let Some(datagram) = table.pop() {
            free_datagram(pool, datagram);
        }
    }
}

/// Takes a tick from each datagram, and moves those that have none left after the others. Returns how many remain.
fn age(table: &mut [Datagram]) -> usize
    ensures within { result ≤ length table.new }
    ensures kept { take result table.new ≡ aged table.old }
    ensures holds { (p : PoolView) (k : ℕ) → sum_by (holds p k) table.new ≡ sum_by (holds p k) table.old }
    ensures each { (p : PoolView) → AllUnfinished p table.old → AllUnfinished p table.new }
{
    let mut kept = 0;
    'table: for i in 0..table.len() {
        if table[i].ticks > 1 {
            let datagram = &mut table[i];
            datagram.ticks -= 1;
            table.swap(kept, i);
            kept += 1;
        }
    }
    kept
}

/// Returns the place of the datagram with a key, if there is one, by the rows of the key's bucket, the last first.
// Not inlined: usually the newest datagram is the one.
#[inline(never)]
fn find_by_bucket(table: &[Datagram], index: &mut Index, key: FragmentKey) -> Option<usize>
    requires { CanFind index.old table.now key }
    ensures found { IsFound key table.now result }
    ensures indexes { Indexes index.new table.now }
    ensures room { index.new.room ≡ index.old.room }
{
    index.catch_up(table);
    let bucket = index.bucket(&key);
    let mut rows = index.last(bucket);
    'rows: while rows > 0 {
        let place = rows - 1;
        if table[place as usize].key == key {
            return Some(place as usize);
        }
        rows = index.before(place);
    }
    None
}

/// Returns the place of the datagram with a key, if there is one, by a walk.
fn find_by_walk(table: &[Datagram], key: FragmentKey) -> Option<usize>
    requires { count_by (has_key key) table.now ≤ 1 }
    ensures { IsFound key table.now result }
{
    'rows: for place in 0..table.len() {
        if table[place].key == key {
            return Some(place);
        }
    }
    None
}

/// Returns the place of the datagram with a key, if there is one. The newest is tested first, because fragments of a
/// datagram mostly follow one another.
#[inline(always)]
pub(crate) fn find(table: &[Datagram], index: &mut Index, key: FragmentKey) -> Option<usize>
    requires { CanFind index.old table.now key }
    ensures found { IsFound key table.now result }
    ensures indexes { Indexes index.new table.now }
    ensures room { index.new.room ≡ index.old.room }
{
    if !indexes_fragments() {
        return find_by_walk(table, key);
    }
    let len = table.len();
    if len > 0 && table[len - 1].key == key {
        return Some(len - 1);
    }
    find_by_bucket(table, index, key)
}

/// Adds a new datagram after the others, with the mbuf of its key.
pub(crate) fn begin(table: &mut Vec<Datagram>, key: FragmentKey, holder: Chain)
    requires { vec_len table.old < vec_capacity table.old }
    ensures items { table.new.items ≡ table.old.items ++ new_datagram key holder ∷ [] }
    ensures len { vec_len table.new ≡ vec_len table.old + 1 }
    ensures capacity { vec_capacity table.new ≡ vec_capacity table.old }
{
    table.push_reserved(Datagram {
        key,
        holder,
        ticks: FRAGMENT_TICKS as u8,
        fragments: Train::new(),
        bytes: 0,
    });
}

impl Reclaim for Reass {
    ghost use Rattle.ip_reass.specs.Table.{IsReady, held_all};
    ghost use Rattle.ip_reass.specs.Same.{none_held, held_all_same, ready_same};

    ghost is_ready = { λ p r. IsReady p r };

    ghost owned = { λ p r. held_all p r.datagrams };

    ghost datagrams = { λ r. length r.datagrams };

    ghost is_owner = { λ p r h. h.table.owned };

    ghost owns_nothing = { λ p r h e. none_held p r.datagrams e };

    ghost owned_same = { λ p q r h. held_all_same p q r.datagrams h };

    ghost ready_same = { λ p q r h is. ready_same p q r h is };

    // Not inlined: each place that needs a buffer would contain a copy, and few find none free.
    #[inline(never)]
    fn reclaim(&mut self, pool: &mut Pool) -> u32 {
        let before = self.len();
        free_beyond(pool, &mut self.datagrams, 0);
        self.index.clear();
        before
    }
}

impl Waiting for Reass {
    ghost use Rattle.ip_reass.specs.Table.{unfinished};
    ghost use Rattle.ip_reass.specs.Same.{length-unfinished, table_weighs, unfinished_same};

    ghost unfinished = { λ p r. unfinished p r.datagrams };

    fn count(&self) -> u32 {
        Reass::len(self)
    }

    ghost counts = { λ p r h. length-unfinished p r.datagrams };

    ghost weighs = { λ p r h. table_weighs p r.datagrams h.table.each };

    ghost unfinished_same = { λ p q r h. unfinished_same p q r.datagrams h };
}
