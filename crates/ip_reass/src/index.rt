//! The rows of the table, found by a hash of their keys.
ghost use Rattle.std.specs.Prelude.{◌≡◌, ℕ, ◌+◌, ◌-◌, ◌<◌, ◌≤◌, ◌++◌, ◌∷◌, ◌^◌, [], List, false, length, remove, get_or, IfOk};
ghost use Rattle.ip_reass.specs.Inside.Index.{AreFirst, AreLinked, HasRows, bucket_of, buckets_in, buckets_of, halves_of, rows_left, upto_last};

use crate::arrival::Arrival;
use crate::datagram::Datagram;
use flat_model::FragmentKey;
use params::indexes_fragments;
use std::alloc::{AllocError, Global};
use std::marker::Model;

/// The data of a row in the index.
#[derive(Clone, Copy)]
struct Row {
    /// The bucket of its key.
    bucket: u32,
    /// The number of rows up to and including the one before it in its bucket: 0 if it's the first.
    before: u32,
}

/// Adds both halves of an address.
// So a key's hash has 32 bits: a board divides numbers of 64 bits by a function of the C library.
fn halves(address: u32) -> u32
    ensures is { result ≡ halves_of address }
    ensures small { result < 2 ^ 17 }
{
    address % 65_536 + address / 65_536
}

/// Puts a row after the others, into a bucket.
fn link(lasts: &mut [u32], rows: &mut [Row], len: usize, bucket: u32)
    requires linked { AreLinked lasts.old rows.old len }
    requires bucket { bucket < length lasts.old }
    requires room { len < length rows.old }
    requires small { len + 1 < 2 ^ 32 }
    ensures linked { AreLinked lasts.new rows.new (len + 1) }
    ensures rows { buckets_in rows.new (len + 1) ≡ buckets_in rows.old len ++ bucket ∷ [] }
{
    rows[len] = Row {
        bucket,
        before: lasts[bucket as usize],
    };
    lasts[bucket as usize] = (len + 1) as u32;
}

/// Takes the rows from a place on out of their buckets, the last first.
fn unlink(lasts: &mut [u32], rows: &[Row], place: usize, len: usize)
    requires linked { AreLinked lasts.old rows.now len }
    requires place { place ≤ len }
    ensures { AreLinked lasts.new rows.now place }
{
    let mut left = len;
    'rows: while left > place {
        left -= 1;
        let bucket = rows[left].bucket;
        lasts[bucket as usize] = rows[left].before;
    }
}

/// Moves the rows after a place down by one. Only those before it are in their buckets when this is called.
fn close_up(lasts: &mut [u32], rows: &mut [Row], place: usize, len: usize)
    requires linked { AreLinked lasts.old rows.old place }
    requires inside { (k : ℕ) (d : Row) → k < len → (get_or rows.old k d).bucket < length lasts.old }
    requires place { place < len }
    requires len { len ≤ length rows.old }
    requires small { len ≤ 2 ^ 32 }
    ensures linked { AreLinked lasts.new rows.new (len - 1) }
    ensures rows { buckets_in rows.new (len - 1) ≡ remove (buckets_in rows.old len) place }
{
    'rows: for k in place..len - 1 {
        let bucket = rows[k + 1].bucket;
        rows[k] = Row {
            bucket,
            before: lasts[bucket as usize],
        };
        lasts[bucket as usize] = (k + 1) as u32;
    }
}

/// An index of a table's rows by the buckets of their keys. When keys were compared row by row, a fragment of a new
/// datagram took 100,544 instructions if 10,000 others were unfinished. It has the first rows of the table: the others
/// are added when a key is looked up in it. So a datagram that is completed while it's the newest takes no row, and an
/// index that is never used stays empty.
#[derive(Drop)]
pub(crate) struct Index {
    // for each bucket, how many rows there are up to and including its last: 0 if it's empty
    lasts: Vec<u32>,
    rows: Vec<Row>,
    // how many rows there are
    len: usize,
}

impl Model for Index {
    ghost use Rattle.std.specs.Prelude.{◌<◌, ◌≤◌, ◌^◌, length};
    ghost use Rattle.ip_reass.specs.Inside.Index.{IndexView, AreLinked, buckets_in};

    ghost Value = { IndexView };

    ghost view = { λ x. record {
      buckets = buckets_in x.rows.items x.len;
      count = length x.lasts.items;
      room = length x.rows.items;
    } };

    ghost invariant = { λ x. AreLinked x.lasts.items x.rows.items x.len × (length x.lasts.items < 2 ^ 32)
        × (length x.rows.items < 2 ^ 32) };
}

impl Index {
    /// Creates an index without rows, with space for `rooms` rows and the same number of buckets. Fails with
    /// `AllocError` if the host has no memory for it, and then nothing stays allocated.
    pub(crate) fn boot(alloc: Global, rooms: u32) -> Result<Index, AllocError>
        ensures none { IfOk result (λ x. x.buckets ≡ []) }
        ensures some { IfOk result (λ x. 0 < x.count) }
        ensures room { IfOk result (λ x. x.room ≡ rooms) }
    {
        let count = (rooms as usize).max(1);
        let lasts = vec![in alloc; 0; count]?;
        let rows = vec![in alloc; Row {
            bucket: 0,
            before: 0
        }; rooms as usize]?;
        Ok(Index {
            lasts,
            rows,
            len: 0,
        })
    }

    /// Returns the bucket of a key.
    pub(crate) fn bucket(&self, key: &FragmentKey) -> u32
        requires { 0 < self.now.count }
        ensures is { result ≡ bucket_of self.now.count key.now }
        ensures low { result < self.now.count }
    {
        let sum = u32::from(key.id)
            + 20_011 * halves(key.source)
            + 10_007 * halves(key.destination)
            + 211 * u32::from(key.protocol);
        sum % self.lasts.len() as u32
    }

    /// Returns how many rows there are up to and including the last in a bucket: 0 if it's empty.
    pub(crate) fn last(&self, bucket: u32) -> u32
        requires { bucket < self.now.count }
        ensures { result ≡ upto_last bucket self.now.buckets (length self.now.buckets) }
    {
        self.lasts[bucket as usize]
    }

    /// Returns the same for the rows before one, in its bucket.
    pub(crate) fn before(&self, place: u32) -> u32
        requires { place < length self.now.buckets }
        ensures { result ≡ upto_last (get_or self.now.buckets place 0) self.now.buckets place }
    {
        self.rows[place as usize].before
    }

    /// Returns how many rows there are.
    fn len(&self) -> usize
        ensures is { result ≡ length self.now.buckets }
        ensures within { result ≤ self.now.room }
    {
        self.len
    }

    /// Adds a row after the others.
    fn add(&mut self, bucket: u32)
        requires bucket { bucket < self.old.count }
        requires room { length self.old.buckets < self.old.room }
        ensures { HasRows self.old self.new (self.old.buckets ++ bucket ∷ []) }
    {
        let lasts = self.lasts.as_mut_slice();
        let rows = self.rows.as_mut_slice();
        link(lasts, rows, self.len, bucket);
        self.len += 1;
    }

    /// Removes a row. Those after it move down by one, at about 12 instructions each.
    // Not inlined: a datagram that is completed while it's the newest has no row.
    #[inline(never)]
    fn remove(&mut self, place: usize)
        requires { place < length self.old.buckets }
        ensures { HasRows self.old self.new (remove self.old.buckets place) }
    {
        let lasts = self.lasts.as_mut_slice();
        let rows = self.rows.as_mut_slice();
        unlink(lasts, rows, place, self.len);
        close_up(lasts, rows, place, self.len);
        self.len -= 1;
    }

    /// Removes the row at a place, if an arrival took the datagram there out of the table.
    pub(crate) fn follow(&mut self, arrival: &Arrival, place: usize)
        ensures rows { (bs : List ℕ) → AreFirst self.old.buckets bs
            → AreFirst self.new.buckets (rows_left arrival.now place bs) }
        ensures count { self.new.count ≡ self.old.count }
        ensures room { self.new.room ≡ self.old.room }
    {
        let Arrival::Whole(_, _) = arrival else {
            return;
        };
        if place >= self.len() {
            return;
        }
        if indexes_fragments() {
            self.remove(place);
        } else {
            // Only a proof comes here: an index that isn't used has no rows.
            self.clear();
        }
    }

    /// Removes all rows.
    // Not inlined: it has three callers, and no fragment in order comes here.
    #[inline(never)]
    pub(crate) fn clear(&mut self)
        ensures { HasRows self.old self.new [] }
    {
        unlink(self.lasts.as_mut_slice(), self.rows.as_slice(), 0, self.len);
        self.len = 0;
    }

    /// Removes all rows if the table has lost some of its own.
    pub(crate) fn clear_if(&mut self, lost: bool)
        ensures rows { (bs cs : List ℕ) → AreFirst self.old.buckets bs → (lost ≡ false → bs ≡ cs)
            → AreFirst self.new.buckets cs }
        ensures count { self.new.count ≡ self.old.count }
        ensures room { self.new.room ≡ self.old.room }
    {
        if lost {
            self.clear();
        }
    }

    /// Adds the rows of the table that it lacks.
    pub(crate) fn catch_up(&mut self, table: &[Datagram])
        requires some { 0 < self.old.count }
        requires room { length table.now ≤ self.old.room }
        requires first { AreFirst self.old.buckets (buckets_of self.old.count table.now) }
        ensures rows { self.new.buckets ≡ buckets_of self.new.count table.now }
        ensures count { self.new.count ≡ self.old.count }
        ensures room { self.new.room ≡ self.old.room }
    {
        'rows: for place in self.len()..table.len() {
            let bucket = self.bucket(&table[place].key);
            self.add(bucket);
        }
    }
}
