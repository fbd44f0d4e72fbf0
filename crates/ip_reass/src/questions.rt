//! Queries about the unfinished datagrams. A query changes nothing.
ghost use Rattle.std.specs.Prelude.{◌≡◌, ◌<◌};
ghost use Rattle.mbuf_chain.specs.Heads.{nth_heads};
ghost use Rattle.ip_reass.specs.Fragments.{IsQueue, fragments, map_of};
ghost use Rattle.ip_reass.specs.Questions.{nth_held, nth_of, nth_range, nth_unfinished};
ghost use Rattle.ip_reass.specs.Table.{IsTable, unfinished};

use crate::datagram::Datagram;
use crate::span::Tag;
use crate::table::Reass;
use flat_model::FragmentKey;
use mbuf_chain::{MbufHeads, Pool, Train};

/// A datagram that has some of its fragments.
#[derive(Clone, Copy, Debug, PartialEq, Eq)]
pub struct UnfinishedDatagram {
    /// The four fields that identify its fragments.
    pub key: FragmentKey,
    /// The number of ticks after which it's dropped, 1 to 60.
    pub ticks: u8,
    /// The number of its bytes that have arrived, 1 to 65,515.
    pub bytes: u32,
    /// The number of ranges that they form, 1 to 8,190.
    pub ranges: u32,
}

/// The rest of one fragment in an unfinished datagram: consecutive bytes, whose offsets no other range has.
#[derive(Clone, Copy, Debug, PartialEq, Eq)]
pub struct HeldRange {
    /// The offset of the first byte, counted from the end of the IP header.
    pub offset: u32,
    /// The number of its bytes, at least 1.
    pub len: u32,
    /// Whether the fragment has the flag "more fragments".
    pub more: bool,
}

/// Returns the range at a place, in order of offset.
pub(crate) fn range_at(pool: &Pool, train: &Train, k: u32) -> Option<HeldRange>
    requires { IsQueue pool.now train.now }
    ensures { result ≡ nth_of (map_of (fragments pool.now train.now)) k }
{
    if k >= train.len() {
        return None;
    }
    let tag = Tag {
        bits: train.tag(pool, k),
    };
    Some(HeldRange {
        offset: tag.offset(),
        len: train.chain_len(pool, k),
        more: tag.more(),
    })
}

/// Returns the datagram at a place.
fn unfinished_at(pool: &Pool, table: &[Datagram], i: usize) -> Option<UnfinishedDatagram>
    requires { IsTable pool.now table.now }
    ensures { result ≡ nth_unfinished i (unfinished pool.now table.now) }
{
    if i >= table.len() {
        return None;
    }
    let datagram = &table[i];
    let ranges = datagram.fragments.len();
    Some(UnfinishedDatagram {
        key: datagram.key,
        ticks: datagram.ticks,
        bytes: u32::from(datagram.bytes),
        ranges,
    })
}

/// Returns a range of the datagram at a place.
fn range_in(pool: &Pool, table: &[Datagram], i: usize, k: u32) -> Option<HeldRange>
    requires { IsTable pool.now table.now }
    ensures { result ≡ nth_range i k (unfinished pool.now table.now) }
{
    if i >= table.len() {
        return None;
    }
    range_at(pool, &table[i].fragments, k)
}

/// Returns the mbufs of a chain of the datagram at a place.
fn heads_in<'a>(pool: &'a Pool, table: &[Datagram], i: usize, k: u32) -> Option<MbufHeads<'a>>
    requires { IsTable pool.now table.now }
    ensures { result ≡ nth_heads pool.now (nth_held pool.now table.now i) k }
{
    if i >= table.len() {
        return None;
    }
    let datagram = &table[i];
    if k == 0 {
        Some(pool.heads(&datagram.holder))
    } else {
        datagram.fragments.heads(pool, k - 1)
    }
}

impl Reass {
    /// Returns the unfinished datagram at a place, oldest first, or `None` exactly if there are no more than `i`.
    pub fn unfinished(&self, pool: &Pool, i: u32) -> Option<UnfinishedDatagram>
        requires { IsTable pool.now self.now.datagrams }
        ensures { result ≡ nth_unfinished i (unfinished pool.now self.now.datagrams) }
    {
        unfinished_at(pool, self.datagrams.as_slice(), i as usize)
    }

    /// Returns the `k`th range of bytes of the unfinished datagram at place `i`, in order of offset, from 0: `None`
    /// exactly if there is no such datagram, or if it has no more than `k` ranges. Takes a step for each range before
    /// it.
    pub fn range(&self, pool: &Pool, i: u32, k: u32) -> Option<HeldRange>
        requires { IsTable pool.now self.now.datagrams }
        ensures { result ≡ nth_range i k (unfinished pool.now self.now.datagrams) }
    {
        range_in(pool, self.datagrams.as_slice(), i as usize, k)
    }

    /// Iterates over the mbufs of the `k`th chain of the unfinished datagram at place `i`, in order, for drawing them:
    /// the head fields and the bytes of each. Chain 0 is the mbuf of its key, and the others are its fragments in order
    /// of offset. Returns `None` exactly if there is no such datagram, or if it has no more than `k` chains. Takes a
    /// step for each fragment before it.
    pub fn heads<'a>(&self, pool: &'a Pool, i: u32, k: u32) -> Option<MbufHeads<'a>>
        requires { IsTable pool.now self.now.datagrams }
        ensures { result ≡ nth_heads pool.now (nth_held pool.now self.now.datagrams i) k }
    {
        heads_in(pool, self.datagrams.as_slice(), i as usize, k)
    }
}
