//! Moving the first bytes of a chain into one mbuf.
ghost use Rattle.std.specs.Prelude.{◌≡◌, ◌≢◌, ◌+◌, ◌-◌, ◌≤◌, ◌++◌, true, None, min, length, take, drop, OnOk, OnErr, IfErr, IsTrue};
ghost use Rattle.mbuf_chain.specs.Chain.{IsLive, IsPlace, HasTrailingSpace, chain_of, entry_in, entry_of, without, string_in, alone};
ghost use Rattle.mbuf_chain.specs.Steps.{empty_entry};
ghost use Rattle.chain_ops.specs.Rooms.{room_low};
ghost use Rattle.chain_ops.specs.Makes.{Makes, HasMbufs, LacksMbufs};
ghost use Rattle.chain_ops.specs.Pulls.{IsPullRefused, moved, has_room, entries_pulled, pulled_front, pull_need};

use crate::cat::drop_first;
use crate::step::{counted_len, link_rest, room_low};
use mbuf_chain::{Chain, Place, Pool};
use mbuf_pool::NoBufs;
use params::{MAX_PROTOCOL_HEADER, MHLEN, MSIZE};
use std::mem;
use thiserror::Error;

/// Why `m_pullup` failed.
#[derive(Clone, Copy, Debug, PartialEq, Eq, Error)]
pub enum Refusal {
    /// A new first mbuf is needed, and none is free.
    #[error("no buffers")]
    NoBufs,
    /// `n` is above 100.
    #[error("too long")]
    TooLong,
    /// The chain has fewer bytes.
    #[error("too short")]
    TooShort,
}

/// Moves the first `n` bytes of a chain to the end of the last mbuf of another, and links the rest. An mbuf that
/// becomes empty is freed, and so is one without bytes that is passed. If the number of the chain's bytes is given
/// (`counted`), no mbuf after these is read; without a packet header in the first mbuf it isn't needed.
fn pull(pool: &mut Pool, into: &Chain, last: Place, second: Chain, n: u32, counted: bool, len: u32)
    requires front { IsLive pool.old into.now }
    requires back { IsLive pool.old second }
    requires apart { into.now ≢ second }
    requires place { IsPlace (chain_of pool.old into.now) last }
    requires last { last.index + 1 ≡ length (chain_of pool.old into.now).entries }
    requires plain { (entry_in pool.old into.now last).cluster ≡ None }
    requires room { HasTrailingSpace (entry_in pool.old into.now last) n }
    requires len { counted ≡ true → len ≡ length (string_in pool.old second) }
    ensures { Makes (without (without pool.old second) into.now) pool.new into.now
        (chain_of pool.old into.now).front
        (take last.index (chain_of pool.old into.now).entries
        ++ moved n (entry_in pool.old into.now last) (chain_of pool.old second).entries) }
{
    let mut back = second;
    let mut left = n;
    let mut bytes = len;
    'mbufs: while left > 0 {
        let from = pool.first(&back);
        let size = pool.segment(&back, from).len;
        if left < size {
            pool.append(into, last, &back, from, 0, left);
            pool.narrow(&back, from, left, size - left);
            link_rest(pool, into, last, back, counted, bytes.saturating_sub(left));
            return;
        }
        pool.append(into, last, &back, from, 0, size);
        left -= size;
        bytes = bytes.saturating_sub(size);
        let Some(rest) = drop_first(pool, back) else {
            return;
        };
        back = rest;
    }
    link_rest(pool, into, last, back, counted, bytes);
}

/// Returns whether `n` bytes fit into the first mbuf.
fn has_room(pool: &Pool, chain: &Chain, n: u32) -> bool
    requires live { IsLive pool.now chain.now }
    requires most { n ≤ MHLEN }
    ensures { result ≡ has_room (entry_of (chain_of pool.now chain.now) 0) n }
{
    let first = pool.first(chain);
    let segment = pool.segment(chain, first);
    segment.cluster.is_none() && segment.start <= MSIZE - n
}

/// Moves the first `n` bytes of a chain into its first mbuf, into which they fit.
fn pull_in_place(pool: &mut Pool, chain: &Chain, n: u32)
    requires live { IsLive pool.old chain.now }
    requires room { IsTrue (has_room (entry_of (chain_of pool.old chain.now) 0) n) }
    requires some { n ≤ length (string_in pool.old chain.now) }
    ensures { Makes (without pool.old chain.now) pool.new chain.now
        (chain_of pool.old chain.now).front
        (moved (n - length (entry_of (chain_of pool.old chain.now) 0).bytes)
        (entry_of (chain_of pool.old chain.now) 0) (drop 1 (chain_of pool.old chain.now).entries)) }
{
    let first = pool.first(chain);
    let len = pool.segment(chain, first).len;
    if len < n {
        let (counted, total) = counted_len(pool, chain);
        let rest = pool.cut(chain, 1);
        let at = pool.first(chain);
        pull(
            pool,
            chain,
            at,
            rest,
            n - len,
            counted,
            total.saturating_sub(len),
        );
    }
}

/// Moves the first `n` bytes of a chain into a new first mbuf, which takes over the packet header.
fn pull_new(pool: &mut Pool, chain: &mut Chain, n: u32) -> Result<(), NoBufs>
    requires live { IsLive pool.old chain.old }
    requires most { n ≤ MHLEN }
    ensures ok { OnOk result (Makes (without pool.old chain.old) pool.new chain.new
        (alone (chain_of pool.old chain.old).front.header)
        (moved n (empty_entry (room_low (chain_of pool.old chain.old).front.header) None)
        (chain_of pool.old chain.old).entries)) }
    ensures enough { OnOk result (HasMbufs pool.old 1) }
    ensures err { OnErr result (LacksMbufs pool.old 1) }
    ensures same { OnErr result ((pool.new ≡ pool.old) × (chain.new ≡ chain.old)) }
{
    let header = pool.has_header(chain);
    let (counted, len) = counted_len(pool, chain);
    let new = pool.new_plain(header, room_low(header))?;
    pool.laws();
    let at = pool.first(&new);
    let old = mem::replace(chain, new);
    pull(pool, chain, at, old, n, counted, len);
    Ok(())
}

/// Returns how many bytes a chain has, or `most` if it has more. Takes one step if the chain has a packet header,
/// otherwise one for each mbuf up to `most` bytes.
fn len_up_to(pool: &Pool, chain: &Chain, most: u32) -> u32
    requires live { IsLive pool.now chain.now }
    requires small { most ≤ MHLEN }
    ensures { result ≡ min most (length (string_in pool.now chain.now)) }
{
    if pool.has_header(chain) {
        return pool.len(chain).min(most);
    }
    let mut at = pool.first(chain);
    let mut left = most;
    'mbufs: loop {
        left -= left.min(pool.segment(chain, at).len);
        if left == 0 {
            return most;
        }
        let Some(place) = pool.next(chain, at) else {
            return most - left;
        };
        at = place;
    }
}

/// Moves the first `n` bytes of a chain into its first mbuf: in place if that is plain and they fit, otherwise to the
/// front of a new first mbuf, which takes over the packet header, and takes up to 40 bytes if `n` is less. Bytes are
/// never moved into a cluster, even if it already has the `n` bytes. An mbuf that becomes empty is freed with its
/// reference, and so is an empty one before the last byte that moves. Fails with `TooLong` if `n` is above 100,
/// otherwise with `TooShort` if the chain has fewer bytes, otherwise with `NoBufs` exactly if a new first mbuf is
/// needed and none is free; each changes nothing (TCP/IP Illustrated, volume 2, chapter 2).
///
/// By example, with `P` for bytes in the mbuf itself, `C` for bytes in a cluster, and its count after `x`: 20 bytes of
/// `C300x2` become `P40->C260x2`, and then 60 bytes `P60->C240x2`. 40 bytes of `C40x2` become `P40`: the emptied mbuf
/// is freed, and the cluster is counted 1.
pub fn m_pullup(pool: &mut Pool, chain: &mut Chain, n: u32) -> Result<(), Refusal>
    requires { IsLive pool.old chain.old }
    ensures ok { OnOk result (Makes (without pool.old chain.old) pool.new chain.new
        (pulled_front (chain_of pool.old chain.old) n) (entries_pulled (chain_of pool.old chain.old) n)) }
    ensures string { OnOk result (string_in pool.new chain.new ≡ string_in pool.old chain.old) }
    ensures fits { OnOk result ((n ≤ MHLEN) × (n ≤ length (string_in pool.old chain.old))) }
    ensures enough { OnOk result (HasMbufs pool.old (pull_need (chain_of pool.old chain.old) n)) }
    ensures err { IfErr result (IsPullRefused pool.old (chain_of pool.old chain.old) n) }
    ensures same { OnErr result ((pool.new ≡ pool.old) × (chain.new ≡ chain.old)) }
{
    if n > MHLEN {
        return Err(Refusal::TooLong);
    }
    let total = len_up_to(pool, chain, MHLEN);
    if n > total {
        return Err(Refusal::TooShort);
    }
    pool.laws();
    if has_room(pool, chain, n) {
        pull_in_place(pool, chain, n);
        return Ok(());
    }
    let taken = n.max(MAX_PROTOCOL_HEADER).min(total);
    match pull_new(pool, chain, taken) {
        Ok(()) => Ok(()),
        Err(_) => Err(Refusal::NoBufs),
    }
}
