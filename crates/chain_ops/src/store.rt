//! Storing bytes in new chains.
ghost use Rattle.std.specs.Prelude.{◌≡◌, ℕ, ◌+◌, ◌-◌, ◌<◌, ◌≤◌, ◌⊎◌, true, false, Option, min, nat_le, length, IfOk, OnOk, OnErr, if◌then◌else◌};
ghost use Rattle.mbuf_chain.specs.Chain.{held_mbufs, free_clusters, string_in, Adds};
ghost use Rattle.mbuf_chain.specs.Steps.{one_mbuf};
ghost use Rattle.flat_model.specs.Amounts.Layout.{user, wire, need_of, next_room, size_of};
ghost use Rattle.chain_ops.specs.Rooms.{room_low};
ghost use Rattle.chain_ops.specs.Stored.{IsClusterTaken, IsStoredIn, Lacks, Has, Stores, rooms_for, first_start};

use crate::prepend::at_end;
use crate::step::room_low;
use flat_model::Need;
use mbuf_chain::{Chain, Pool};
use mbuf_pool::NoBufs;
use params::{
    CLUSTER_LEADING_SPACE, IP_MAX_PACKET, MBUF_HEADER, MCLBYTES, MHLEN, MINCLSIZE, MLEN, MSIZE,
    tries_one_buffer,
};

/// The buffers for the bytes of a packet or of a send. Only `space_for` chooses them.
#[derive(Clone, Copy, Debug, PartialEq, Eq, Drop)]
pub enum Space {
    /// One mbuf with a packet header: at most 100 bytes.
    InMbuf,
    /// One cluster: at least 208 bytes.
    InCluster,
    /// Several mbufs.
    InMore,
}

/// Returns where `n` bytes are stored, if bytes in a first cluster begin at `large`: 0 for a packet from the wire,
/// `CLUSTER_LEADING_SPACE` for a send.
#[inline(always)]
pub fn space_for(large: u32, n: u32) -> Space
    requires { large ≤ CLUSTER_LEADING_SPACE }
    ensures { IsStoredIn large n result }
{
    if n <= MHLEN {
        return Space::InMbuf;
    }
    if n < MINCLSIZE || n > MCLBYTES - large {
        return Space::InMore;
    }
    Space::InCluster
}

/// Returns how many of the remaining bytes go into the next mbuf, and whether it refers to a cluster, which is so from
/// 208 bytes on: at most `large` into a cluster, at most `small` into a plain one (TCP/IP Illustrated, volume 2,
/// chapter 2).
#[inline(always)]
pub fn next_room(large: u32, small: u32, left: u32) -> (u32, bool)
    ensures len { result.0 ≡ size_of (next_room large small left) }
    ensures cluster { result.1 ≡ nat_le MINCLSIZE left }
{
    if left >= MINCLSIZE {
        (left.min(large), true)
    } else {
        (left.min(small), false)
    }
}

/// Returns the offset of `n` bytes in a first plain mbuf: at its end or at its front.
#[inline(always)]
fn first_start(ends: bool, n: usize) -> u32
    requires { n ≤ MCLBYTES }
    ensures value { result ≡ first_start ends (min n MHLEN) }
    ensures low { room_low true ≤ result }
    ensures high { n ≤ MHLEN → result + n ≤ MSIZE }
{
    if ends {
        at_end(true, (n as u32).min(MHLEN))
    } else {
        room_low(true)
    }
}

/// Makes a chain of one mbuf with bytes: in a cluster from `large` on, or in the mbuf itself from `plain` on.
// Inlined with what it calls, because a first mbuf has a packet header and no later one does.
#[inline(always)]
fn new_stored(
    pool: &mut Pool,
    header: bool,
    is_large: bool,
    large: u32,
    plain: u32,
    bytes: &[u8],
) -> Result<Chain, NoBufs>
    requires large { is_large ≡ true → large + length bytes.now ≤ MCLBYTES }
    requires low { room_low header ≤ plain }
    requires high { is_large ≡ false → plain + length bytes.now ≤ MSIZE }
    ensures ok { IfOk result (λ c. (o : Option ℕ) × IsClusterTaken pool.old is_large o
        × Adds pool.old pool.new c (one_mbuf header (record {
          bytes = bytes.now;
          start = if is_large then large else plain;
          cluster = o;
        }) c)) }
    ensures err { OnErr result ((held_mbufs pool.old ≡ pool.old.mbufs) ⊎
        ((is_large ≡ true) × (free_clusters pool.old ≡ 0))) }
    ensures same { OnErr result (pool.new ≡ pool.old) }
{
    if is_large {
        pool.new_cluster_with(header, large, bytes)
    } else {
        pool.new_plain_with(header, plain, bytes)
    }
}

/// Makes a chain with packet header of these bytes, mbuf by mbuf: see `store`.
fn store_rooms(pool: &mut Pool, bytes: &[u8], large: u32, ends: bool) -> Result<Chain, NoBufs>
    requires large { large ≤ CLUSTER_LEADING_SPACE }
    requires most { length bytes.now ≤ IP_MAX_PACKET }
    ensures ok { IfOk result (λ d. Stores pool.old pool.new d large ends
        (rooms_for large (length bytes.now)) bytes.now) }
    ensures enough { OnOk result (Has pool.old (rooms_for large (length bytes.now))) }
    ensures err { OnErr result (Lacks pool.old (rooms_for large (length bytes.now))) }
    ensures same { OnErr result (pool.new ≡ pool.old) }
{
    let (len, is_large) = next_room(MCLBYTES - large, MHLEN, bytes.len() as u32);
    let (piece, mut rest) = bytes.split_at(len as usize);
    let start = first_start(ends, len as usize);
    let chain = new_stored(pool, true, is_large, large, start, piece)?;
    let mut last = pool.first(&chain);
    'rooms: while !rest.is_empty() {
        let (next, is_large) = next_room(MCLBYTES, MLEN, rest.len() as u32);
        let (piece, after) = rest.split_at(next as usize);
        let Ok(back) = new_stored(pool, false, is_large, 0, MBUF_HEADER, piece) else {
            pool.free_chain(chain);
            return Err(NoBufs);
        };
        last = pool.link_counted(&chain, last, back, next);
        rest = after;
    }
    pool.laws();
    Ok(chain)
}

/// Makes a chain with packet header of these bytes. In a first cluster they begin at `large`, and in a first plain
/// mbuf at its end or at its front.
// Inlined, because the caller knows where they begin. Mostly they fit into one plain mbuf or one cluster, and then no
// walk is needed.
#[inline(always)]
fn store(pool: &mut Pool, bytes: &[u8], large: u32, ends: bool) -> Result<Chain, NoBufs>
    requires large { large ≤ CLUSTER_LEADING_SPACE }
    requires most { length bytes.now ≤ IP_MAX_PACKET }
    ensures ok { IfOk result (λ d. Stores pool.old pool.new d large ends
        (rooms_for large (length bytes.now)) bytes.now) }
    ensures enough { OnOk result (Has pool.old (rooms_for large (length bytes.now))) }
    ensures err { OnErr result (Lacks pool.old (rooms_for large (length bytes.now))) }
    ensures same { OnErr result (pool.new ≡ pool.old) }
{
    if !tries_one_buffer() {
        return store_rooms(pool, bytes, large, ends);
    }
    match space_for(large, bytes.len() as u32) {
        Space::InMbuf => {
            let start = first_start(ends, bytes.len());
            pool.new_plain_with(true, start, bytes)
        }
        Space::InCluster => pool.new_cluster_with(true, large, bytes),
        Space::InMore => store_rooms(pool, bytes, large, ends),
    }
}

/// Makes a chain with packet header of bytes to send, at most 65,535: clusters while at least 208 bytes remain, then
/// plain mbufs. 56 bytes of leading space are left in a first cluster, and a first plain mbuf is filled at its end.
/// Fails with `NoBufs` exactly if fewer mbufs or clusters are free than that takes, and then changes nothing. Which
/// free clusters are taken is left open (sosend; TCP/IP Illustrated, volume 2, chapter 16).
#[inline(always)]
pub fn from_user(pool: &mut Pool, bytes: &[u8]) -> Result<Chain, NoBufs>
    requires { length bytes.now ≤ IP_MAX_PACKET }
    ensures ok { IfOk result (λ d. Stores pool.old pool.new d CLUSTER_LEADING_SPACE true
        (user (length bytes.now)) bytes.now) }
    ensures string { IfOk result (λ d. string_in pool.new d ≡ bytes.now) }
    ensures enough { OnOk result (Has pool.old (user (length bytes.now))) }
    ensures err { OnErr result (Lacks pool.old (user (length bytes.now))) }
    ensures same { OnErr result (pool.new ≡ pool.old) }
{
    store(pool, bytes, CLUSTER_LEADING_SPACE, true)
}

/// Makes a chain with packet header of the bytes of a packet that arrived, at most 65,535: clusters while at least 208
/// bytes remain, then plain mbufs, all filled from the front. Fails with `NoBufs` exactly if fewer mbufs or clusters
/// are free than that takes, and then changes nothing. Which free clusters are taken is left open (m_devget; TCP/IP
/// Illustrated, volume 2, chapter 2).
#[inline(always)]
pub fn from_wire(pool: &mut Pool, bytes: &[u8]) -> Result<Chain, NoBufs>
    requires { length bytes.now ≤ IP_MAX_PACKET }
    ensures ok { IfOk result (λ d. Stores pool.old pool.new d 0 false (wire (length bytes.now)) bytes.now) }
    ensures string { IfOk result (λ d. string_in pool.new d ≡ bytes.now) }
    ensures enough { OnOk result (Has pool.old (wire (length bytes.now))) }
    ensures err { OnErr result (Lacks pool.old (wire (length bytes.now))) }
    ensures same { OnErr result (pool.new ≡ pool.old) }
{
    store(pool, bytes, 0, false)
}

/// Returns how many free mbufs and clusters `from_wire` takes for `n` bytes, at most 65,535. Takes one step for each
/// mbuf.
pub fn wire_need(n: u32) -> Need
    requires { n ≤ IP_MAX_PACKET }
    ensures { result ≡ need_of (wire n) }
{
    if !tries_one_buffer() {
        // No bytes take one mbuf, as one byte does.
        return count_rooms(n.max(1));
    }
    match space_for(0, n) {
        Space::InMbuf => Need {
            mbufs: 1,
            clusters: 0,
        },
        Space::InCluster => Need {
            mbufs: 1,
            clusters: 1,
        },
        Space::InMore => count_rooms(n),
    }
}

/// `wire_need` for at least one byte, counted mbuf by mbuf.
fn count_rooms(n: u32) -> Need
    requires some { 0 < n }
    requires most { n ≤ IP_MAX_PACKET }
    ensures { result ≡ need_of (wire n) }
{
    let mut mbufs = 0;
    let mut clusters = 0;
    let mut small = MHLEN;
    let mut left = n;
    'rooms: while left > 0 {
        let (size, is_large) = next_room(MCLBYTES, small, left);
        mbufs += 1;
        clusters += u32::from(is_large);
        small = MLEN;
        left -= size;
    }
    Need { mbufs, clusters }
}
