//! Positions of bytes in a chain, and copies that begin at one.
ghost use Rattle.std.specs.Prelude.{◌≡◌, ◌+◌, ◌≤◌, ◌<◌, length, IfOk, OnOk, OnErr};
ghost use Rattle.mbuf_chain.specs.Chain.{IsLive, chain_of, string_in, alone};
ghost use Rattle.chain_ops.specs.Makes.{Makes, HasMbufs, LacksMbufs};
ghost use Rattle.chain_ops.specs.Copies.{part_copied, copy_header};
ghost use Rattle.chain_ops.specs.Cursors.{IsCursor};

use crate::step::{append_copy, new_copy};
use mbuf_chain::{Chain, Place, Pool};
use mbuf_pool::NoBufs;

/// The position of a byte of a chain. `cursor_at` finds it, `advance` moves on from it. Any change of the chain makes
/// it invalid.
#[derive(Clone, Copy, Debug, PartialEq, Eq)]
pub struct Cursor {
    /// How many bytes of the chain precede it.
    pub off: u32,
    /// The mbuf that has the byte.
    pub place: Place,
    /// How many bytes of that mbuf precede it.
    pub skip: u32,
}

/// Returns the position of the byte at `off` of a chain; `off` must be below the chain's length. Mbufs that end at or
/// before the byte are passed; at 0 none is. Takes one step for each mbuf that is passed (this project's own).
pub fn cursor_at(pool: &Pool, chain: &Chain, off: u32) -> Cursor
    requires live { IsLive pool.now chain.now }
    requires within { off < length (string_in pool.now chain.now) }
    ensures cursor { IsCursor (chain_of pool.now chain.now) result }
    ensures off { result.off ≡ off }
{
    let mut place = pool.first(chain);
    let mut skip = off;
    'mbufs: while skip > 0 {
        let len = pool.segment(chain, place).len;
        if skip < len {
            return Cursor { off, place, skip };
        }
        skip -= len;
        place = pool.next(chain, place).unwrap();
    }
    Cursor { off, place, skip }
}

/// Returns the position of the byte `by` bytes, at least 1, after that of a cursor. It must be within the chain, at
/// 65,535 at most. Takes one step for each mbuf that is passed on the way (this project's own).
#[inline(always)]
pub fn advance(pool: &Pool, chain: &Chain, from: Cursor, by: u32) -> Cursor
    requires live { IsLive pool.now chain.now }
    requires cursor { IsCursor (chain_of pool.now chain.now) from }
    requires some { 0 < by }
    requires small { from.off + by ≤ 65535 }
    requires within { from.off + by < length (string_in pool.now chain.now) }
    ensures cursor { IsCursor (chain_of pool.now chain.now) result }
    ensures off { result.off ≡ from.off + by }
{
    let off = from.off + by;
    let mut place = from.place;
    let mut skip = from.skip + by;
    'mbufs: while skip > 0 {
        let len = pool.segment(chain, place).len;
        if skip < len {
            return Cursor { off, place, skip };
        }
        skip -= len;
        place = pool.next(chain, place).unwrap();
    }
    Cursor { off, place, skip }
}

/// Returns whether a copy from `off` on has a packet header.
#[inline(always)]
fn copy_header(pool: &Pool, chain: &Chain, off: u32) -> bool
    requires { IsLive pool.now chain.now }
    ensures { result ≡ copy_header (chain_of pool.now chain.now).front.header off }
{
    pool.has_header(chain) && off == 0
}

/// Copies `len` bytes of a chain, at least 1, from a cursor on, like `m_copym`. They must be within the chain. Takes
/// one step for each mbuf that it copies, so several ranges in order are copied in one walk. Fails with `NoBufs`
/// exactly if fewer mbufs are free than the copy has, and then changes nothing (this project's own).
// Inlined, like `advance`: a datagram that is fragmented calls both for each of its packets.
#[inline(always)]
pub fn copy_at(pool: &mut Pool, chain: &Chain, from: Cursor, len: u32) -> Result<Chain, NoBufs>
    requires live { IsLive pool.old chain.now }
    requires cursor { IsCursor (chain_of pool.old chain.now) from }
    requires some { 0 < len }
    requires within { from.off + len ≤ length (string_in pool.old chain.now) }
    ensures ok { IfOk result (λ d. Makes pool.old pool.new d
        (alone (copy_header (chain_of pool.old chain.now).front.header from.off))
        (part_copied (chain_of pool.old chain.now) from.off len)) }
    ensures enough { OnOk result (HasMbufs pool.old (length (part_copied (chain_of pool.old chain.now) from.off len))) }
    ensures err { OnErr result (LacksMbufs pool.old (length (part_copied (chain_of pool.old chain.now) from.off len))) }
    ensures same { OnErr result (pool.new ≡ pool.old) }
{
    let mut at = from.place;
    let header = copy_header(pool, chain, from.off);
    let first = (pool.segment(chain, at).len - from.skip).min(len);
    let copy = new_copy(pool, header, chain, at, from.skip, first)?;
    let mut last = pool.first(&copy);
    let mut left = len - first;
    'mbufs: while left > 0 {
        at = pool.next(chain, at).unwrap();
        let n = pool.segment(chain, at).len.min(left);
        let Ok(place) = append_copy(pool, &copy, last, chain, at, 0, n) else {
            pool.free_chain(copy);
            return Err(NoBufs);
        };
        last = place;
        left -= n;
    }
    pool.laws();
    Ok(copy)
}
