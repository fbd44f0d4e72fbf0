//! Cutting chains in two.
ghost use Rattle.std.specs.Prelude.{◌≡◌, ◌+◌, ◌-◌, ◌<◌, ◌≤◌, ◌++◌, ◌∷◌, [], Bool, true, false, None, length, take, drop, IfOk, OnOk, OnErr};
ghost use Rattle.mbuf_chain.specs.Chain.{IsLive, IsPlace, chain_of, entry_in, string_in, flat_bytes, alone, held_mbufs, Adds};
ghost use Rattle.mbuf_chain.specs.Steps.{one_mbuf, empty_entry};
ghost use Rattle.chain_ops.specs.Makes.{Makes, Parts, HasMbufs, LacksMbufs};
ghost use Rattle.chain_ops.specs.Rooms.{room_low, end_entry};
ghost use Rattle.chain_ops.specs.Copies.{copied_entry};
ghost use Rattle.chain_ops.specs.Splits.{rest_of, split_front, split_back, split_need};

use crate::prepend::at_end;
use crate::step::{append_copy, counted_len, link_rest, new_copy};
use mbuf_chain::{Chain, Place, Pool};
use mbuf_pool::NoBufs;
use params::{MBUF_HEADER, MHLEN};

/// Returns the mbuf in which a cut at `off` bytes is, and the offset in it: the first mbuf that is at least as long as
/// the remaining offset.
fn find_cut(pool: &Pool, chain: &Chain, off: u32) -> (Place, u32)
    requires live { IsLive pool.now chain.now }
    requires within { off < length (string_in pool.now chain.now) }
    ensures place { IsPlace (chain_of pool.now chain.now) result.0 }
    ensures within { result.1 ≤ length (entry_in pool.now chain.now result.0).bytes }
    ensures left { off + length (flat_bytes (drop result.0.index (chain_of pool.now chain.now).entries))
        ≡ result.1 + length (string_in pool.now chain.now) }
    ensures after { result.1 < length (flat_bytes (drop result.0.index (chain_of pool.now chain.now).entries)) }
    ensures front { split_front (chain_of pool.now chain.now).entries off
        ≡ take result.0.index (chain_of pool.now chain.now).entries
        ++ split_front (drop result.0.index (chain_of pool.now chain.now).entries) result.1 }
    ensures back { (h : Bool) → split_back h (chain_of pool.now chain.now).entries off
        ≡ split_back h (drop result.0.index (chain_of pool.now chain.now).entries) result.1 }
    ensures need { (h : Bool) → split_need h (chain_of pool.now chain.now).entries off
        ≡ split_need h (drop result.0.index (chain_of pool.now chain.now).entries) result.1 }
{
    let mut at = pool.first(chain);
    let mut left = off;
    'mbufs: loop {
        let len = pool.segment(chain, at).len;
        if left <= len {
            return (at, left);
        }
        left -= len;
        at = pool.next(chain, at).unwrap();
    }
}

/// Makes a chain of one plain mbuf with packet header that has the bytes of another plain mbuf from `off` on, 1 to 100,
/// at its end.
fn new_end(pool: &mut Pool, chain: &Chain, at: Place, off: u32, n: u32) -> Result<Chain, NoBufs>
    requires live { IsLive pool.old chain.now }
    requires place { IsPlace (chain_of pool.old chain.now) at }
    requires most { n ≤ MHLEN }
    requires whole { off + n ≡ length (entry_in pool.old chain.now at).bytes }
    ensures ok { IfOk result (λ d. Adds pool.old pool.new d
        (one_mbuf true (end_entry true (drop off (entry_in pool.old chain.now at).bytes)) d)) }
    ensures err { OnErr result (held_mbufs pool.old ≡ pool.old.mbufs) }
    ensures same { OnErr result (pool.new ≡ pool.old) }
{
    let head = pool.new_plain(true, at_end(true, n))?;
    let to = pool.first(&head);
    pool.append(&head, to, chain, at, off, n);
    Ok(head)
}

/// Makes a chain of an empty mbuf with packet header, followed by one with the bytes of a plain mbuf.
fn new_two(pool: &mut Pool, chain: &Chain, at: Place, off: u32, n: u32) -> Result<Chain, NoBufs>
    requires live { IsLive pool.old chain.now }
    requires place { IsPlace (chain_of pool.old chain.now) at }
    requires within { off + n ≤ length (entry_in pool.old chain.now at).bytes }
    ensures ok { IfOk result (λ d. Makes pool.old pool.new d (alone true)
        (empty_entry (room_low true) None ∷ copied_entry MBUF_HEADER (entry_in pool.old chain.now at) off n ∷ [])) }
    ensures err { OnErr result (LacksMbufs pool.old 2) }
    ensures same { OnErr result (pool.new ≡ pool.old) }
{
    let head = pool.new_chain()?;
    let last = pool.first(&head);
    let Ok(_) = append_copy(pool, &head, last, chain, at, off, n) else {
        pool.free_chain(head);
        return Err(NoBufs);
    };
    Ok(head)
}

/// Makes the first mbufs of a new chain that has the bytes of an mbuf from `off` on.
fn new_head(
    pool: &mut Pool,
    header: bool,
    chain: &Chain,
    at: Place,
    off: u32,
) -> Result<Chain, NoBufs>
    requires live { IsLive pool.old chain.now }
    requires place { IsPlace (chain_of pool.old chain.now) at }
    requires within { off ≤ length (entry_in pool.old chain.now at).bytes }
    requires some { header ≡ false → off < length (entry_in pool.old chain.now at).bytes }
    ensures ok { IfOk result (λ d. Makes pool.old pool.new d (alone header)
        (rest_of header (entry_in pool.old chain.now at) off)) }
    ensures err { OnErr result (LacksMbufs pool.old (length (rest_of header (entry_in pool.old chain.now at) off))) }
    ensures same { OnErr result (pool.new ≡ pool.old) }
{
    let segment = pool.segment(chain, at);
    let n = segment.len - off;
    if n == 0 {
        return pool.new_chain();
    }
    if segment.cluster.is_some() {
        return pool.new_shared(header, chain, at, off, n);
    }
    if !header {
        return new_copy(pool, false, chain, at, off, n);
    }
    if n <= MHLEN {
        return new_end(pool, chain, at, off, n);
    }
    new_two(pool, chain, at, off, n)
}

/// Cuts a chain in two after its first `at` bytes; `at` is below its length. The chain keeps these, and the returned
/// chain has the others. If an mbuf is cut through, its cluster is shared, or its plain bytes are copied. If the chain
/// has a packet header, both have one, and no mbuf after the cut is read. Fails with `NoBufs` exactly if fewer mbufs
/// are free than that takes, and then changes nothing (`m_split` of 4.4BSD; the details are this project's own).
///
/// By example, with `P` for bytes in the mbuf itself, `C` for bytes in a cluster, and its count after `x`: `C300x1` at
/// 100 becomes `C100x2` and `C200x2`, and `P80` at 30 becomes `P30` and `P50`.
pub fn m_split(pool: &mut Pool, chain: &Chain, at: u32) -> Result<Chain, NoBufs>
    requires live { IsLive pool.old chain.now }
    requires within { at < length (string_in pool.old chain.now) }
    ensures ok { IfOk result (λ d. Parts pool.old pool.new chain.now d
        (chain_of pool.old chain.now).front (split_front (chain_of pool.old chain.now).entries at)
        (alone (chain_of pool.old chain.now).front.header)
        (split_back (chain_of pool.old chain.now).front.header (chain_of pool.old chain.now).entries at)) }
    ensures front { OnOk result (string_in pool.new chain.now ≡ take at (string_in pool.old chain.now)) }
    ensures back { IfOk result (λ d. string_in pool.new d ≡ drop at (string_in pool.old chain.now)) }
    ensures enough { OnOk result (HasMbufs pool.old
        (split_need (chain_of pool.old chain.now).front.header (chain_of pool.old chain.now).entries at)) }
    ensures err { OnErr result (LacksMbufs pool.old
        (split_need (chain_of pool.old chain.now).front.header (chain_of pool.old chain.now).entries at)) }
    ensures same { OnErr result (pool.new ≡ pool.old) }
{
    let (place, off) = find_cut(pool, chain, at);
    let len = pool.segment(chain, place).len;
    let header = pool.has_header(chain);
    let (counted, total) = counted_len(pool, chain);
    pool.laws();
    if !header && off == len {
        return Ok(pool.cut(chain, place.index + 1));
    }
    let head = new_head(pool, header, chain, place, off)?;
    pool.laws();
    pool.narrow(chain, place, 0, off);
    if pool.next(chain, place).is_none() {
        return Ok(head);
    }
    let back = pool.cut(chain, place.index + 1);
    let last = pool.last(&head);
    let moved = len.saturating_sub(off);
    let rest = total.saturating_sub(at).saturating_sub(moved);
    link_rest(pool, &head, last, back, counted, rest);
    Ok(head)
}
