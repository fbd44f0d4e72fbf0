//! Copies that share clusters.
ghost use Rattle.std.specs.Prelude.{◌≡◌, ◌+◌, ◌≤◌, ◌<◌, length, IfOk, OnOk, OnErr};
ghost use Rattle.mbuf_chain.specs.Chain.{IsLive, chain_of, string_in, alone};
ghost use Rattle.chain_ops.specs.Makes.{Makes, HasMbufs, LacksMbufs};
ghost use Rattle.chain_ops.specs.Copies.{all_copied, part_copied, copy_header};
ghost use Rattle.chain_ops.specs.Extents.{IsExtent, extent_header, extent_copied, extent_bytes};

use crate::cursor::{copy_at, cursor_at};
use crate::step::{append_copy, new_copy};
use mbuf_chain::{Chain, Pool};
use mbuf_pool::NoBufs;

/// Copies `len` bytes of a chain, 1 or more, from `off` on: see `m_copym`.
fn copy_range(pool: &mut Pool, chain: &Chain, off: u32, len: u32) -> Result<Chain, NoBufs>
    requires live { IsLive pool.old chain.now }
    requires some { 0 < len }
    requires within { off + len ≤ length (string_in pool.old chain.now) }
    ensures ok { IfOk result (λ d. Makes pool.old pool.new d
        (alone (copy_header (chain_of pool.old chain.now).front.header off))
        (part_copied (chain_of pool.old chain.now) off len)) }
    ensures enough { OnOk result (HasMbufs pool.old (length (part_copied (chain_of pool.old chain.now) off len))) }
    ensures err { OnErr result (LacksMbufs pool.old (length (part_copied (chain_of pool.old chain.now) off len))) }
    ensures same { OnErr result (pool.new ≡ pool.old) }
{
    let from = cursor_at(pool, chain, off);
    copy_at(pool, chain, from, len)
}

/// Copies a whole chain: see `m_copym`.
fn copy_all(pool: &mut Pool, chain: &Chain) -> Result<Chain, NoBufs>
    requires { IsLive pool.old chain.now }
    ensures ok { IfOk result (λ d. Makes pool.old pool.new d
        (alone (chain_of pool.old chain.now).front.header)
        (all_copied (chain_of pool.old chain.now))) }
    ensures enough { OnOk result (HasMbufs pool.old (length (all_copied (chain_of pool.old chain.now)))) }
    ensures err { OnErr result (LacksMbufs pool.old (length (all_copied (chain_of pool.old chain.now)))) }
    ensures same { OnErr result (pool.new ≡ pool.old) }
{
    let mut at = pool.first(chain);
    let header = pool.has_header(chain);
    let len = pool.segment(chain, at).len;
    let copy = new_copy(pool, header, chain, at, 0, len)?;
    let mut last = pool.first(&copy);
    'mbufs: while let Some(place) = pool.next(chain, at) {
        let n = pool.segment(chain, place).len;
        let Ok(end) = append_copy(pool, &copy, last, chain, place, 0, n) else {
            pool.free_chain(copy);
            return Err(NoBufs);
        };
        last = end;
        at = place;
    }
    pool.laws();
    Ok(copy)
}

/// The part of a chain that is copied (`M_COPYALL`; TCP/IP Illustrated, volume 2, chapter 2).
#[derive(Clone, Copy, Debug, PartialEq, Eq)]
pub enum Extent {
    /// All of them, and all mbufs.
    All,
    /// A number of bytes from an offset on.
    Part(u32, u32),
}

/// Copies a chain or a part of it. The copy has one mbuf for each mbuf with bytes of the range, and one for each empty
/// mbuf between them. Clusters are shared; bytes of plain mbufs are copied to the front of new ones. The copy has a
/// packet header if the chain has one and the copy begins at 0. A part must have at least 1 byte and be within the
/// chain. Fails with `NoBufs` exactly if fewer mbufs are free than the copy has, and then changes nothing. Takes one
/// step for each mbuf up to the last one that it copies (TCP/IP Illustrated, volume 2, chapter 2).
pub fn m_copym(pool: &mut Pool, chain: &Chain, extent: Extent) -> Result<Chain, NoBufs>
    requires live { IsLive pool.old chain.now }
    requires extent { IsExtent extent (length (string_in pool.old chain.now)) }
    ensures ok { IfOk result (λ d. Makes pool.old pool.new d
        (alone (extent_header extent (chain_of pool.old chain.now).front.header))
        (extent_copied extent (chain_of pool.old chain.now).front.header
        (chain_of pool.old chain.now).entries)) }
    ensures string { IfOk result (λ d. string_in pool.new d ≡ extent_bytes extent (string_in pool.old chain.now)) }
    ensures enough { OnOk result (HasMbufs pool.old
        (length (extent_copied extent (chain_of pool.old chain.now).front.header
        (chain_of pool.old chain.now).entries))) }
    ensures err { OnErr result (LacksMbufs pool.old
        (length (extent_copied extent (chain_of pool.old chain.now).front.header
        (chain_of pool.old chain.now).entries))) }
    ensures same { OnErr result (pool.new ≡ pool.old) }
{
    match extent {
        Extent::All => copy_all(pool, chain),
        Extent::Part(off, len) => copy_range(pool, chain, off, len),
    }
}
