//! Putting bytes before a chain's first byte.
ghost use Rattle.std.specs.Prelude.{◌≡◌, ◌<◌, ◌≤◌, ◌++◌, length, OnOk, OnErr};
ghost use Rattle.mbuf_chain.specs.Chain.{IsLive, chain_of, without, string_in};
ghost use Rattle.chain_ops.specs.Makes.{Makes, HasMbufs, LacksMbufs};
ghost use Rattle.chain_ops.specs.Rooms.{at_end};
ghost use Rattle.chain_ops.specs.Prepends.{prepended, prepended_front, prepend_need};

use crate::step::room_low;
use mbuf_chain::{Chain, Pool};
use mbuf_pool::NoBufs;
use params::{MHLEN, MSIZE};
use std::mem;

/// Returns the offset of `n` bytes that are put at the end of a plain mbuf.
#[inline(always)]
pub(crate) fn at_end(header: bool, n: u32) -> u32
    requires { n ≤ MHLEN }
    ensures { result ≡ at_end header n }
{
    let low = room_low(header);
    low + (MSIZE - low - n) / 4 * 4
}

/// Prepends bytes, 1 to 100, to a chain: in the leading space of its first mbuf, or if that is too small at the end of
/// a new first mbuf, which takes over the packet header and gives the chain its number. A cluster is never written to.
/// Fails with `NoBufs` exactly if an mbuf is needed and none is free, and then changes nothing (TCP/IP Illustrated,
/// volume 2, chapter 2).
// Inlined, because the caller knows how many bytes there are.
#[inline(always)]
pub fn m_prepend(pool: &mut Pool, chain: &mut Chain, bytes: &[u8]) -> Result<(), NoBufs>
    requires live { IsLive pool.old chain.old }
    requires some { 0 < length bytes.now }
    requires most { length bytes.now ≤ MHLEN }
    ensures ok { OnOk result (Makes (without pool.old chain.old) pool.new chain.new
        (prepended_front (chain_of pool.old chain.old) (length bytes.now))
        (prepended (chain_of pool.old chain.old) bytes.now)) }
    ensures string { OnOk result (string_in pool.new chain.new ≡ bytes.now ++ string_in pool.old chain.old) }
    ensures enough { OnOk result (HasMbufs pool.old (prepend_need (chain_of pool.old chain.old) (length bytes.now))) }
    ensures err { OnErr result (LacksMbufs pool.old (prepend_need (chain_of pool.old chain.old) (length bytes.now))) }
    ensures same { OnErr result ((pool.new ≡ pool.old) × (chain.new ≡ chain.old)) }
{
    pool.laws();
    let first = pool.first(chain);
    let len = bytes.len() as u32;
    if len <= pool.leading_space(chain, first) {
        pool.put_front(chain, first, bytes);
        return Ok(());
    }
    let header = pool.has_header(chain);
    let new = pool.new_plain_with(header, at_end(header, len), bytes)?;
    pool.laws();
    let at = pool.first(&new);
    let old = mem::replace(chain, new);
    pool.link(chain, at, old);
    Ok(())
}
