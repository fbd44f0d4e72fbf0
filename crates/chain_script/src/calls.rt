//! The effect of each request on the slots.
ghost use Rattle.std.specs.Prelude.{◌≡◌, ◌≢◌, ◌<◌, ◌≤◌, ◌+◌, ◌&&◌, nat_lt, nat_le, ℕ, length, Some, None, slice_index_or};
ghost use Rattle.mbuf_chain.specs.Chain.{IsLive, chain_of, without};
ghost use Rattle.chain_ops.specs.Makes.{Makes};
ghost use Rattle.chain_ops.specs.Joins.{cat};
ghost use Rattle.chain_script.specs.Lines.{User, Wire, Copy, Prepend, Pull_up, Adjust, Split, Join, Write_over, Read_out, Free};
ghost use Rattle.chain_script.specs.Machines.{is_range};
ghost use Rattle.chain_script.specs.Steps.{ChainStep};
ghost use Rattle.chain_script.specs.Inside.Needs.{HasSlot, HasSlots, HasOutcome};
ghost use Rattle.chain_script.specs.Inside.Replies.{held_reply};
ghost use Rattle.chain_script.specs.Inside.Slots.{machine_of};

use crate::fault::Fault;
use crate::slots::{put, take};
use chain_ops::{
    Extent, Refusal, from_user, from_wire, is_writable, m_adj, m_cat, m_copyback, m_copydata,
    m_copym, m_prepend, m_pullup, m_split,
};
use mbuf_chain::{Chain, Pool};
use params::{IP_MAX_PACKET, MHLEN};

/// Puts a chain with bytes to send into an empty slot.
pub(crate) fn user(
    pool: &mut Pool,
    chains: &mut [Option<Chain>],
    slot: usize,
    bytes: &[u8],
) -> Result<(), Fault>
    requires slot { HasSlot pool.old chains.old slot }
    requires bytes { length bytes.now ≤ IP_MAX_PACKET }
    ensures { HasOutcome pool.old chains.old (User slot bytes.now) result pool.new chains.new }
{
    let None = &chains[slot] else {
        return Err(Fault::Chain);
    };
    match from_user(pool, bytes) {
        Ok(chain) => {
            put(chains, slot, chain);
            Ok(())
        }
        Err(_) => Err(Fault::NoBufs),
    }
}

/// Returns whether `count` bytes may be prepended to a chain of `total` bytes.
fn may_prepend(count: usize, total: u32) -> bool
    ensures { result ≡ (nat_lt 0 count && (nat_le count MHLEN && nat_le (count + total) IP_MAX_PACKET)) }
{
    0 < count && count <= MHLEN as usize && total <= IP_MAX_PACKET - count as u32
}

/// Prepends bytes to a chain.
pub(crate) fn prepend(
    pool: &mut Pool,
    chains: &mut [Option<Chain>],
    slot: usize,
    bytes: &[u8],
) -> Result<(), Fault>
    requires { HasSlot pool.old chains.old slot }
    ensures { HasOutcome pool.old chains.old (Prepend slot bytes.now) result pool.new chains.new }
{
    let Some(chain) = &mut chains[slot] else {
        return Err(Fault::Chain);
    };
    if !may_prepend(bytes.len(), pool.len(chain)) {
        return Err(Fault::Range);
    }
    match m_prepend(pool, chain, bytes) {
        Ok(()) => Ok(()),
        Err(_) => Err(Fault::NoBufs),
    }
}

/// Removes bytes from one end of a chain.
pub(crate) fn adj(
    pool: &mut Pool,
    chains: &mut [Option<Chain>],
    slot: usize,
    n: i32,
) -> Result<(), Fault>
    requires { HasSlot pool.old chains.old slot }
    ensures { HasOutcome pool.old chains.old (Adjust slot n) result pool.new chains.new }
{
    let Some(chain) = &chains[slot] else {
        return Err(Fault::Chain);
    };
    m_adj(pool, chain, n);
    Ok(())
}

/// Frees a chain.
pub(crate) fn free(pool: &mut Pool, chains: &mut [Option<Chain>], slot: usize) -> Result<(), Fault>
    requires { HasSlot pool.old chains.old slot }
    ensures { HasOutcome pool.old chains.old (Free slot) result pool.new chains.new }
{
    let Some(_) = &chains[slot] else {
        return Err(Fault::Chain);
    };
    let chain = take(chains, slot);
    pool.free_chain(chain);
    Ok(())
}

/// Puts a chain with the bytes of a packet that arrived into an empty slot.
pub(crate) fn wire(
    pool: &mut Pool,
    chains: &mut [Option<Chain>],
    slot: usize,
    bytes: &[u8],
) -> Result<(), Fault>
    requires slot { HasSlot pool.old chains.old slot }
    requires bytes { length bytes.now ≤ IP_MAX_PACKET }
    ensures { HasOutcome pool.old chains.old (Wire slot bytes.now) result pool.new chains.new }
{
    let None = &chains[slot] else {
        return Err(Fault::Chain);
    };
    match from_wire(pool, bytes) {
        Ok(chain) => {
            put(chains, slot, chain);
            Ok(())
        }
        Err(_) => Err(Fault::NoBufs),
    }
}

/// Returns whether a part of `len` bytes is within `total` bytes, and isn't empty.
fn is_part(extent: Extent, total: u32) -> bool
    ensures { result ≡ is_range extent total }
{
    match extent {
        Extent::All => true,
        Extent::Part(off, len) => 0 < len && len <= total && off <= total - len,
    }
}

/// Puts a copy of a chain, or of a part of it, into an empty slot. The copy shares the clusters.
pub(crate) fn copym(
    pool: &mut Pool,
    chains: &mut [Option<Chain>],
    to: usize,
    slot: usize,
    extent: Extent,
) -> Result<(), Fault>
    requires { HasSlots pool.old chains.old slot to }
    ensures { HasOutcome pool.old chains.old (Copy to slot extent) result pool.new chains.new }
{
    let Some(chain) = &chains[slot] else {
        return Err(Fault::Chain);
    };
    let None = &chains[to] else {
        return Err(Fault::Chain);
    };
    if !is_part(extent, pool.len(chain)) {
        return Err(Fault::Range);
    }
    match m_copym(pool, chain, extent) {
        Ok(copy) => {
            put(chains, to, copy);
            Ok(())
        }
        Err(_) => Err(Fault::NoBufs),
    }
}

/// Moves the first `n` bytes of a chain into one mbuf.
pub(crate) fn pullup(
    pool: &mut Pool,
    chains: &mut [Option<Chain>],
    slot: usize,
    n: u32,
) -> Result<(), Fault>
    requires { HasSlot pool.old chains.old slot }
    ensures { HasOutcome pool.old chains.old (Pull_up slot n) result pool.new chains.new }
{
    let Some(chain) = &mut chains[slot] else {
        return Err(Fault::Chain);
    };
    match m_pullup(pool, chain, n) {
        Ok(()) => Ok(()),
        Err(Refusal::TooLong) => Err(Fault::TooLong),
        Err(Refusal::TooShort) => Err(Fault::TooShort),
        Err(Refusal::NoBufs) => Err(Fault::NoBufs),
    }
}

/// Splits a chain at a byte offset, and puts the rest into an empty slot.
pub(crate) fn split(
    pool: &mut Pool,
    chains: &mut [Option<Chain>],
    to: usize,
    slot: usize,
    at: u32,
) -> Result<(), Fault>
    requires { HasSlots pool.old chains.old slot to }
    ensures { HasOutcome pool.old chains.old (Split to slot at) result pool.new chains.new }
{
    let Some(chain) = &chains[slot] else {
        return Err(Fault::Chain);
    };
    let None = &chains[to] else {
        return Err(Fault::Chain);
    };
    if pool.len(chain) <= at {
        return Err(Fault::Range);
    }
    match m_split(pool, chain, at) {
        Ok(back) => {
            put(chains, to, back);
            Ok(())
        }
        Err(_) => Err(Fault::NoBufs),
    }
}

/// Appends the chain of another slot to the chain of a slot.
fn join(pool: &mut Pool, chains: &[Option<Chain>], slot: usize, second: Chain)
    requires slot { slot < length chains.now }
    requires held { (c : ℕ) × (slice_index_or chains.now slot None ≡ Some c)
        × IsLive pool.old c × IsLive pool.old second × (c ≢ second) }
    ensures { (c : ℕ) → slice_index_or chains.now slot None ≡ Some c →
        Makes (without (without pool.old second) c) pool.new c (chain_of pool.old c).front
        (cat (chain_of pool.old c).entries (chain_of pool.old second).entries) }
{
    match &chains[slot] {
        Some(first) => m_cat(pool, first, second),
        None => unreachable!(),
    }
}

/// Appends the chain of another slot to a chain. That slot is empty afterwards.
pub(crate) fn join_slots(
    pool: &mut Pool,
    chains: &mut [Option<Chain>],
    slot: usize,
    other: usize,
) -> Result<(), Fault>
    requires { HasSlots pool.old chains.old slot other }
    ensures { HasOutcome pool.old chains.old (Join slot other) result pool.new chains.new }
{
    if slot == other {
        return Err(Fault::Chain);
    }
    let Some(first) = &chains[slot] else {
        return Err(Fault::Chain);
    };
    let Some(second) = &chains[other] else {
        return Err(Fault::Chain);
    };
    if u64::from(pool.len(first)) + u64::from(pool.len(second)) > u64::from(IP_MAX_PACKET) {
        return Err(Fault::Range);
    }
    let second = take(chains, other);
    join(pool, chains, slot, second);
    Ok(())
}

/// Overwrites bytes of a chain from `off` on, and lengthens the chain if they go past its end.
pub(crate) fn copyback(
    pool: &mut Pool,
    chains: &mut [Option<Chain>],
    slot: usize,
    off: u32,
    bytes: &[u8],
) -> Result<(), Fault>
    requires slot { HasSlot pool.old chains.old slot }
    requires off { off ≤ IP_MAX_PACKET }
    requires bytes { length bytes.now ≤ IP_MAX_PACKET }
    ensures { HasOutcome pool.old chains.old (Write_over slot off bytes.now) result pool.new chains.new }
{
    let Some(chain) = &chains[slot] else {
        return Err(Fault::Chain);
    };
    let len = bytes.len() as u32;
    if off + len > IP_MAX_PACKET {
        return Err(Fault::Range);
    }
    if !is_writable(pool, chain, off, len) {
        return Err(Fault::Shared);
    }
    match m_copyback(pool, chain, off, bytes) {
        Ok(()) => Ok(()),
        Err(_) => Err(Fault::NoBufs),
    }
}

/// Copies bytes out of a chain.
pub(crate) fn copydata(
    pool: &Pool,
    chains: &[Option<Chain>],
    slot: usize,
    off: u32,
    to: &mut [u8],
) -> Result<(), Fault>
    requires slot { HasSlot pool.now chains.now slot }
    requires off { off ≤ IP_MAX_PACKET }
    requires to { length to.old ≤ IP_MAX_PACKET }
    ensures { ChainStep (machine_of pool.now chains.now) (Read_out slot off (length to.old)) (held_reply result to.new)
        (machine_of pool.now chains.now) }
{
    let Some(chain) = &chains[slot] else {
        return Err(Fault::Chain);
    };
    if off + to.len() as u32 > pool.len(chain) {
        return Err(Fault::Range);
    }
    m_copydata(pool, chain, off as usize, to);
    Ok(())
}
