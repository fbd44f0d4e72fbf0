//! Writing bytes over those of a chain.
ghost use Rattle.std.specs.Prelude.{◌≡◌, ℕ, ◌+◌, ◌-◌, ◌<◌, ◌≤◌, ◌++◌, Some, None, true, false, length, take, drop, replicate, IfOk, OnOk, OnErr};
ghost use Rattle.mbuf_chain.specs.Chain.{IsLive, IsPlace, chain_of, entry_in, string_in, references, without, held_mbufs, alone, Adds};
ghost use Rattle.mbuf_chain.specs.Steps.{one_mbuf, with_entry_in, with_entries_in, overwritten};
ghost use Rattle.chain_ops.specs.Makes.{Makes, HasMbufs, LacksMbufs};
ghost use Rattle.chain_ops.specs.Writes.{is_shared, is_writable, IsWritable, overlaid, in_plain, copied_back, copyback_need, written_bytes};

use mbuf_chain::{Chain, Place, Pool};
use mbuf_pool::NoBufs;
use params::{IP_MAX_PACKET, MBUF_HEADER, MLEN};

/// Returns whether more than one mbuf refers to a cluster, if there is one.
fn is_shared(pool: &Pool, cluster: Option<u32>) -> bool
    requires { (c : ℕ) → cluster ≡ Some c → c < pool.now.clusters }
    ensures { result ≡ is_shared (references pool.now) cluster }
{
    match cluster {
        Some(number) => pool.count(number) > 1,
        None => false,
    }
}

/// Returns whether `len` bytes of a chain from `off` on may be written to: the part of the range within the chain has
/// no byte in a cluster to which more than one mbuf refers. Takes one step for each mbuf up to the end of the range
/// (this project's own).
pub fn is_writable(pool: &Pool, chain: &Chain, off: u32, len: u32) -> bool
    requires { IsLive pool.now chain.now }
    ensures { result ≡ is_writable (references pool.now) (chain_of pool.now chain.now).entries off len }
{
    let mut at = pool.first(chain);
    let mut skip = off;
    let mut left = len;
    'mbufs: while left > 0 {
        let segment = pool.segment(chain, at);
        if skip < segment.len && is_shared(pool, segment.cluster) {
            return false;
        }
        left = left.saturating_sub(segment.len.saturating_sub(skip));
        skip = skip.saturating_sub(segment.len);
        let Some(place) = pool.next(chain, at) else {
            return true;
        };
        at = place;
    }
    true
}

/// Returns the bytes after the first `count`, or none if there are fewer.
fn after(bytes: &[u8], count: u32) -> &[u8]
    ensures { result.now ≡ drop count bytes.now }
{
    &bytes[bytes.len().min(count as usize)..]
}

/// Writes over the bytes of an mbuf from `skip` on, up to its last byte.
fn overlay_mbuf(pool: &mut Pool, chain: &Chain, at: Place, skip: u32, bytes: &[u8])
    requires live { IsLive pool.old chain.now }
    requires place { IsPlace (chain_of pool.old chain.now) at }
    requires some { 0 < length bytes.now }
    requires unshared { skip < length (entry_in pool.old chain.now at).bytes →
        is_shared (references pool.old) (entry_in pool.old chain.now at).cluster ≡ false }
    ensures { pool.new ≡ with_entry_in pool.old chain.now at
        (overwritten (entry_in pool.old chain.now at) skip
        (take (length (entry_in pool.old chain.now at).bytes - skip) bytes.now)) }
{
    let len = pool.segment(chain, at).len;
    if skip < len {
        let piece = &bytes[..bytes.len().min((len - skip) as usize)];
        pool.overwrite(chain, at, skip, piece);
    }
}

/// Writes over the bytes of a chain from `off` on, up to its last byte.
fn overlay(pool: &mut Pool, chain: &Chain, off: u32, bytes: &[u8])
    requires live { IsLive pool.old chain.now }
    requires writable { IsWritable pool.old chain.now off (length bytes.now) }
    ensures { pool.new ≡ with_entries_in pool.old chain.now
        (overlaid (chain_of pool.old chain.now).entries off bytes.now) }
{
    let mut at = pool.first(chain);
    let mut skip = off;
    let mut rest = bytes;
    'mbufs: while !rest.is_empty() {
        let len = pool.segment(chain, at).len;
        overlay_mbuf(pool, chain, at, skip, rest);
        rest = after(rest, len.saturating_sub(skip));
        skip = skip.saturating_sub(len);
        let Some(place) = pool.next(chain, at) else {
            return;
        };
        at = place;
    }
}

/// Returns `count` zeros, at most 108.
fn zeros(count: usize) -> &'static [u8]
    requires { count ≤ MLEN }
    ensures { result.now ≡ replicate count 0 }
{
    const ZEROS: [u8; MLEN as usize] = [0; MLEN as usize];
    &ZEROS[..count]
}

/// Makes a chain of one plain mbuf without packet header, filled with zeros and then with the bytes that fit.
fn new_piece(pool: &mut Pool, gap: u32, bytes: &[u8]) -> Result<Chain, NoBufs>
    ensures ok { IfOk result (λ d. Adds pool.old pool.new d (one_mbuf false (record {
      bytes = take MLEN (replicate gap 0 ++ bytes.now);
      start = MBUF_HEADER;
      cluster = None;
    }) d)) }
    ensures err { OnErr result (held_mbufs pool.old ≡ pool.old.mbufs) }
    ensures same { OnErr result (pool.new ≡ pool.old) }
{
    let chain = pool.new_plain(false, MBUF_HEADER)?;
    let at = pool.first(&chain);
    let blank = gap.min(MLEN) as usize;
    let count = bytes.len().min(MLEN as usize - blank);
    pool.put_back(&chain, at, zeros(blank));
    pool.put_back(&chain, at, &bytes[..count]);
    Ok(chain)
}

/// Makes a chain without packet header of zeros and then bytes, at least 1 byte in all, in plain mbufs that are filled
/// from the front.
fn new_tail(pool: &mut Pool, gap: u32, bytes: &[u8]) -> Result<Chain, NoBufs>
    requires some { 0 < gap + length bytes.now }
    requires most { gap + length bytes.now ≤ IP_MAX_PACKET }
    ensures ok { IfOk result (λ d. Makes pool.old pool.new d (alone false) (in_plain (replicate gap 0 ++ bytes.now))) }
    ensures enough { OnOk result (HasMbufs pool.old (length (in_plain (replicate gap 0 ++ bytes.now)))) }
    ensures err { OnErr result (LacksMbufs pool.old (length (in_plain (replicate gap 0 ++ bytes.now)))) }
    ensures same { OnErr result (pool.new ≡ pool.old) }
{
    let chain = new_piece(pool, gap, bytes)?;
    let mut last = pool.first(&chain);
    let mut rest = after(bytes, MLEN.saturating_sub(gap));
    let mut blank = gap.saturating_sub(MLEN);
    'mbufs: while blank as usize + rest.len() > 0 {
        let len = (blank + rest.len() as u32).min(MLEN);
        let Ok(back) = new_piece(pool, blank, rest) else {
            pool.free_chain(chain);
            return Err(NoBufs);
        };
        last = pool.link_counted(&chain, last, back, len);
        rest = after(rest, MLEN.saturating_sub(blank));
        blank = blank.saturating_sub(MLEN);
    }
    pool.laws();
    Ok(chain)
}

/// Writes bytes over those of a chain from `off` on, and lengthens the chain if it ends before them. Bytes between its
/// old end and `off` become 0. The bytes after the old end go into new plain mbufs; the trailing space of the old
/// last mbuf isn't used. `off` plus the number of bytes is at most 65,535, and the range must be writable
/// (`is_writable`). Fails with `NoBufs` exactly if fewer mbufs are free than the new bytes need, and then changes
/// nothing (TCP/IP Illustrated, volume 2, chapter 2).
pub fn m_copyback(pool: &mut Pool, chain: &Chain, off: u32, bytes: &[u8]) -> Result<(), NoBufs>
    requires live { IsLive pool.old chain.now }
    requires most { off + length bytes.now ≤ IP_MAX_PACKET }
    requires writable { IsWritable pool.old chain.now off (length bytes.now) }
    ensures ok { OnOk result (Makes (without pool.old chain.now) pool.new chain.now
        (chain_of pool.old chain.now).front
        (copied_back (chain_of pool.old chain.now).entries off bytes.now)) }
    ensures string { OnOk result (string_in pool.new chain.now
        ≡ written_bytes (string_in pool.old chain.now) off bytes.now) }
    ensures enough { OnOk result (HasMbufs pool.old
        (copyback_need (chain_of pool.old chain.now).entries off bytes.now)) }
    ensures err { OnErr result (LacksMbufs pool.old
        (copyback_need (chain_of pool.old chain.now).entries off bytes.now)) }
    ensures same { OnErr result (pool.new ≡ pool.old) }
{
    let len = pool.len(chain);
    let end = off + bytes.len() as u32;
    pool.laws();
    if end <= len {
        overlay(pool, chain, off, bytes);
        return Ok(());
    }
    let rest = after(bytes, len.saturating_sub(off));
    let tail = new_tail(pool, off.saturating_sub(len), rest)?;
    pool.laws();
    overlay(pool, chain, off, bytes);
    let last = pool.last(chain);
    pool.link_counted(chain, last, tail, end - len);
    Ok(())
}
