//! Removing bytes from an end of a chain.
ghost use Rattle.std.specs.Prelude.{◌≡◌};
ghost use Rattle.mbuf_chain.specs.Chain.{IsLive, chain_of, string_in};
ghost use Rattle.mbuf_chain.specs.Steps.{with_entries_in};
ghost use Rattle.chain_ops.specs.Trims.{without_first, only_first, adjusted, adjusted_bytes};

use mbuf_chain::{Chain, Pool};

/// Removes the first `n` bytes of a chain, mbuf by mbuf: see `trim_front`.
fn trim_walk(pool: &mut Pool, chain: &Chain, n: u32)
    requires { IsLive pool.old chain.now }
    ensures { pool.new ≡ with_entries_in pool.old chain.now (without_first n (chain_of pool.old chain.now).entries) }
{
    let mut at = pool.first(chain);
    let mut left = n;
    'mbufs: while left > 0 {
        let len = pool.segment(chain, at).len;
        let skip = left.min(len);
        pool.narrow(chain, at, skip, len - skip);
        left -= skip;
        let Some(place) = pool.next(chain, at) else {
            return;
        };
        at = place;
    }
}

/// Removes the first `n` bytes of a chain, or all if it has fewer. This call of the project's own is the half of
/// `m_adj` that works at the front (TCP/IP Illustrated, volume 2, chapter 2).
// A header is usually within the first mbuf, which is narrowed without a walk. Inlined, because its length is known
// then.
#[inline(always)]
pub fn trim_front(pool: &mut Pool, chain: &Chain, n: u32)
    requires { IsLive pool.old chain.now }
    ensures { pool.new ≡ with_entries_in pool.old chain.now (without_first n (chain_of pool.old chain.now).entries) }
{
    let first = pool.first(chain);
    let len = pool.segment(chain, first).len;
    if n <= len {
        pool.narrow(chain, first, n, len - n);
    } else {
        trim_walk(pool, chain, n);
    }
}

/// Keeps the first `keep` bytes of a chain, mbuf by mbuf: see `trim_back`.
fn keep_walk(pool: &mut Pool, chain: &Chain, keep: u32)
    requires { IsLive pool.old chain.now }
    ensures { pool.new ≡ with_entries_in pool.old chain.now (only_first keep (chain_of pool.old chain.now).entries) }
{
    let mut at = pool.first(chain);
    let mut left = keep;
    'mbufs: loop {
        let len = pool.segment(chain, at).len;
        let kept = left.min(len);
        pool.narrow(chain, at, 0, kept);
        left -= kept;
        let Some(place) = pool.next(chain, at) else {
            return;
        };
        at = place;
    }
}

/// Keeps the first `keep` bytes of a chain, or all if it has fewer. This call of the project's own is the half of
/// `m_adj` that works at the end (TCP/IP Illustrated, volume 2, chapter 2); its argument is the number of bytes that
/// stay.
// Usually nothing is removed. Then only the first mbuf is read, since it has the packet length.
#[inline(always)]
pub fn trim_back(pool: &mut Pool, chain: &Chain, keep: u32)
    requires { IsLive pool.old chain.now }
    ensures { pool.new ≡ with_entries_in pool.old chain.now (only_first keep (chain_of pool.old chain.now).entries) }
{
    if keep < pool.len(chain) {
        keep_walk(pool, chain, keep);
    }
}

/// Removes the first `n` bytes of a chain, or the last `-n` if `n` is below 0; all bytes if the chain has fewer. No
/// mbuf is freed: one that loses bytes at its front then begins that much later, even if it loses all. Takes one step
/// for each mbuf before the bytes that stay, or one for each mbuf of the chain if bytes are removed at the end (TCP/IP
/// Illustrated, volume 2, chapter 2).
// Inlined, because the caller knows the sign.
#[inline(always)]
pub fn m_adj(pool: &mut Pool, chain: &Chain, n: i32)
    requires { IsLive pool.old chain.now }
    ensures change { pool.new ≡ with_entries_in pool.old chain.now (adjusted n (chain_of pool.old chain.now).entries) }
    ensures string { string_in pool.new chain.now ≡ adjusted_bytes n (string_in pool.old chain.now) }
{
    if n >= 0 {
        trim_front(pool, chain, n as u32);
    } else {
        let keep = pool.len(chain).saturating_sub(n.unsigned_abs());
        trim_back(pool, chain, keep);
    }
}
