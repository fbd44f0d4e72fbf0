//! Steps that several operations share.
ghost use Rattle.std.specs.Prelude.{◌≡◌, ◌≢◌, ℕ, ◌+◌, ◌≤◌, true, false, None, length, IfOk, OnErr};
ghost use Rattle.mbuf_chain.specs.Chain.{IsLive, IsPlace, chain_of, entry_in, held_mbufs, with_chain, string_in};
ghost use Rattle.mbuf_chain.specs.Steps.{one_mbuf, joined, linked};
ghost use Rattle.chain_ops.specs.Rooms.{room_low};
ghost use Rattle.chain_ops.specs.Copies.{copied_entry, AddsCopy, CanHaveHeader};

use mbuf_chain::{Chain, Place, Pool};
use mbuf_pool::NoBufs;
use params::{MBUF_HEADER, PACKET_START};

/// Returns the first usable place of a plain mbuf.
#[inline(always)]
pub(crate) fn room_low(header: bool) -> u32
    ensures { result ≡ room_low header }
{
    if header { PACKET_START } else { MBUF_HEADER }
}

/// Makes a chain of one mbuf that has a copy of `n` bytes of another mbuf without cluster, after the first `skip`.
// Not inlined: mostly a cluster is copied, and that is shared.
#[inline(never)]
fn copy_plain(
    pool: &mut Pool,
    header: bool,
    chain: &Chain,
    at: Place,
    skip: u32,
    n: u32,
) -> Result<Chain, NoBufs>
    requires live { IsLive pool.old chain.now }
    requires place { IsPlace (chain_of pool.old chain.now) at }
    requires plain { (entry_in pool.old chain.now at).cluster ≡ None }
    requires within { skip + n ≤ length (entry_in pool.old chain.now at).bytes }
    requires headed { CanHaveHeader header (chain_of pool.old chain.now) at }
    ensures ok { IfOk result (λ d. AddsCopy pool.old pool.new d header (entry_in pool.old chain.now at) skip n) }
    ensures err { OnErr result (held_mbufs pool.old ≡ pool.old.mbufs) }
    ensures same { OnErr result (pool.new ≡ pool.old) }
{
    pool.laws();
    let copy = pool.new_plain(header, room_low(header))?;
    let to = pool.first(&copy);
    pool.append(&copy, to, chain, at, skip, n);
    Ok(copy)
}

/// Makes a chain of one mbuf that has a copy of `n` bytes of another mbuf, after the first `skip`. A cluster is
/// shared.
#[inline(always)]
pub(crate) fn new_copy(
    pool: &mut Pool,
    header: bool,
    chain: &Chain,
    at: Place,
    skip: u32,
    n: u32,
) -> Result<Chain, NoBufs>
    requires live { IsLive pool.old chain.now }
    requires place { IsPlace (chain_of pool.old chain.now) at }
    requires within { skip + n ≤ length (entry_in pool.old chain.now at).bytes }
    requires headed { CanHaveHeader header (chain_of pool.old chain.now) at }
    ensures ok { IfOk result (λ d. AddsCopy pool.old pool.new d header (entry_in pool.old chain.now at) skip n) }
    ensures err { OnErr result (held_mbufs pool.old ≡ pool.old.mbufs) }
    ensures same { OnErr result (pool.new ≡ pool.old) }
{
    let segment = pool.segment(chain, at);
    let copy = if segment.cluster.is_some() {
        pool.new_shared(header, chain, at, skip, n)?
    } else {
        copy_plain(pool, header, chain, at, skip, n)?
    };
    Ok(copy)
}

/// Links a chain of one mbuf, a copy of `n` bytes of an mbuf of another chain after the first `skip`, after the last
/// mbuf of a chain. Returns its place.
#[inline(always)]
pub(crate) fn append_copy(
    pool: &mut Pool,
    copy: &Chain,
    last: Place,
    chain: &Chain,
    at: Place,
    skip: u32,
    n: u32,
) -> Result<Place, NoBufs>
    requires copy { IsLive pool.old copy.now }
    requires last { IsPlace (chain_of pool.old copy.now) last }
    requires end { last.index + 1 ≡ length (chain_of pool.old copy.now).entries }
    requires live { IsLive pool.old chain.now }
    requires place { IsPlace (chain_of pool.old chain.now) at }
    requires within { skip + n ≤ length (entry_in pool.old chain.now at).bytes }
    ensures ok { IfOk result (λ q. (d : ℕ) × (pool.new ≡ with_chain pool.old copy.now
        (joined (chain_of pool.old copy.now)
        (one_mbuf false (copied_entry MBUF_HEADER (entry_in pool.old chain.now at) skip n) d)))
        × IsPlace (chain_of pool.new copy.now) q × (q.index ≡ last.index + 1)) }
    ensures err { OnErr result (held_mbufs pool.old ≡ pool.old.mbufs) }
    ensures same { OnErr result (pool.new ≡ pool.old) }
{
    let back = new_copy(pool, false, chain, at, skip, n)?;
    let place = pool.link_counted(copy, last, back, n);
    Ok(place)
}

/// Returns how many bytes a chain has if it has a packet header, otherwise 0, so no mbuf is read.
pub(crate) fn counted_len(pool: &Pool, chain: &Chain) -> (bool, u32)
    requires { IsLive pool.now chain.now }
    ensures { result.0 ≡ true → result.1 ≡ length (string_in pool.now chain.now) }
{
    if pool.has_header(chain) {
        (true, pool.len(chain))
    } else {
        (false, 0)
    }
}

/// Links a chain after the last mbuf of another. If the latter has a packet header, the caller gives the number of the
/// linked bytes.
pub(crate) fn link_rest(
    pool: &mut Pool,
    into: &Chain,
    last: Place,
    rest: Chain,
    counted: bool,
    len: u32,
)
    requires front { IsLive pool.old into.now }
    requires back { IsLive pool.old rest }
    requires apart { into.now ≢ rest }
    requires place { IsPlace (chain_of pool.old into.now) last }
    requires last { last.index + 1 ≡ length (chain_of pool.old into.now).entries }
    requires len { counted ≡ true → len ≡ length (string_in pool.old rest) }
    ensures { pool.new ≡ linked pool.old into.now rest }
{
    if counted {
        pool.link_counted(into, last, rest, len);
    } else {
        pool.link(into, last, rest);
    }
}
