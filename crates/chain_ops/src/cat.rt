//! Joining chains.
ghost use Rattle.std.specs.Prelude.{◌≡◌, ◌≢◌, ◌+◌, ◌-◌, ◌++◌, length, MatchOption, drop, false};
ghost use Rattle.mbuf_chain.specs.Chain.{IsLive, IsPlace, chain_of, without, alone, string_in};
ghost use Rattle.chain_ops.specs.Makes.{Makes};
ghost use Rattle.chain_ops.specs.Joins.{Concatenates};

use mbuf_chain::{Chain, Place, Pool};

/// Frees the first mbuf of a chain. Returns the chain of the other mbufs, if there are any.
pub(crate) fn drop_first(pool: &mut Pool, chain: Chain) -> Option<Chain>
    requires { IsLive pool.old chain }
    ensures { MatchOption result
        ((length (chain_of pool.old chain).entries ≡ 1) × (pool.new ≡ without pool.old chain))
        (λ d. Makes (without pool.old chain) pool.new d (alone false)
        (drop 1 (chain_of pool.old chain).entries)) }
{
    let first = pool.first(&chain);
    if pool.next(&chain, first).is_none() {
        pool.free_chain(chain);
        return None;
    }
    Some(pool.free_first(chain))
}

/// Returns the place of a chain's last mbuf, searched from another place on.
fn last_from(pool: &Pool, chain: &Chain, from: Place) -> Place
    requires live { IsLive pool.now chain.now }
    requires place { IsPlace (chain_of pool.now chain.now) from }
    ensures place { IsPlace (chain_of pool.now chain.now) result }
    ensures last { result.index + 1 ≡ length (chain_of pool.now chain.now).entries }
{
    let mut at = from;
    'mbufs: loop {
        let Some(next) = pool.next(chain, at) else {
            return at;
        };
        at = next;
    }
}

/// Joins a chain to another, whose last mbuf is given. Returns the place of the first mbuf that was linked, or that of
/// the last mbuf if none was linked.
fn join(pool: &mut Pool, chain: &Chain, last: Place, second: Chain) -> Place
    requires front { IsLive pool.old chain.now }
    requires back { IsLive pool.old second }
    requires apart { chain.now ≢ second }
    requires place { IsPlace (chain_of pool.old chain.now) last }
    requires last { last.index + 1 ≡ length (chain_of pool.old chain.now).entries }
    ensures makes { Concatenates pool.old pool.new chain.now second }
    ensures place { IsPlace (chain_of pool.new chain.now) result }
{
    let mut back = second;
    'mbufs: loop {
        let from = pool.first(&back);
        let len = pool.segment(&back, from).len;
        if pool.trailing_space(chain, last) <= len {
            return pool.link(chain, last, back);
        }
        pool.append(chain, last, &back, from, 0, len);
        let Some(rest) = drop_first(pool, back) else {
            return last;
        };
        back = rest;
    }
}

/// Joins a chain to another, whose last mbuf is given, like `m_cat`. They must be two chains. Returns the place of
/// the last mbuf afterwards, so that many chains can be joined in one walk over their mbufs (this project's own).
pub fn cat_after(pool: &mut Pool, chain: &Chain, last: Place, second: Chain) -> Place
    requires front { IsLive pool.old chain.now }
    requires back { IsLive pool.old second }
    requires apart { chain.now ≢ second }
    requires place { IsPlace (chain_of pool.old chain.now) last }
    requires last { last.index + 1 ≡ length (chain_of pool.old chain.now).entries }
    ensures makes { Concatenates pool.old pool.new chain.now second }
    ensures string { string_in pool.new chain.now ≡ string_in pool.old chain.now ++ string_in pool.old second }
    ensures place { IsPlace (chain_of pool.new chain.now) result }
    ensures last { result.index + 1 ≡ length (chain_of pool.new chain.now).entries }
{
    let from = join(pool, chain, last, second);
    last_from(pool, chain, from)
}

/// Joins a chain to another. While the first mbuf of the second chain is shorter than the trailing space of the first
/// chain, its bytes move there, and it's freed with its reference. The other mbufs are linked and lose their packet
/// header, and so does an mbuf that would fill the space exactly. A cluster takes no bytes. Never fails (TCP/IP
/// Illustrated, volume 2, chapter 2). The call walks the mbufs of the first chain to find its last one; pass it to
/// `cat_after` if you know it.
///
/// By example, with `P` for bytes in the mbuf itself, `C` for bytes in a cluster, and its count after `x`: `C300x2` and
/// `P40` become `C300x2->P40`. `P28` with 60 bytes of trailing space, and `C5x3`, become `P33`, and the cluster is
/// counted 2.
pub fn m_cat(pool: &mut Pool, chain: &Chain, second: Chain)
    requires front { IsLive pool.old chain.now }
    requires back { IsLive pool.old second }
    requires apart { chain.now ≢ second }
    ensures makes { Concatenates pool.old pool.new chain.now second }
    ensures string { string_in pool.new chain.now ≡ string_in pool.old chain.now ++ string_in pool.old second }
{
    let last = pool.last(chain);
    let _ = join(pool, chain, last, second);
}
