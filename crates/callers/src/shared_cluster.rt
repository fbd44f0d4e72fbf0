//! A cluster that two chains share.
ghost use Rattle.std.specs.Prelude.{◌≡◌, true, IfOk, OnErr};
ghost use Rattle.mbuf_chain.specs.Chain.{Entry, Adds};
ghost use Rattle.mbuf_chain.specs.Steps.{one_mbuf};

use mbuf_chain::{Chain, Pool};
use mbuf_pool::NoBufs;

/// Makes a chain of one mbuf with these bytes in a cluster.
#[tactic(auto, using(mbuf_chain::proofs::Laws::Maps::map_steps))]
fn filled(pool: &mut Pool, bytes: &[u8; 2]) -> Result<Chain, NoBufs>
    ensures ok { IfOk result (λ c. (e : Entry) × Adds pool.old pool.new c (one_mbuf true e c)) }
    ensures same { OnErr result (pool.new ≡ pool.old) }
{
    let chain = pool.new_cluster(true, 56)?;
    let at = pool.first(&chain);
    pool.put_back(&chain, at, bytes);
    Ok(chain)
}

/// Makes a second chain that shares the bytes of the first one's cluster, and frees both. Returns how many bytes the
/// second one had: 2.
#[tactic(auto, using(mbuf_chain::proofs::Laws::Maps::map_steps))]
pub fn shown_twice(pool: &mut Pool) -> Result<u32, NoBufs> {
    let chain = filled(pool, b"hi")?;
    let at = pool.first(&chain);
    let segment = pool.segment(&chain, at);
    let mut len = 0;
    if segment.cluster.is_some() {
        if let Ok(copy) = pool.new_shared(true, &chain, at, 0, segment.len) {
            len = pool.len(&copy);
            pool.free_chain(copy);
        }
    }
    pool.free_chain(chain);
    Ok(len)
}
