//! Two chains in one pool.
use chain_ops::{from_user, from_wire, m_cat, m_prepend};
use mbuf_chain::{Chain, Pool};
use mbuf_pool::NoBufs;

/// Makes a chain with a user's bytes after space for a header, which is filled with zeros.
#[tactic(auto, using(chain_ops::proofs::Laws::Makes::live_steps))]
pub fn headed(pool: &mut Pool, bytes: &[u8; 100]) -> Result<Chain, NoBufs> {
    let mut chain = from_user(pool, bytes)?;
    if m_prepend(pool, &mut chain, &[0; 28]).is_err() {
        pool.free_chain(chain); // an mbuf was needed, and none was free
        return Err(NoBufs);
    }
    Ok(chain)
}

/// Returns how many bytes two chains have after the second is linked to the end of the first: 128.
#[tactic(auto, using(chain_ops::proofs::Laws::Makes::live_steps))]
pub fn joined(pool: &mut Pool) -> Result<u32, NoBufs> {
    let first = from_wire(pool, &[1; 100])?;
    let Ok(second) = from_wire(pool, &[2; 28]) else {
        pool.free_chain(first);
        return Err(NoBufs);
    };
    m_cat(pool, &first, second);
    let len = pool.len(&first);
    pool.free_chain(first);
    Ok(len)
}
