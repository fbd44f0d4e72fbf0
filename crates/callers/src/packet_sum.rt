//! The checksum of a packet in a chain.
use chain_ops::from_wire;
use in_cksum::{Sum, cksum_chain};
use mbuf_chain::Pool;
use mbuf_pool::NoBufs;

/// Returns the checksum of the bytes after a packet's 20 bytes of header, including these words of a pseudo header.
#[tactic(auto, using(chain_ops::proofs::Laws::Makes::live_steps))]
pub fn checksum(pool: &mut Pool, packet: &[u8; 48], words: u64) -> Result<u16, NoBufs> {
    let chain = from_wire(pool, packet)?;
    let sum = cksum_chain(
        pool,
        &chain,
        20,
        pool.len(&chain) - 20,
        Sum::of_words(words),
    );
    pool.free_chain(chain);
    Ok(sum)
}
