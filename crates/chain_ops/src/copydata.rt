//! Copying bytes out of a chain.
ghost use Rattle.std.specs.Prelude.{◌≡◌, ◌+◌, ◌≤◌, length, take, drop};
ghost use Rattle.mbuf_chain.specs.Chain.{IsLive, string_in};

use mbuf_chain::{Chain, Pool};

/// Copies bytes out of a chain, mbuf by mbuf: see `m_copydata`.
#[tactic(auto, using(mbuf_chain::proofs::Laws::Iterators::concat_pieces))]
fn copy_pieces(pool: &Pool, chain: &Chain, off: usize, to: &mut [u8])
    requires live { IsLive pool.now chain.now }
    requires within { off + length to.old ≤ length (string_in pool.now chain.now) }
    ensures { to.new ≡ take (length to.old) (drop off (string_in pool.now chain.now)) }
{
    let mut skip = off;
    let mut at = 0;
    'mbufs: for piece in pool.pieces(chain) {
        if at == to.len() {
            return;
        }
        if skip < piece.len() {
            let end = at + (piece.len() - skip).min(to.len() - at);
            to[at..end].copy_from_slice(&piece[skip..skip + (end - at)]);
            at = end;
            skip = 0;
        } else {
            skip -= piece.len();
        }
    }
}

/// Copies bytes out of a chain, from `off` on, until `to` is full. The range must be within the chain (TCP/IP
/// Illustrated, volume 2, chapter 2).
// If the first mbuf has the whole range, it's one piece, and no other mbuf is read.
#[inline(always)]
pub fn m_copydata(pool: &Pool, chain: &Chain, off: usize, to: &mut [u8])
    requires live { IsLive pool.now chain.now }
    requires within { off + length to.old ≤ length (string_in pool.now chain.now) }
    ensures { to.new ≡ take (length to.old) (drop off (string_in pool.now chain.now)) }
{
    let first = pool.bytes(chain, pool.first(chain));
    if off <= first.len() && to.len() <= first.len() - off {
        to.copy_from_slice(&first[off..off + to.len()]);
    } else {
        copy_pieces(pool, chain, off, to);
    }
}
