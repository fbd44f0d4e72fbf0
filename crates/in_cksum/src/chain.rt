//! The checksum of bytes in a chain.
ghost use Rattle.std.specs.Prelude.{◌≡◌, ℕ, ◌+◌, ◌≤◌, ◌++◌, List, length, take, drop};
ghost use Rattle.flat_model.specs.Packets.Checksum.{checksum};
ghost use Rattle.mbuf_chain.specs.Chain.{IsLive, chain_of, string};
ghost use Rattle.in_cksum.specs.Inside.{HasBytes, IsChecksum};
ghost use Rattle.in_cksum.specs.Partial.{sum_of};

use crate::Sum;
use mbuf_chain::{Chain, Pool};
use params::tries_one_buffer;

/// Computes the checksum of the bytes added to `start`, followed by `len` bytes of a chain from offset `off`. The
/// result is to be written big-endian.
///
/// The result doesn't depend on how the chain is cut, and empty mbufs don't contribute. No byte is copied. The call
/// takes one step per mbuf up to the last byte, and none after it (`in_cksum` of TCP/IP Illustrated volume 2, chapter
/// 8; RFC 1071).
// Inlined for the case that all bytes are in the first mbuf, as those of a short datagram are.
#[inline(always)]
pub fn cksum_chain(pool: &Pool, chain: &Chain, off: u32, len: u32, mut start: Sum) -> u16
    requires live { IsLive pool.now chain.now }
    requires within { off + len ≤ length (string (chain_of pool.now chain.now)) }
    ensures { (before : List ℕ) → start ≡ sum_of before
        → result ≡ checksum (before ++ take len (drop off (string (chain_of pool.now chain.now)))) }
{
    if !tries_one_buffer() {
        return cksum_pieces(pool, chain, off, len, start);
    }
    let (from, to) = (off as usize, off as usize + len as usize);
    let first = pool.bytes(chain, pool.first(chain));
    if to > first.len() {
        return cksum_pieces(pool, chain, off, len, start);
    }
    start.add(&first[from..to]);
    start.finish()
}

/// Does the same, wherever the bytes are.
#[tactic(auto, using(mbuf_chain::proofs::Laws::Iterators::concat_pieces))]
fn cksum_pieces(pool: &Pool, chain: &Chain, off: u32, len: u32, start: Sum) -> u16
    requires { HasBytes pool.now chain.now off len }
    ensures { IsChecksum pool.now chain.now off len start result }
{
    let mut sum = start;
    let mut skip = off as usize;
    let mut left = len as usize;
    'mbufs: for piece in pool.pieces(chain) {
        if left == 0 {
            return sum.finish();
        }
        if skip < piece.len() {
            let count = left.min(piece.len() - skip);
            sum.add(&piece[skip..skip + count]);
            left -= count;
            skip = 0;
        } else {
            skip -= piece.len();
        }
    }
    sum.finish()
}
