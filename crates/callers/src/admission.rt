//! A buffer, for which unfinished datagrams are freed if the pool is empty.

use flat_model::{Counters, Why};
use ledger::{Waiting, reserve};
use mbuf_chain::{Chain, Pool};

/// Makes a chain of one mbuf. If no mbuf is free, all unfinished datagrams are freed first; if none is free even then,
/// that is counted.
pub fn admitted<R: Waiting>(
    pool: &mut Pool,
    waiting: &mut R,
    counters: &mut Counters,
) -> Option<Chain>
    requires { R.is_ready pool.old waiting.old }
{
    if !reserve(pool, waiting, counters, 1, 0) {
        counters.count_ended(Why::NoBufs);
        return None;
    }
    pool.new_chain().ok() // this can't fail: an mbuf is free
}
