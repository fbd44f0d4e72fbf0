//! The memory that a chain takes.

ghost use Rattle.std.specs.Prelude.{◌≡◌, ◌+◌, ◌*◌, ◌≤◌};
ghost use Rattle.flat_model.specs.Sockets.Fits.{memory_of};
ghost use Rattle.mbuf_chain.specs.Chain.{IsLive};
ghost use Rattle.ledger.specs.Accounts.{weight_at};

use mbuf_chain::{Chain, Pool};
use params::{MAX_MBUFS, MCLBYTES, MSIZE};

/// Returns the memory that a chain takes, in bytes: 128 for each mbuf, and 2048 for each reference to a cluster.
pub fn memory_of(pool: &Pool, chain: &Chain) -> u32
    requires { IsLive pool.now chain.now }
    ensures value { result ≡ memory_of (weight_at pool.now chain.now) }
    ensures bound { result ≤ (MSIZE + MCLBYTES) * MAX_MBUFS }
{
    pool.laws();
    let mut mbufs = 0;
    let mut clusters = 0;
    'mbufs: for (_, cluster) in pool.layout(chain) {
        mbufs += 1;
        if cluster.is_some() {
            clusters += 1;
        }
    }
    MSIZE * mbufs + MCLBYTES * clusters
}
