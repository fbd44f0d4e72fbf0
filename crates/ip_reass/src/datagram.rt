//! An unfinished datagram.
ghost use Rattle.std.specs.Prelude.{[]};
ghost use Rattle.mbuf_chain.specs.Owners.{IsOwned, Moves};
ghost use Rattle.mbuf_chain.specs.Train.{IsHeld};
ghost use Rattle.ip_reass.specs.Table.{held};

use flat_model::FragmentKey;
use mbuf_chain::{Chain, Pool, Train};

/// An unfinished datagram. Its fragments are in order of offset and don't overlap.
pub struct Datagram {
    /// The four fields that identify its fragments.
    pub key: FragmentKey,
    /// The mbuf of the key.
    pub holder: Chain,
    /// Its fragments: a chain's tag is its offset times 2, plus 1 if more fragments follow.
    pub fragments: Train,
    /// The number of their bytes, at most 65,515: none is missing exactly if the last fragment ends at this
    /// number.
    // of 16 bits, next to the ticks, so that a row has 32 bytes
    pub bytes: u16,
    /// The number of ticks that it has left.
    pub ticks: u8,
}

/// Frees a datagram's fragments and its key's mbuf.
pub(crate) fn free_datagram(pool: &mut Pool, datagram: Datagram)
    requires owned { IsOwned pool.old (held pool.old datagram) }
    requires held { IsHeld pool.old datagram.fragments }
    ensures { Moves pool.old (held pool.old datagram) pool.new [] }
{
    let Datagram {
        key: _,
        holder,
        ticks: _,
        fragments,
        bytes: _,
    } = datagram;
    pool.free_chain(holder);
    fragments.free(pool);
}
