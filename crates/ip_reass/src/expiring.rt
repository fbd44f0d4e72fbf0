//! The datagrams that a tick drops.
ghost use Rattle.std.specs.Prelude.{◌≡◌, ◌+◌, ◌<◌, ◌^◌, [], ◌∷◌, ◌++◌, is_some, length, take, drop};
ghost use Rattle.ip_reass.specs.Expiring.{IsListed, expired_among};
ghost use Rattle.ip_reass.specs.Fragments.{IsQueue, fragments, map_of};
ghost use Rattle.ip_reass.specs.Table.{IsTable, IsUnfinished, unfinished, unfinished_of};

use crate::datagram::Datagram;
use crate::questions::range_at;
use crate::table::Reass;
use flat_model::FragmentKey;
use mbuf_chain::{Pool, Train};

/// A datagram that was dropped because its time was over before all of its fragments had arrived.
#[derive(Clone, Copy, Debug, PartialEq, Eq)]
pub struct Expired {
    /// The four fields that identify its fragments.
    pub key: FragmentKey,
    /// Whether its first byte had arrived. A host reports only such a datagram to its source (RFC 792, Time Exceeded).
    pub has_first: bool,
}

/// Returns whether the first byte of a datagram has arrived.
fn has_first(pool: &Pool, train: &Train) -> bool
    requires { IsQueue pool.now train.now }
    ensures { result ≡ is_some (map_of (fragments pool.now train.now) 0) }
{
    match range_at(pool, train, 0) {
        Some(range) => range.offset == 0,
        None => false,
    }
}

/// Adds a datagram to those in `list`, of which there are `count`, if the next tick drops it and a place is left.
/// Returns the new count.
fn list_expiring(pool: &Pool, datagram: &Datagram, count: usize, list: &mut [Expired]) -> usize
    requires pieces { IsUnfinished pool.now datagram.now }
    requires few { count + 1 < 2 ^ 64 }
    ensures { IsListed list.old count (expired_among (unfinished_of pool.now datagram.now ∷ [])) list.new result }
{
    if datagram.ticks > 1 {
        return count;
    }
    if count >= list.len() {
        return count + 1;
    }
    list[count] = Expired {
        key: datagram.key,
        has_first: has_first(pool, &datagram.fragments),
    };
    count + 1
}

/// Puts the datagrams that the next tick drops into `list`. Returns their number.
fn list_all_expiring(pool: &Pool, table: &[Datagram], list: &mut [Expired]) -> usize
    requires { IsTable pool.now table.now }
    ensures { IsListed list.old 0 (expired_among (unfinished pool.now table.now)) list.new result }
{
    let mut count = 0;
    'table: for i in 0..table.len() {
        count = list_expiring(pool, &table[i], count, list);
    }
    count
}

impl Reass {
    /// Puts the datagrams that the next tick drops into `list`, oldest first, until `list` is full, and returns the
    /// number of these datagrams. The other places of `list` are unchanged.
    pub fn expiring(&self, pool: &Pool, list: &mut [Expired]) -> usize
        requires { IsTable pool.now self.now.datagrams }
        ensures number { result ≡ length (expired_among (unfinished pool.now self.now.datagrams)) }
        ensures listed { take result list.new
            ≡ take (length list.new) (expired_among (unfinished pool.now self.now.datagrams)) }
        ensures rest { drop result list.new ≡ drop result list.old }
    {
        list_all_expiring(pool, self.datagrams.as_slice(), list)
    }
}
