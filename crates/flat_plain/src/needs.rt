//! How many buffers a send needs.
ghost use Rattle.std.specs.Prelude.{◌≡◌, ◌+◌, ◌*◌, ◌≤◌, length, map, sum_by, count_by, IfOk};
ghost use Rattle.flat_model.specs.Amounts.Layout as Layout;
ghost use Rattle.flat_plain.specs.Rooms.{rooms_of};
ghost use Rattle.flat_plain.specs.Parts.{part_of};
ghost use Rattle.flat_plain.specs.Needs.{plain_need};

use crate::parts::{Part, cuts};
use crate::rooms::{Room, meets, sent};
use params::{FRAGMENT_UNIT, IP_HEADER, IP_MAX_PACKET, UDP_HEADER, UDP_MAX_DATA};
use std::alloc::{AllocError, Global};

/// A number of free buffers.
#[derive(Clone, Copy, Debug, PartialEq, Eq)]
pub struct Buffers {
    /// The number of mbufs.
    pub mbufs: u64,
    /// The number of clusters.
    pub clusters: u64,
}

/// Returns how many of the mbufs refer to a cluster.
fn clusters_of(rooms: &[Room]) -> u64
    ensures number { result ≡ count_by Layout.is_cluster (rooms_of rooms.now) }
    ensures most { result ≤ length rooms.now }
{
    match rooms {
        [] => 0,
        [room, rest @ ..] => {
            let later = clusters_of(rest);
            if room.is_cluster() { later + 1 } else { later }
        }
    }
}

/// Returns how many mbufs these later fragments take, of a send with this layout.
fn later_mbufs(rooms: &[Room], parts: &[Part]) -> u64
    requires rooms { length rooms.now ≤ 65536 }
    requires parts { length parts.now ≤ 65536 }
    ensures number { result ≡ sum_by (Layout.need_of_part (rooms_of rooms.now)) (map part_of parts.now) }
    ensures most { result ≤ 131072 * length parts.now }
{
    match parts {
        [] => 0,
        [part, rest @ ..] => {
            let from = IP_HEADER as u64 + part.offset as u64;
            let here = 1 + meets(rooms, from, from + part.size as u64);
            here + later_mbufs(rooms, rest)
        }
    }
}

/// Returns what a send of `n` bytes takes on a link with this MTU. Returns `AllocError` if the host refuses memory for
/// its layout.
pub fn need(alloc: Global, n: u32, mtu: u32) -> Result<Buffers, AllocError>
    requires short { n ≤ UDP_MAX_DATA }
    requires least { IP_HEADER + FRAGMENT_UNIT ≤ mtu }
    requires greatest { mtu ≤ IP_MAX_PACKET }
    ensures { IfOk result (λ r. plain_need r ≡ Layout.need n mtu) }
{
    let rooms = sent(alloc, n)?;
    let parts = cuts(alloc, UDP_HEADER + n, mtu)?;
    let later = match parts.as_slice() {
        [] => 0,
        [_, later @ ..] => later_mbufs(&rooms, later),
    };
    Ok(Buffers {
        mbufs: rooms.len() as u64 + later,
        clusters: clusters_of(&rooms),
    })
}

/// Returns what a send of `n` bytes to the broadcast address takes. Returns `AllocError` if the host refuses memory for
/// its layout.
pub fn need_bcast(alloc: Global, n: u32) -> Result<Buffers, AllocError>
    requires { n ≤ UDP_MAX_DATA }
    ensures { IfOk result (λ r. plain_need r ≡ Layout.need_bcast n) }
{
    let rooms = sent(alloc, n)?;
    Ok(Buffers {
        mbufs: 2 * rooms.len() as u64,
        clusters: clusters_of(&rooms),
    })
}
