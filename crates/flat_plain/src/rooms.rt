//! Into which buffers bytes are stored.
ghost use Rattle.std.specs.Prelude.{◌≡◌, ◌+◌, ◌*◌, ◌^◌, ◌<◌, ◌≤◌, ◌++◌, length, OnOk, IfOk, vec_len};
ghost use Rattle.flat_model.specs.Amounts.Layout.{filled, next_room, meets_from, size_of};
ghost use Rattle.flat_model.specs.Amounts.Layout as Layout;
ghost use Rattle.flat_plain.specs.Rooms.{plain_room, rooms_of};

use params::{
    CLUSTER_LEADING_SPACE, IP_UDP_HEADERS, MCLBYTES, MHLEN, MINCLSIZE, MLEN, UDP_MAX_DATA,
};
use std::alloc::{AllocError, Global};

/// An mbuf of a chain, by the number of bytes in it.
#[derive(Clone, Copy, Debug, PartialEq, Eq)]
pub enum Room {
    /// This many bytes in the mbuf's own data area.
    InMbuf(u32),
    /// This many bytes in the cluster to which it refers.
    InCluster(u32),
}

impl Room {
    /// Returns the number of bytes in it.
    pub fn size(self) -> u32
        ensures { result ≡ size_of (plain_room self) }
    {
        match self {
            Room::InMbuf(size) | Room::InCluster(size) => size,
        }
    }

    /// Returns whether it refers to a cluster.
    pub fn is_cluster(self) -> bool
        ensures { result ≡ Layout.is_cluster (plain_room self) }
    {
        match self {
            Room::InMbuf(_) => false,
            Room::InCluster(_) => true,
        }
    }
}

fn next(large: u32, small: u32, left: u32) -> Room
    ensures { plain_room result ≡ next_room large small left }
{
    if left < MINCLSIZE {
        Room::InMbuf(left.min(small))
    } else {
        Room::InCluster(left.min(large))
    }
}

/// Adds mbufs for the remaining bytes, at most `most` of them.
fn fill(
    rooms: &mut Vec<Room>,
    most: u32,
    large: u32,
    small: u32,
    left: u32,
) -> Result<(), AllocError>
    ensures rooms { OnOk result
        (rooms_of rooms.new.items ≡ rooms_of rooms.old.items ++ filled most large small left) }
    ensures len { OnOk result (vec_len rooms.new ≤ vec_len rooms.old + most) }
{
    if most == 0 || left == 0 {
        return Ok(());
    }
    let room = next(large, small, left);
    rooms.push(room)?;
    fill(rooms, most - 1, MCLBYTES, MLEN, left - room.size())?;
    Ok(())
}

/// Returns the mbufs for `n` bytes, at least one. The first one has the capacities given.
fn layout(alloc: Global, large: u32, small: u32, n: u32) -> Result<Vec<Room>, AllocError>
    ensures { IfOk result (λ v. rooms_of v.items ≡ Layout.or_empty (filled n large small n)) }
{
    let mut rooms = Vec::new(alloc);
    if n == 0 {
        rooms.push(Room::InMbuf(0))?;
        return Ok(rooms);
    }
    fill(&mut rooms, n, large, small, n)?;
    Ok(rooms)
}

/// Returns the layout of `n` bytes to send, without their headers. Returns `AllocError` if the host refuses memory for
/// the list.
pub fn user(alloc: Global, n: u32) -> Result<Vec<Room>, AllocError>
    ensures { IfOk result (λ v. rooms_of v.items ≡ Layout.user n) }
{
    layout(alloc, MCLBYTES - CLUSTER_LEADING_SPACE, MHLEN, n)
}

/// Returns the layout of `n` bytes to send, at most 65,507, after the 28 bytes of their headers. Returns `AllocError`
/// if the host refuses memory for the list.
pub fn sent(alloc: Global, n: u32) -> Result<Vec<Room>, AllocError>
    requires { n ≤ UDP_MAX_DATA }
    ensures rooms { IfOk result (λ v. rooms_of v.items ≡ Layout.sent n) }
    ensures len { IfOk result (λ v. vec_len v ≤ n + 1) }
{
    let mut rooms = Vec::new(alloc);
    if n <= MHLEN - IP_UDP_HEADERS {
        rooms.push(Room::InMbuf(IP_UDP_HEADERS + n))?;
        return Ok(rooms);
    }
    rooms.push(Room::InMbuf(IP_UDP_HEADERS))?;
    fill(&mut rooms, n, MCLBYTES - CLUSTER_LEADING_SPACE, MHLEN, n)?;
    Ok(rooms)
}

/// Returns the layout of a packet of `n` bytes that arrives. Returns `AllocError` if the host refuses memory for the
/// list.
pub fn wire(alloc: Global, n: u32) -> Result<Vec<Room>, AllocError>
    ensures { IfOk result (λ v. rooms_of v.items ≡ Layout.wire n) }
{
    layout(alloc, MCLBYTES, MHLEN, n)
}

/// Returns how many of these mbufs share a byte with the range from `a` up to `b`, if the first one begins at `at`.
fn meets_from(rooms: &[Room], at: u64, a: u64, b: u64) -> u64
    requires short { at + 2 ^ 32 * length rooms.now < 2 ^ 63 }
    ensures number { result ≡ length (Layout.meets_from size_of at (rooms_of rooms.now) a b) }
    ensures most { result ≤ length rooms.now }
{
    match rooms {
        [] => 0,
        [room, rest @ ..] => {
            let after = at + room.size() as u64;
            let later = meets_from(rest, after, a, b);
            if at.max(a) < after.min(b) {
                later + 1
            } else {
                later
            }
        }
    }
}

/// Returns how many mbufs of a layout share a byte with the range from `a` up to `b`. The layout has at most 65,536
/// mbufs.
pub fn meets(rooms: &[Room], a: u64, b: u64) -> u64
    requires { length rooms.now ≤ 65536 }
    ensures number { result ≡ length (Layout.meets (rooms_of rooms.now) a b) }
    ensures most { result ≤ length rooms.now }
{
    meets_from(rooms, 0, a, b)
}
