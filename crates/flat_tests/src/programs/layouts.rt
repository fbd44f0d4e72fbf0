//! Into which buffers bytes are stored, how many buffers a packet takes, and how a datagram is fragmented.
use super::{same, same_list};
use flat_plain::Room::{InCluster, InMbuf};
use flat_plain::{Buffers, Part, Room, cuts, meets, need, need_bcast, sent, user, wire};

/// A number of bytes, and three layouts: of these bytes to send, without their headers; with their headers; and of a
/// packet of this length that arrives. Few bytes to send fill plain mbufs of 100 and 108 bytes, and the headers share
/// an mbuf with at most 72 of them. From 208 bytes clusters are used, the first of which holds 1992 bytes. All clusters
/// of a packet that arrives are full, except the last one.
static LAYOUTS: [(u32, &[Room], &[Room], &[Room]); 12] = [
    (0, &[InMbuf(0)], &[InMbuf(28)], &[InMbuf(0)]),
    (1, &[InMbuf(1)], &[InMbuf(29)], &[InMbuf(1)]),
    (72, &[InMbuf(72)], &[InMbuf(100)], &[InMbuf(72)]),
    (73, &[InMbuf(73)], &[InMbuf(28), InMbuf(73)], &[InMbuf(73)]),
    (
        100,
        &[InMbuf(100)],
        &[InMbuf(28), InMbuf(100)],
        &[InMbuf(100)],
    ),
    (
        101,
        &[InMbuf(100), InMbuf(1)],
        &[InMbuf(28), InMbuf(100), InMbuf(1)],
        &[InMbuf(100), InMbuf(1)],
    ),
    (
        207,
        &[InMbuf(100), InMbuf(107)],
        &[InMbuf(28), InMbuf(100), InMbuf(107)],
        &[InMbuf(100), InMbuf(107)],
    ),
    (
        208,
        &[InCluster(208)],
        &[InMbuf(28), InCluster(208)],
        &[InCluster(208)],
    ),
    (
        1992,
        &[InCluster(1992)],
        &[InMbuf(28), InCluster(1992)],
        &[InCluster(1992)],
    ),
    (
        1993,
        &[InCluster(1992), InMbuf(1)],
        &[InMbuf(28), InCluster(1992), InMbuf(1)],
        &[InCluster(1993)],
    ),
    (
        2048,
        &[InCluster(1992), InMbuf(56)],
        &[InMbuf(28), InCluster(1992), InMbuf(56)],
        &[InCluster(2048)],
    ),
    (
        9216,
        &[
            InCluster(1992),
            InCluster(2048),
            InCluster(2048),
            InCluster(2048),
            InCluster(1080),
        ],
        &[
            InMbuf(28),
            InCluster(1992),
            InCluster(2048),
            InCluster(2048),
            InCluster(2048),
            InCluster(1080),
        ],
        &[
            InCluster(2048),
            InCluster(2048),
            InCluster(2048),
            InCluster(2048),
            InCluster(1024),
        ],
    ),
];

static ROOMS: [Room; 4] = [InMbuf(28), InCluster(1992), InMbuf(0), InCluster(1008)];

/// A range of these, from its first byte up to the one after it, and how many mbufs share a byte with it.
static MET: [(u64, u64, u64); 6] = [
    (0, 28, 1),
    (27, 29, 2),
    (1532, 3028, 2),
    (0, 3028, 3),
    (2020, 2020, 0),
    (3028, 4000, 0),
];

/// A number of bytes to send, the MTU of the link or `None` for the broadcast address, and the mbufs and clusters that
/// they take.
static NEEDS: [(u32, Option<u32>, u64, u64); 6] = [
    (0, Some(1500), 1, 0),
    (3000, Some(1536), 6, 2),
    (9216, Some(1500), 22, 5),
    (9216, Some(68), 393, 5),
    // The packet and its copy: an mbuf with the headers and one that refers to the cluster, twice.
    (300, None, 4, 1),
    (72, None, 2, 0),
];

/// A number of bytes after the IP header, the MTU of the link, the number of parts, and the offsets of the first parts.
static CUTS: [(u32, u32, usize, &[u32]); 21] = [
    (8, 1500, 1, &[0]),
    (48, 68, 1, &[0]),
    (49, 68, 2, &[0, 48]),
    (96, 68, 2, &[0, 48]),
    (97, 68, 3, &[0, 48, 96]),
    (556, 576, 1, &[0]),
    (557, 576, 2, &[0, 552]),
    (1104, 576, 2, &[0, 552]),
    (1105, 576, 3, &[0, 552, 1104]),
    (1480, 1500, 1, &[0]),
    (1481, 1500, 2, &[0, 1480]),
    (2960, 1500, 2, &[0, 1480]),
    (2961, 1500, 3, &[0, 1480, 2960]),
    (9224, 1500, 7, &[0, 1480, 2960, 4440, 5920, 7400, 8880]),
    (1516, 1536, 1, &[0]),
    (1517, 1536, 2, &[0, 1512]),
    (3008, 1536, 2, &[0, 1512]),
    (4332, 4352, 1, &[0]),
    (4333, 4352, 2, &[0, 4328]),
    (9224, 4352, 3, &[0, 4328, 8656]),
    (9224, 68, 193, &[0, 48, 96]),
];

#[test]
fn layouts(rt: HostRuntime) {
    for (row, (n, plain, with_headers, arrived)) in LAYOUTS.iter().enumerate() {
        assert!(rt; *n <= 9216);
        same_list(&rt, row, user(rt.alloc(), *n), plain);
        same_list(&rt, row, sent(rt.alloc(), *n), with_headers);
        same_list(&rt, row, wire(rt.alloc(), *n), arrived);
    }
}

#[test]
fn mbufs_met(rt: HostRuntime) {
    for (row, (a, b, count)) in MET.iter().enumerate() {
        same(&rt, row, &meets(&ROOMS, *a, *b), count);
    }
}

#[test]
fn buffers_of_sends(rt: HostRuntime) {
    for (row, (n, link, mbufs, clusters)) in NEEDS.iter().enumerate() {
        assert!(rt; *n <= 9216);
        let needed = match *link {
            None => need_bcast(rt.alloc(), *n),
            Some(mtu) => {
                assert!(rt; 68 <= mtu && mtu <= 1536);
                need(rt.alloc(), *n, mtu)
            }
        };
        let buffers = Buffers {
            mbufs: *mbufs,
            clusters: *clusters,
        };
        same(&rt, row, &needed, &Ok(buffers));
    }
}

/// Returns whether there are `count` parts, each begins at the end of the one before it, the first ones are at these
/// offsets, and only the last one has no part after it.
fn begin_at(parts: &[Part], count: usize, offsets: &[u32], n: u32) -> bool {
    if parts.len() != count || count < offsets.len() {
        return false;
    }
    let mut at = 0u32;
    for i in 0..count {
        let Part { offset, size, more } = parts[i];
        let after = at.saturating_add(size);
        if offset != at || more != (after < n) || i < offsets.len() && offset != offsets[i] {
            return false;
        }
        at = after;
    }
    at == n
}

#[test]
fn offsets_of_cuts(rt: HostRuntime) {
    for (row, (n, mtu, count, offsets)) in CUTS.iter().enumerate() {
        assert!(rt; *n <= 9224 && 68 <= *mtu && *mtu <= 4352);
        let parts = cuts(rt.alloc(), *n, *mtu).expect(&rt, "memory");
        same(&rt, row, &begin_at(&parts, *count, offsets, *n), &true);
    }
}
