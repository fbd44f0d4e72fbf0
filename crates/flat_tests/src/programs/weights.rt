//! The weights of packets and pieces, and how much of a pool they use.
use super::fragments::comes;
use super::{same, same_list};
use flat_model::Mbstat;
use flat_plain::{Entry, Fragment, Part, Weight, later_weight, pulled_up, usage, weight_of_pieces};
use std::alloc::AllocError;
use std::process::Abort;

/// The mbufs of the largest send, in clusters 10 to 14.
static ENTRIES: [Entry; 6] = [
    Entry {
        size: 28,
        cluster: None,
    },
    Entry {
        size: 1992,
        cluster: Some(10),
    },
    Entry {
        size: 2048,
        cluster: Some(11),
    },
    Entry {
        size: 2048,
        cluster: Some(12),
    },
    Entry {
        size: 2048,
        cluster: Some(13),
    },
    Entry {
        size: 1080,
        cluster: Some(14),
    },
];

/// Its later packets on a link of 1500: the mbufs of each, and the clusters to which they refer.
static LATER: [(u32, u32, u64, &[u32]); 6] = [
    (1480, 1480, 3, &[10, 11]),
    (2960, 1480, 3, &[11, 12]),
    (4440, 1480, 2, &[12]),
    (5920, 1480, 3, &[12, 13]),
    (7400, 1480, 3, &[13, 14]),
    (8880, 344, 2, &[14]),
];

/// The length of a fragment in cluster 7, with its header, and its weight after the pull-up: a fragment of 40 bytes
/// leaves its cluster, and one of 41 has one more mbuf.
static PULLED_UP: [(u32, u64, &[u32]); 2] = [(40, 1, &[]), (41, 2, &[7])];

/// A fragment's offset, its mbufs, its cluster and its bytes, and then the weight of all pieces. A piece that lost its
/// last byte weighs nothing.
static PIECES: [(u32, u32, u32, &[u8], u64, &[u32]); 3] = [
    (16, 2, 5, b"cccccccc", 2, &[5]),
    (24, 3, 6, b"dddddddd", 5, &[5, 6]),
    (8, 1, 7, b"aaaaaaaaaaaaaaaaaaaa", 4, &[7, 6]),
];

/// The clusters to which the packets of the largest send on a link of 1500 refer: 2, 3, 4, 3 and 3 times.
static BAG: [u32; 15] = [0, 0, 1, 1, 1, 2, 2, 2, 2, 3, 3, 3, 4, 4, 4];

/// Returns whether the weight is this many mbufs, with a reference to each of these clusters.
fn weighs(
    rt: &impl Abort,
    row: usize,
    weight: Result<Weight, AllocError>,
    mbufs: u64,
    bag: &[u32],
) {
    let weight = weight.expect(rt, "memory");
    same(rt, row, &weight.mbufs, &mbufs);
    same_list(rt, row, Ok(weight.bag), bag);
}

#[test]
fn of_later_packets(rt: HostRuntime) {
    for (row, (offset, size, mbufs, bag)) in LATER.iter().enumerate() {
        let part = Part {
            offset: *offset,
            size: *size,
            more: *offset < 8880,
        };
        let weight = later_weight(rt.alloc(), &ENTRIES, part);
        weighs(&rt, row, weight, *mbufs, bag);
    }
}

#[test]
fn of_what_was_pulled_up(rt: HostRuntime) {
    for (row, (total, mbufs, bag)) in PULLED_UP.iter().enumerate() {
        let weight = Weight {
            mbufs: 1,
            bag: vec![in rt.alloc(); 7u32; 1].expect(&rt, "memory"),
        };
        weighs(&rt, row, Ok(pulled_up(*total, weight)), *mbufs, bag);
    }
}

#[test]
fn of_pieces(rt: HostRuntime) {
    let mut cells = [None; 32];
    for (row, (offset, mbufs, cluster, bytes, weight, bag)) in PIECES.iter().enumerate() {
        let fragment = Fragment {
            offset: *offset,
            more: true,
            mbufs: *mbufs,
            clusters: [Some(*cluster), None, None, None, None],
        };
        comes(&rt, &mut cells, fragment, bytes, true);
        weighs(&rt, row, weight_of_pieces(rt.alloc(), &cells), *weight, bag);
    }
}

#[test]
fn usage_of_the_largest_send(rt: HostRuntime) {
    let held = Weight {
        mbufs: 22,
        bag: Vec::from_slice(rt.alloc(), &BAG).expect(&rt, "memory"),
    };
    assert!(rt; held.bag.len() <= 15);
    let shown = Mbstat {
        free_mbufs: 490,
        mbufs: 512,
        free_clusters: 59,
        clusters: 64,
        refs: 15,
        most: 4,
    };
    same(&rt, 0, &usage(512, 64, &held), &shown);
}
