//! Fragments that overlap.
use super::same;
use flat_plain::{Cell, Fragment, is_covered, overlay, whole};
use std::process::Abort;

/// A fragment for a table, or an observation of the table.
enum Step {
    /// Lays a fragment over the table: its offset, its bytes, and whether more fragments follow. It isn't covered.
    Insert(u32, &'static [u8], bool),
    /// Whether these bytes at this offset are covered.
    Covers(u32, &'static [u8], bool),
    /// The bytes, with a dot for an offset without a byte.
    Shows(&'static [u8]),
    /// The length of the datagram if the table contains all of it.
    Whole(Option<usize>),
    /// The rest of a piece is at this offset.
    Left(usize),
}

use Step::{Covers, Insert, Left, Shows, Whole};

/// A piece whose front was taken.
const LEFT: Cell = Cell {
    byte: b'c',
    first: 16,
    more: true,
    mbufs: 1,
    clusters: [None; 5],
};

/// The number of cells in a table, and the steps.
static TABLES: [(usize, &[Step]); 5] = [
    // Each fragment replaces those that begin after it: first c, then d before it, then e.
    (
        32,
        &[
            Insert(16, b"cccccccccccccccc", false),
            Insert(8, b"dddddddddddddddd", true),
            Shows(b"........ddddddddddddddddcccccccc"),
            Whole(None),
            Insert(0, b"eeeeeeeeeeeeeeee", true),
            Shows(b"eeeeeeeeeeeeeeeeddddddddcccccccc"),
            Whole(Some(32)),
        ],
    ),
    // An older piece keeps the bytes from its own first offset on.
    (
        24,
        &[
            Insert(0, b"aaaaaaaaaaaaaaaa", true),
            Covers(8, b"cccccccc", true),
            Covers(0, b"aaaaaaaaaaaaaaaa", true),
            Covers(8, b"ccccccccc", false),
            Whole(None),
            Insert(8, b"bbbbbbbbbbbbbbbb", false),
            Shows(b"aaaaaaaaaaaaaaaabbbbbbbb"),
            Whole(Some(24)),
        ],
    ),
    // A fragment that begins before several others covers them, and takes the front of the last.
    (
        24,
        &[
            Insert(4, b"aa", true),
            Insert(8, b"bbb", true),
            Insert(12, b"cccccccc", true),
            Insert(2, b"xxxxxxxxxxxxxx", true),
            Shows(b"..xxxxxxxxxxxxxxcccc...."),
            Left(16),
        ],
    ),
    // A last piece with more after it doesn't complete a datagram, and neither does one with bytes after it.
    (8, &[Whole(None)]),
    (
        24,
        &[
            Insert(0, b"aaaaaaaa", true),
            Whole(None),
            Insert(16, b"cccccccc", true),
            Insert(8, b"bbbbbbbb", false),
            Whole(None),
        ],
    ),
];

/// Returns whether a fragment is covered, and lays it over the table if `insert` is true.
pub(super) fn comes(
    rt: &impl Abort,
    cells: &mut [Option<Cell>],
    fragment: Fragment,
    bytes: &[u8],
    insert: bool,
) -> bool {
    assert!(rt; cells.len() <= 32 && fragment.offset as usize + bytes.len() <= cells.len());
    let covered = is_covered(cells, fragment, bytes);
    if insert {
        overlay(cells, fragment, bytes);
    }
    covered
}

fn shows(cells: &[Option<Cell>], wanted: &[u8]) -> bool {
    if cells.len() != wanted.len() {
        return false;
    }
    for i in 0..cells.len() {
        let shown = match cells[i] {
            None => b'.',
            Some(cell) => cell.byte,
        };
        if shown != wanted[i] {
            return false;
        }
    }
    true
}

fn fragment(offset: u32, more: bool) -> Fragment {
    Fragment {
        offset,
        more,
        mbufs: 1,
        clusters: [None; 5],
    }
}

/// Returns the first step with another result, for an empty table.
fn first_wrong(rt: &impl Abort, len: usize, steps: &[Step]) -> Option<usize> {
    let mut cells = [None; 32];
    assert!(rt; len <= 32);
    let cells = &mut cells[..len];
    for (i, step) in steps.iter().enumerate() {
        let right = match step {
            Insert(offset, bytes, more) => {
                !comes(rt, cells, fragment(*offset, *more), bytes, true)
            }
            Covers(offset, bytes, wanted) => {
                comes(rt, cells, fragment(*offset, true), bytes, false) == *wanted
            }
            Shows(bytes) => shows(cells, bytes),
            Whole(len) => whole(cells) == *len,
            Left(at) => *at < len && cells[*at] == Some(LEFT),
        };
        if !right {
            return Some(i);
        }
    }
    None
}

#[test]
fn overlays(rt: HostRuntime) {
    for (row, (len, steps)) in TABLES.iter().enumerate() {
        same(&rt, row, &first_wrong(&rt, *len, steps), &None);
    }
}
