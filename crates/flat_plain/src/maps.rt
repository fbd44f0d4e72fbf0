//! The bytes of an unfinished datagram, as a table with one cell for each offset.
ghost use Rattle.std.specs.Prelude.{◌≡◌, ℕ, ◌+◌, ◌<◌, ◌≤◌, ◌&&◌, nat_lt, length, count_by, true, false, None, IsSome, IfSome, IfNone};
ghost use Rattle.std.specs.List.{range_with_len};
ghost use Rattle.flat_model.specs.Fragments.Overlay as Overlay;
ghost use Rattle.flat_model.specs.Fragments.Whole.{IsWhole};
ghost use Rattle.flat_plain.specs.Tables.{plain_map, held_of, plain_fragment, more_of};

/// The byte at an offset, and the piece that brought it.
#[derive(Clone, Copy, Debug, PartialEq, Eq)]
pub struct Cell {
    /// The byte.
    pub byte: u8,
    /// The least offset that the piece owns.
    pub first: u32,
    /// Whether more pieces follow this one.
    pub more: bool,
    /// The number of mbufs in the piece.
    pub mbufs: u32,
    /// The clusters to which they refer.
    pub clusters: [Option<u32>; 5],
}

/// Returns whether the byte there stays when a fragment at this offset arrives.
fn stays(offset: u32, cell: Option<Cell>) -> bool
    ensures { result ≡ Overlay.stays offset (held_of cell) }
{
    match cell {
        None => false,
        Some(cell) => cell.first <= offset,
    }
}

/// Returns at how many of `n` offsets, from `at`, the byte there stays.
fn staying(cells: &[Option<Cell>], offset: u32, at: u32, n: u32) -> u32
    requires inside { at + n ≤ length cells.now }
    requires small { length cells.now ≤ 65536 }
    ensures number { result ≡
        count_by (λ k. Overlay.stays offset (plain_map cells.now k)) (range_with_len at n) }
    ensures most { result ≤ n }
{
    if n == 0 {
        return 0;
    }
    let later = staying(cells, offset, at + 1, n - 1);
    if stays(offset, cells[at as usize]) {
        later + 1
    } else {
        later
    }
}

/// A fragment's offset, whether more fragments follow it, and its weight.
#[derive(Clone, Copy, Debug, PartialEq, Eq)]
pub struct Fragment {
    /// Its offset in the datagram, in bytes.
    pub offset: u32,
    /// Whether more fragments follow it.
    pub more: bool,
    /// The number of its mbufs.
    pub mbufs: u32,
    /// The clusters to which its mbufs refer.
    pub clusters: [Option<u32>; 5],
}

/// Returns whether the offset is one of the fragment's.
fn is_within(fragment: Fragment, bytes: &[u8], k: u32) -> bool
    requires small { length bytes.now ≤ 65536 }
    requires offset { fragment.offset ≤ 65536 }
    ensures { result ≡ Overlay.is_within
        (plain_fragment fragment bytes.now) k }
{
    fragment.offset <= k && k < fragment.offset + bytes.len() as u32
}

/// Returns whether a piece begins between these two offsets.
fn begins_between(first: u32, offset: u32, after: u32) -> bool
    ensures { result ≡ (nat_lt offset first && nat_lt first after) }
{
    offset < first && first < after
}

/// Returns the cell at an offset after the fragment is inserted into the table.
fn overlaid(old: Option<Cell>, k: u32, fragment: Fragment, first: u32, bytes: &[u8]) -> Option<Cell>
    requires small { length bytes.now ≤ 65536 }
    requires offset { fragment.offset ≤ 65536 }
    ensures { (map : Overlay.Map) → map k ≡ held_of old →
        Overlay.first_owned map (plain_fragment fragment bytes.now) ≡ first →
        held_of result
        ≡ Overlay.overlay map (plain_fragment fragment bytes.now) k }
{
    let after = fragment.offset + bytes.len() as u32;
    let within = is_within(fragment, bytes, k);
    let clusters = fragment.clusters;
    match old {
        None => {
            if within {
                let byte = bytes[(k - fragment.offset) as usize];
                return Some(Cell {
                    byte,
                    first,
                    more: fragment.more,
                    mbufs: fragment.mbufs,
                    clusters,
                });
            }
            None
        }
        Some(cell) => {
            if within {
                if cell.first <= fragment.offset {
                    return Some(cell);
                }
                let byte = bytes[(k - fragment.offset) as usize];
                return Some(Cell {
                    byte,
                    first,
                    more: fragment.more,
                    mbufs: fragment.mbufs,
                    clusters,
                });
            }
            if begins_between(cell.first, fragment.offset, after) {
                let clusters = cell.clusters;
                return Some(Cell {
                    byte: cell.byte,
                    first: after,
                    more: cell.more,
                    mbufs: cell.mbufs,
                    clusters,
                });
            }
            Some(cell)
        }
    }
}

/// Returns whether pieces that begin no later hold every byte of a fragment already. The table is long enough for the
/// fragment.
pub fn is_covered(cells: &[Option<Cell>], fragment: Fragment, bytes: &[u8]) -> bool
    requires small { length cells.now ≤ 65536 }
    requires inside { fragment.offset + length bytes.now ≤ length cells.now }
    ensures { result
        ≡ Overlay.is_covered (plain_map cells.now) (plain_fragment fragment bytes.now) }
{
    first_owned(cells, fragment, bytes) >= fragment.offset + bytes.len() as u32
}

/// Returns the least offset that the fragment's piece will own.
fn first_owned(cells: &[Option<Cell>], fragment: Fragment, bytes: &[u8]) -> u32
    requires small { length cells.now ≤ 65536 }
    requires inside { fragment.offset + length bytes.now ≤ length cells.now }
    ensures { result
        ≡ Overlay.first_owned (plain_map cells.now) (plain_fragment fragment bytes.now) }
{
    fragment.offset + staying(cells, fragment.offset, fragment.offset, bytes.len() as u32)
}

/// Lays a fragment over the table, which is long enough for it and has at most 65,536 cells.
pub fn overlay(cells: &mut [Option<Cell>], fragment: Fragment, bytes: &[u8])
    requires small { length cells.old ≤ 65536 }
    requires inside { fragment.offset + length bytes.now ≤ length cells.old }
    ensures { (k : ℕ) → plain_map cells.new k ≡
        Overlay.overlay (plain_map cells.old) (plain_fragment fragment bytes.now) k }
{
    let first = first_owned(cells, fragment, bytes);
    for k in 0..cells.len() {
        cells[k] = overlaid(cells[k], k as u32, fragment, first, bytes);
    }
}

/// Returns how many cells from the front have a byte, without a gap.
fn front_len(cells: &[Option<Cell>]) -> usize
    ensures within { result ≤ length cells.now }
    ensures filled { (k : ℕ) → k < result → IsSome (plain_map cells.now k) }
    ensures gap { plain_map cells.now result ≡ None }
{
    for k in 0..cells.len() {
        if cells[k].is_none() {
            return k;
        }
    }
    cells.len()
}

/// Returns whether no cell from index `n` on has a byte.
fn is_empty_from(cells: &[Option<Cell>], n: usize) -> bool
    requires { n ≤ length cells.now }
    ensures yes { result ≡ true → (k : ℕ) → n ≤ k → plain_map cells.now k ≡ None }
    ensures no { result ≡ false → (k : ℕ) × (n ≤ k) × IsSome (plain_map cells.now k) }
{
    for k in n..cells.len() {
        if cells[k].is_some() {
            return false;
        }
    }
    true
}

/// Returns whether more pieces follow the one in the cell.
fn has_more(cell: Option<Cell>) -> bool
    ensures { result ≡ more_of (held_of cell) }
{
    match cell {
        None => false,
        Some(cell) => cell.more,
    }
}

/// Returns the length of the datagram if the table contains all of it.
pub fn whole(cells: &[Option<Cell>]) -> Option<usize>
    ensures some { IfSome result (λ n. IsWhole (plain_map cells.now) n) }
    ensures none { IfNone result ((n : ℕ) → ¬ IsWhole (plain_map cells.now) n) }
{
    let n = front_len(cells);
    if n == 0 {
        return None;
    }
    if !is_empty_from(cells, n) {
        return None;
    }
    if has_more(cells[n - 1]) {
        return None;
    }
    Some(n)
}
