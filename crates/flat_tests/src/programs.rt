//! The definitions compared with values from outside: from RFCs, or worked out by hand. Most tests loop over a table. A
//! test that fails reports the row, counted from 0.

mod fragments;
mod headers;
mod layouts;
mod sockets;
mod weights;

use std::alloc::AllocError;
use std::fmt::Debug;
use std::process::Abort;

/// Asserts that the result for a row is the expected one.
fn same<T: PartialEq + Debug>(rt: &impl Abort, row: usize, got: &T, wanted: &T) {
    if got != wanted {
        panic!(rt; "row {row}: {got:?}");
    }
}

/// Does the same for a list.
fn same_list<T: PartialEq + Drop>(
    rt: &impl Abort,
    row: usize,
    got: Result<Vec<T>, AllocError>,
    wanted: &[T],
) {
    let got = got.expect(rt, "memory");
    assert!(rt; got.as_slice() == wanted, "row {row}");
}
