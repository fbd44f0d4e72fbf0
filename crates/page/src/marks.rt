//! The marks of a hand-in.
ghost use Rattle.page.specs.Marked.{Marked, marks_struct};
ghost use Rattle.std.specs.Prelude.{◌≡◌};

use crate::handed::number_of;
use link_script::RunFault;
use play_grade::{Marker, Marks};
use std::alloc::Global;

/// The marks of a hand-in, compared with a key: `struct page_marks`, of 32 bytes.
#[repr(C)]
#[derive(Clone, Copy)]
pub struct PageMarks {
    /// The number of replies that equal the key's.
    pub right: u64,
    /// The number of answers that differ.
    pub wrong: u64,
    /// The number of answers that are missing or empty.
    pub missing: u64,
    /// The line of the key whose answer is the first that isn't right, counted from 1; 0 if all are right.
    pub first: u64,
}

/// Converts marks to the struct of the page.
fn to_struct(marks: Marks) -> PageMarks
    ensures { result ≡ marks_struct marks }
{
    PageMarks {
        right: marks.right,
        wrong: marks.wrong,
        missing: marks.missing,
        first: marks.first.unwrap_or(0),
    }
}

/// Compares a hand-in with a key, like `bsdplay --grade --key`, without playing either: `uint32_t
/// bsdudp_page_marks(const uint8_t *key, size_t, const uint8_t *hand_in, size_t, struct page_marks *)`. It counts each
/// line of the key with a reply, and each of its questions with an answer (`play_grade::Marker::marks_by`).
///
/// Returns 0, and `marks` has the numbers of right, wrong and missing answers; or 3, `Memory`, and `marks` is
/// unchanged.
#[unsafe(no_mangle)]
pub extern "C" fn bsdudp_page_marks(
    alloc: Global,
    key: &[u8],
    hand_in: &[u8],
    marks: &mut PageMarks,
) -> u32
    ensures marked { Marked key.now hand_in.now result marks.old marks.new }
{
    match Marker::new(alloc) {
        Ok(mut marker) => {
            *marks = to_struct(marker.marks_by(key, hand_in));
            number_of(Ok(()))
        }
        Err(_) => number_of(Err(RunFault::Memory)),
    }
}
