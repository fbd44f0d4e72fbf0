//! How often something occurred, and in which record first.
ghost use Rattle.std.specs.Prelude.{◌≡◌, ◌+◌, ◌≤◌, ◌++◌, length};
ghost use Rattle.play_text.specs.Tables as tables;
ghost use Rattle.play_text.specs.Tables.{drops_line, never};

use crate::piece::Piece::{Long, Text};
use crate::piece::put_if;
use script_loop::Buffer;

/// How many bytes more than its words the line of a count has at most.
pub const COUNT: usize = 80;

/// How often something occurred, and in which record first.
#[derive(Clone, Copy)]
pub struct Count {
    /// How often. It stays at its greatest value.
    pub count: u64,
    /// The number of the first record, or 0 if it never occurred.
    pub first: u64,
}

impl Count {
    /// It never occurred.
    pub fn never() -> Count
        ensures { result ≡ never }
    {
        Count { count: 0, first: 0 }
    }

    /// Counts one more, in the record of this number.
    pub fn once_more(self, number: u64) -> Count
        ensures { result ≡ tables.once_more number self }
    {
        Count {
            count: self.count.saturating_add(1),
            first: if self.count == 0 { number } else { self.first },
        }
    }
}

/// Appends a line that says how many packets were dropped for a cause, and in which record first. If no packet was
/// dropped for it, nothing is appended.
pub fn put_count<const N: usize>(text: &mut Buffer<N>, count: Count, what: &[u8])
    requires { length text.old + (length what.now + COUNT) ≤ N }
    ensures items { text.new ≡ text.old ++ drops_line count what.now }
    ensures len { length text.new ≤ length text.old + (length what.now + COUNT) }
{
    put_if(
        text,
        count.count != 0,
        &[
            Text(b"    "),
            Long(count.count),
            Text(b" dropped: "),
            Text(what),
            Text(b" (first: record "),
            Long(count.first),
            Text(b")\n"),
        ],
    );
}
