//! Lists of records, in which neighbours are joined: `4, 6 and 7`, `36 to 63`. No contract specifies the words.
use play_text::Piece::{Either, Long, Text};
use play_text::add;
use script_loop::Buffer;

/// How many records, or ranges of them, a line lists.
const MOST_LISTED: usize = 64;

/// Records in ascending order.
#[derive(Clone, Copy)]
pub(crate) struct Listed<'a> {
    pub(crate) numbers: &'a [u64],
    /// One more after them.
    pub(crate) last: Option<u64>,
}

impl Listed<'_> {
    /// Returns the record at a place.
    fn at(&self, place: usize) -> Option<u64> {
        if place == self.numbers.len() {
            return self.last;
        }
        self.numbers.get(place).copied()
    }

    /// Returns how many there are.
    fn len(&self) -> usize {
        self.numbers
            .len()
            .saturating_add(if self.last.is_some() { 1 } else { 0 })
    }

    /// Returns how many records follow the one at a place, each the next of the one before it.
    fn run_after(&self, place: usize, first: u64) -> usize {
        let mut more = 0;
        for next in 1..self.len() {
            let wanted = first.saturating_add(next as u64);
            if self.at(place.saturating_add(next)) != Some(wanted) {
                break;
            }
            more = next;
        }
        more
    }
}

/// Appends the first 64 records or ranges of three and more, and how many more records there are.
pub(crate) fn add_listed<const N: usize>(text: &mut Buffer<N>, listed: Listed<'_>) {
    let len = listed.len();
    let mut place: usize = 0;
    for entry in 0..MOST_LISTED {
        let Some(first) = listed.at(place) else {
            return;
        };
        let more = listed.run_after(place, first);
        let more = if more < 2 { 0 } else { more };
        let end = place.saturating_add(more);
        let is_last = end.saturating_add(1) == len;
        if entry == 0 {
            add(text, &[Text(b" ")]);
        } else {
            add(text, &[Either(is_last, b" and ", b", ")]);
        }
        add(text, &[Long(first)]);
        if more != 0 {
            add(
                text,
                &[Text(b" to "), Long(first.saturating_add(more as u64))],
            );
        }
        place = end.saturating_add(1);
    }
    let rest = len.saturating_sub(place);
    if rest != 0 {
        add(text, &[Text(b" and "), Long(rest as u64), Text(b" more")]);
    }
}
