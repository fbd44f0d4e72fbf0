//! For which causes packets were dropped, how often, and in which record first.
ghost use Rattle.std.specs.Prelude.{◌≡◌, ◌+◌, ◌≤◌, ◌++◌, length};
ghost use Rattle.play_text.specs.Tables as tables;
ghost use Rattle.play_text.specs.Tables.{no_drops, drops_added, table_text};

use crate::count::{Count, put_count};
use crate::words::{CAUSES, causes, rose, words_for};
use flat_model::{Counters, Why};
use script_loop::Buffer;

/// How many bytes the lines of all causes have at most.
pub const TABLE: usize = 2160;

/// A cause, and how many packets were dropped for it.
#[derive(Clone, Copy)]
pub struct Row {
    pub why: Why,
    pub count: Count,
}

/// How many packets were dropped for which cause: a row for each cause, in the order of the tests.
#[derive(Clone, Copy)]
pub struct Table {
    pub rows: [Row; CAUSES],
}

impl Row {
    /// Returns the row of a cause for which no packet was dropped.
    fn never(why: Why) -> Row
        ensures { result ≡ tables.never_for why }
    {
        Row {
            why,
            count: Count::never(),
        }
    }

    /// Returns the row after the packet in the record of this number: it counts one more if the packet was dropped for
    /// this cause.
    fn after(self, number: u64, before: &Counters, after: &Counters) -> Row
        ensures { result ≡ tables.row_after number before.now after.now self }
    {
        if rose(self.why.counter(), before, after) {
            Row {
                why: self.why,
                count: self.count.once_more(number),
            }
        } else {
            self
        }
    }
}

impl Table {
    /// Returns the table without any dropped packet.
    #[tactic(auto, unfolding(crate::specs::Tables::no_drops))]
    pub fn new() -> Table
        ensures { result ≡ no_drops }
    {
        let whys = causes();
        let mut rows = [Row::never(Why::TooSmall); CAUSES];
        'places: for place in 0..CAUSES {
            rows[place] = Row::never(whys[place]);
        }
        Table { rows }
    }

    /// Adds the packet of a record: each cause whose counter went up counts one more.
    #[tactic(auto, unfolding(crate::specs::Tables::drops_added))]
    pub fn count_record(&mut self, number: u64, before: &Counters, after: &Counters)
        ensures { self.new ≡ drops_added number before.now after.now self.old }
    {
        'places: for place in 0..CAUSES {
            let row = self.rows[place];
            self.rows[place] = row.after(number, before, after);
        }
    }

    /// Appends a line for each cause for which a packet was dropped: how many were, and the first record.
    #[tactic(auto, unfolding(crate::specs::Tables::table_text))]
    pub fn put<const N: usize>(&self, text: &mut Buffer<N>)
        requires { length text.old + TABLE ≤ N }
        ensures items { text.new ≡ text.old ++ table_text self.now }
        ensures len { length text.new ≤ length text.old + TABLE }
    {
        for row in &self.rows {
            put_count(text, row.count, words_for(row.why).as_bytes());
        }
    }
}
