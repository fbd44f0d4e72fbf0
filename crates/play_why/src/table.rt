//! How many packets were dropped for which cause, and the first record of each.
ghost use Rattle.std.specs.Prelude.{◌≡◌, if◌then◌else◌};
ghost use Rattle.play_text.specs.Tables.{once_more};
ghost use Rattle.play_why.specs.Verdicts as verdicts;

use crate::FATE;
use crate::blame::{Blame, blame_of};
use crate::parts::Loss;
use crate::seen::Seen;
use flat_model::{Counters, Why};
use play_text::Piece::{Either, Long, Text};
use play_text::{
    CAUSES, Count, Piece, Row, Table, add, add_count, add_table, causes, rose, words_for,
};
use script_loop::Buffer;

/// For which causes packets were dropped.
#[derive(Clone, Copy)]
pub struct Verdicts {
    /// By causes, the packets that were dropped, apart from those below.
    pub causes: Table,
    /// The packets that were dropped because the capture kept only a part of them.
    pub cut: Count,
    /// The packets whose checksum was left to the sender's card.
    pub card: Count,
    /// Those whose checksum was filled in instead of the card.
    pub filled: Count,
    /// The packets that the host refused.
    pub refused: Count,
}

/// Returns whether a packet was dropped for a cause for which this one is to blame.
fn is_blamed(blame: Blame, seen: &Seen<'_>, before: &Counters, after: &Counters, why: Why) -> bool
    ensures { result ≡ verdicts.is_blamed blame seen.now before.now after.now why }
{
    rose(why.counter(), before, after)
        && match (blame, blame_of(seen, why)) {
            (Blame::Packet, Blame::Packet) => true,
            (Blame::Stack, Blame::Stack) => true,
            (Blame::Copy, Blame::Copy) => true,
            (Blame::Capture, Blame::Capture) => true,
            (Blame::Card, Blame::Card) => true,
            (Blame::Host, Blame::Host) => true,
            _ => false,
        }
}

/// Returns the count, with one more in the record with this number if `so` is true.
fn counted_if(count: Count, so: bool, number: u64) -> Count
    ensures { result ≡ (if so then once_more number count else count) }
{
    if so { count.once_more(number) } else { count }
}

/// Returns a count after a record, whose packet counts once for each cause for which `blame` is to blame.
#[tactic(auto, unfolding(crate::specs::Verdicts::blamed_on))]
fn blamed(blame: Blame, seen: &Seen<'_>, before: &Counters, after: &Counters, count: Count) -> Count
    ensures { result ≡ verdicts.blamed_on blame seen.now before.now after.now count }
{
    let mut now = count;
    for why in causes() {
        let so = is_blamed(blame, seen, before, after, why);
        now = counted_if(now, so, seen.number);
    }
    now
}

/// Returns whether a drop counts in the table if this is to blame.
fn is_in_table(blame: Blame) -> bool
    ensures { result ≡ verdicts.is_in_table blame }
{
    matches!(blame, Blame::Packet | Blame::Stack | Blame::Copy)
}

/// Returns a row after a record.
fn row_judged(row: Row, seen: &Seen<'_>, before: &Counters, after: &Counters) -> Row
    ensures { result ≡ verdicts.row_judged seen.now before.now after.now row }
{
    if rose(row.why.counter(), before, after) && is_in_table(blame_of(seen, row.why)) {
        Row {
            why: row.why,
            count: row.count.once_more(seen.number),
        }
    } else {
        row
    }
}

/// Returns all rows after a record.
#[tactic(auto, unfolding(crate::specs::Verdicts::causes_judged))]
fn causes_judged(table: Table, seen: &Seen<'_>, before: &Counters, after: &Counters) -> Table
    ensures { result ≡ verdicts.causes_judged seen.now before.now after.now table }
{
    let mut rows = table.rows;
    'places: for place in 0..CAUSES {
        rows[place] = row_judged(rows[place], seen, before, after);
    }
    Table { rows }
}

impl Verdicts {
    /// No packet was dropped.
    pub(crate) fn new() -> Verdicts
        ensures { result ≡ verdicts.none_dropped }
    {
        Verdicts {
            causes: Table::new(),
            cut: Count::never(),
            card: Count::never(),
            filled: Count::never(),
            refused: Count::never(),
        }
    }

    /// Counts the packet of a record once for each cause for which it was dropped, by who is to blame.
    pub(crate) fn count_record(&mut self, seen: &Seen<'_>, before: &Counters, after: &Counters)
        ensures { self.new ≡ verdicts.judged seen.now before.now after.now self.old }
    {
        self.causes = causes_judged(self.causes, seen, before, after);
        self.cut = blamed(Blame::Capture, seen, before, after, self.cut);
        self.card = blamed(Blame::Card, seen, before, after, self.card);
        self.filled = counted_if(self.filled, seen.filled, seen.number);
        self.refused = blamed(Blame::Host, seen, before, after, self.refused);
    }

    /// Appends a line for each cause for which a packet was dropped, and those for packets that are apart from drops.
    pub(crate) fn put(&self, text: &mut Buffer<FATE>) {
        add_table(text, &self.causes);
        add_apart(
            text,
            self.cut,
            b" cut by the capture's snap length: no fault of the packet (first: record ",
        );
        add_apart(
            text,
            self.refused,
            b" refused by the host: its ICMP error is in the capture (first: record ",
        );
        add_apart(
            text,
            self.card,
            b" left to the card: no fault on the wire; --offload goes on as if it were right (first: record ",
        );
        add_apart(
            text,
            self.filled,
            b" with the checksum filled in that was left to the card (first: record ",
        );
    }

    /// Appends the members of a JSON object for the causes.
    pub(crate) fn put_members(&self, text: &mut Buffer<FATE>) {
        add(text, &[Text(b",\"causes\":[")]);
        let mut is_first = true;
        for row in &self.causes.rows {
            let words = Text(words_for(row.why).as_bytes());
            is_first = add_member(text, is_first, row.count, words);
        }
        add(text, &[Text(b"]")]);
    }
}

/// Appends a line for packets that are apart from drops, unless there are none.
fn add_apart(text: &mut Buffer<FATE>, count: Count, what: &[u8]) {
    if count.count != 0 {
        add(
            text,
            &[
                Text(b"    "),
                Long(count.count),
                Text(what),
                Long(count.first),
                Text(b")\n"),
            ],
        );
    }
}

/// Appends a cause to a JSON array, unless no packet was dropped for it. Returns whether the next one is the first.
fn add_member(text: &mut Buffer<FATE>, is_first: bool, count: Count, words: Piece<'_>) -> bool {
    if count.count == 0 {
        return is_first;
    }
    add(
        text,
        &[
            Either(is_first, b"{\"cause\":\"", b",{\"cause\":\""),
            words,
            Text(b"\",\"count\":"),
            Long(count.count),
            Text(b",\"first\":"),
            Long(count.first),
            Text(b"}"),
        ],
    );
    false
}

/// How many fragments were kept, and dropped later.
#[derive(Clone, Copy)]
pub(crate) struct Losses {
    expired: Count,
    reclaimed: Count,
}

/// Returns a count after the fragments in these records.
fn counted_each(count: Count, numbers: &[u64]) -> Count
    ensures { result ≡ verdicts.once_each numbers.now count }
{
    let mut counted = count;
    let mut rest = numbers;
    'numbers: while let [number, left @ ..] = rest {
        counted = counted.once_more(*number);
        rest = left;
    }
    counted
}

impl Losses {
    /// None was dropped.
    pub(crate) fn none() -> Losses
        ensures { result ≡ verdicts.none_lost }
    {
        Losses {
            expired: Count::never(),
            reclaimed: Count::never(),
        }
    }

    /// Counts the fragments with these records.
    pub(crate) fn count_record(&mut self, why: Loss, numbers: &[u64])
        ensures { self.new ≡ verdicts.lost_after why numbers.now self.old }
    {
        match why {
            Loss::Expired => self.expired = counted_each(self.expired, numbers),
            Loss::Reclaimed => self.reclaimed = counted_each(self.reclaimed, numbers),
        }
    }

    /// Appends a line for each reason for which some were dropped.
    pub(crate) fn put(&self, text: &mut Buffer<FATE>) {
        add_count(
            text,
            self.expired,
            b"kept fragment of a datagram that expired after 30 seconds",
        );
        add_count(
            text,
            self.reclaimed,
            b"kept fragment of a datagram that was dropped for its buffers",
        );
    }

    /// Appends the members of a JSON object for them.
    pub(crate) fn put_members(&self, text: &mut Buffer<FATE>) {
        add(
            text,
            &[
                Text(b",\"expired\":"),
                Long(self.expired.count),
                Text(b",\"reclaimed\":"),
                Long(self.reclaimed.count),
            ],
        );
    }
}
