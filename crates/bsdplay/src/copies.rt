//! Copies in a capture: records that repeat the one before, and fragments of a datagram that was whole.
use play_text::Fate;
use play_why::Verdict;
use std::alloc::{AllocError, Global};

/// How many datagrams that were whole are remembered: a copy comes soon.
const MOST_WHOLE: usize = 512;

/// How many records of copies are remembered.
const MOST_COPIES: usize = 8192;

/// How often something occurred, and in which record first.
#[derive(Clone, Copy)]
pub(crate) struct Times {
    pub(crate) count: u64,
    pub(crate) first: u64,
}

impl Times {
    /// It never occurred.
    pub(crate) fn never() -> Times {
        Times { count: 0, first: 0 }
    }

    /// Counts one more, in the record of this number.
    pub(crate) fn add(&mut self, number: u64) {
        if self.count == 0 {
            self.first = number;
        }
        self.count = self.count.saturating_add(1);
    }
}

/// A datagram that was whole, by its key.
#[derive(Clone, Copy)]
struct Whole {
    source: u32,
    destination: u32,
    protocol: u8,
    id: u16,
    /// The record that completed it.
    number: u64,
}

/// What is known of copies.
#[derive(Drop)]
pub(crate) struct Copies {
    /// The bytes of the record before.
    last: Vec<u8>,
    whole: Vec<Whole>,
    /// Where the next one that is whole replaces the oldest.
    oldest: usize,
    /// The records of the copies, in order.
    numbers: Vec<u64>,
    /// Records that repeat the one before.
    pub(crate) repeats: Times,
    /// Fragments that came again after their datagram was whole.
    pub(crate) again: Times,
}

/// Returns the datagram to which the packet with this verdict belongs.
fn whole_by(verdict: &Verdict) -> Option<Whole> {
    let ends = verdict.ends?;
    Some(Whole {
        source: ends.source,
        destination: ends.destination,
        protocol: ends.protocol,
        id: ends.id,
        number: verdict.number,
    })
}

/// Returns whether two are the same datagram.
fn is_same(a: Whole, b: Whole) -> bool {
    a.id == b.id
        && a.source == b.source
        && a.destination == b.destination
        && a.protocol == b.protocol
}

impl Copies {
    /// No record was read.
    pub(crate) fn new(alloc: Global) -> Copies {
        Copies {
            last: Vec::new(alloc),
            whole: Vec::new(alloc),
            oldest: 0,
            numbers: Vec::new(alloc),
            repeats: Times::never(),
            again: Times::never(),
        }
    }

    /// Notes a record, which may repeat the one before. Repeats are counted if they are for the host.
    pub(crate) fn read(
        &mut self,
        number: u64,
        bytes: &[u8],
        is_ours: bool,
    ) -> Result<(), AllocError> {
        if self.last.as_slice() == bytes {
            if is_ours {
                self.repeats.add(number);
            }
            return Ok(());
        }
        self.last.clear();
        self.last.extend_from_slice(bytes)
    }

    /// Remembers a datagram that was whole.
    fn remember(&mut self, it: Whole) -> Result<(), AllocError> {
        if self.whole.len() < MOST_WHOLE {
            self.whole.push(it)?;
            return Ok(());
        }
        if let Some(old) = self.whole.as_mut_slice().get_mut(self.oldest) {
            *old = it;
        }
        self.oldest = self.oldest.saturating_add(1) % MOST_WHOLE;
        Ok(())
    }

    /// Returns the record that completed the datagram of a fragment earlier.
    fn earlier(&self, it: Whole) -> Option<u64> {
        let mut found = None;
        for whole in self.whole.as_slice() {
            if is_same(*whole, it) {
                found = Some(whole.number);
            }
        }
        found
    }

    /// Notes a verdict. If it's on a fragment that came again after its datagram was whole, returns the record that
    /// completed it.
    pub(crate) fn note(&mut self, verdict: &Verdict) -> Result<Option<u64>, AllocError> {
        let Some(it) = whole_by(verdict) else {
            return Ok(None);
        };
        match verdict.fate {
            Fate::Whole => {
                self.remember(it)?;
                Ok(None)
            }
            Fate::Kept => {
                let earlier = self.earlier(it);
                if earlier.is_some() {
                    if self.numbers.len() >= MOST_COPIES {
                        let _ = self.numbers.remove(0);
                    }
                    self.numbers.push(it.number)?;
                    self.again.add(it.number);
                }
                Ok(earlier)
            }
            Fate::Other => Ok(None),
        }
    }

    /// Returns whether all these records, of which there is one at least, are copies.
    pub(crate) fn are_copies(&self, numbers: &[u64]) -> bool {
        let mut all = !numbers.is_empty();
        for number in numbers {
            all = all && self.numbers.as_slice().binary_search(number).is_ok();
        }
        all
    }
}
