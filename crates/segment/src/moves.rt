//! How packets go under way, and leave.
ghost use Rattle.std.specs.Prelude.{◌≡◌, ◌+◌, ◌≤◌, ◌∷◌, [], filter, map, vec_capacity, vec_len};
ghost use Rattle.segment.specs.Chances.{copies_before};
ghost use Rattle.segment.specs.Flying.{flying_aged, is_due, is_early, waits};
ghost use Rattle.segment.specs.Inside.{GoUnderWay, flying, under_way};

use crate::chances::Fate;
use crate::flight::{Flight, empty, unused};
use crate::frame::Frame;
use crate::watch::Watch;
use std::mem;

/// Divides these packets into those that are due, and the others, a carry older. Both lists are empty, with enough
/// capacity.
fn part(all: &mut Vec<Frame>, due: &mut Vec<Frame>, early: &mut Vec<Frame>)
    requires empty { (due.old.items ≡ []) × (vec_len due.old ≡ 0) }
    requires early_empty { (early.old.items ≡ []) × (vec_len early.old ≡ 0) }
    requires room { vec_len all.old ≤ vec_capacity due.old }
    requires early_room { vec_len all.old ≤ vec_capacity early.old }
    ensures due { map flying due.new.items ≡ filter is_due (map flying all.old.items) }
    ensures early { map flying early.new.items ≡ map flying_aged (filter is_early (map flying all.old.items)) }
    ensures none { vec_len all.new ≡ 0 }
    ensures each { vec_len due.new + vec_len early.new ≡ vec_len all.old }
    ensures room { vec_capacity all.new ≡ vec_capacity all.old }
    ensures due_room { vec_capacity due.new ≡ vec_capacity due.old }
    ensures early_room { vec_capacity early.new ≡ vec_capacity early.old }
{
    all.reverse();
    while let Some(mut frame) = all.pop() {
        if frame.wait == 0 {
            due.push_reserved(frame);
        } else {
            frame.wait -= 1;
            early.push_reserved(frame);
        }
    }
}

impl Flight {
    /// A copy of the packet in `hand` goes under way, not due for `wait` carries, if the capacity allows.
    fn put(&mut self, wait: u64)
        ensures put { GoUnderWay self.old (waits wait (flying self.old.hand) ∷ []) self.new }
        ensures hand { self.new.hand ≡ self.old.hand }
    {
        if self.frames.len() >= self.frames.capacity() {
            return;
        }
        let mut frame = unused(&mut self.spare, &mut self.due);
        frame.copy(&self.hand, wait);
        self.frames.push_reserved(frame);
    }

    /// Copies of the packet in `hand` go under way by its fate.
    fn put_copies(&mut self, fate: Fate)
        ensures put { GoUnderWay self.old (copies_before fate (flying self.old.hand) []) self.new }
        ensures hand { self.new.hand ≡ self.old.hand }
    {
        match fate {
            Fate::Lost => {}
            Fate::Once(wait) => self.put(wait),
            Fate::Twice(first, second) => {
                self.put(first);
                self.put(second);
            }
        }
    }

    /// The packet in `hand` is sent by its fate.
    pub(crate) fn enter<W: Watch>(&mut self, fate: Fate, watch: &mut W)
        ensures { GoUnderWay self.old (copies_before fate (flying self.old.hand) []) self.new }
    {
        let before = self.frames.len();
        self.put_copies(fate);
        let copies = self.frames.len().saturating_sub(before);
        watch.sent(self.hand.sender, self.hand.bytes(), fate, copies);
    }

    /// What is due leaves, and the rest is a carry older.
    pub(crate) fn leave(&mut self)
        ensures due { map flying self.new.due.items ≡ filter is_due (under_way self.old) }
        ensures early { under_way self.new ≡ map flying_aged (filter is_early (under_way self.old)) }
        ensures room { vec_capacity self.new.frames ≡ vec_capacity self.old.frames }
    {
        empty(&mut self.due, &mut self.spare);
        mem::swap(&mut self.frames, &mut self.passed);
        part(&mut self.passed, &mut self.due, &mut self.frames);
    }
}
