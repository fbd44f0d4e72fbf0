//! Actions by hand on the packets that are under way, and what is shown of them.
ghost use Rattle.std.specs.Prelude.{◌≡◌, ◌&&◌, length, nat_lt, slice_get, MatchOption, None, Some};
ghost use Rattle.segment.specs.Segment.{lost_at, repeated_at, swapped_at};
ghost use Rattle.segment.specs.Inside.{view};

use crate::flight::unused;
use crate::segment::Segment;

/// A packet that is under way.
#[derive(Clone, Copy, Debug, PartialEq, Eq)]
pub struct UnderWay<'a> {
    /// The place of the host that sent it.
    pub sender: usize,
    /// For how many carries it isn't due yet: 0 if it's due in the next one.
    pub wait: u64,
    /// Its bytes, with its IP header first.
    pub packet: &'a [u8],
}

impl Segment {
    /// How many packets are under way. Their places are from 0 on, in the order in which they were sent.
    pub fn flight_len(&self) -> usize
        ensures { result ≡ length (view self.now).flight }
    {
        self.flight.frames.len()
    }

    /// The packet under way at a place. `None` if there is no such packet.
    pub fn under_way(&self, at: usize) -> Option<UnderWay<'_>>
        ensures { MatchOption result (slice_get (view self.now).flight at ≡ None) (λ shown.
            slice_get (view self.now).flight at
            ≡ Some (record { sender = shown.sender; packet = shown.packet.now; wait = shown.wait })) }
    {
        let frame = self.flight.frames.get(at)?;
        Some(UnderWay {
            sender: frame.sender,
            wait: frame.wait,
            packet: frame.bytes(),
        })
    }

    /// Loses the packet under way at a place. Returns whether there was one.
    pub fn lose(&mut self, at: usize) -> bool
        ensures is { result ≡ nat_lt at (length (view self.old).flight) }
        ensures lost { view self.new ≡ lost_at at (view self.old) }
    {
        let flight = &mut self.flight;
        if at >= flight.frames.len() {
            return false;
        }
        let frame = flight.frames.remove(at);
        flight.spare.push_reserved(frame);
        true
    }

    /// Adds a copy of the packet under way at a place after all others. Returns whether there was one, and the capacity
    /// allowed it.
    pub fn repeat(&mut self, at: usize) -> bool
        ensures is { result ≡ (nat_lt at (length (view self.old).flight)
            && nat_lt (length (view self.old).flight) (view self.old).room) }
        ensures repeated { view self.new ≡ repeated_at at (view self.old) }
    {
        let flight = &mut self.flight;
        if at >= flight.frames.len() {
            return false;
        }
        if flight.frames.len() >= flight.frames.capacity() {
            return false;
        }
        let mut copy = unused(&mut flight.spare, &mut flight.due);
        let frame = &flight.frames[at];
        copy.copy(frame, frame.wait);
        flight.frames.push_reserved(copy);
        true
    }

    /// Exchanges two packets under way. Returns whether both were there.
    pub fn swap(&mut self, at: usize, other: usize) -> bool
        ensures is { result ≡ (nat_lt at (length (view self.old).flight)
            && nat_lt other (length (view self.old).flight)) }
        ensures swapped { view self.new ≡ swapped_at at other (view self.old) }
    {
        if at >= self.flight.frames.len() || other >= self.flight.frames.len() {
            return false;
        }
        self.flight.frames.swap(at, other);
        true
    }
}
