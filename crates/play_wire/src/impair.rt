//! The lines that set how the wire loses, delays, swaps and duplicates packets.
ghost use Rattle.std.specs.Prelude.{◌≡◌};
ghost use Rattle.segment.specs.Inside.{view};
ghost use Rattle.play_wire.specs.Acts.{AreLedTo};

use crate::chance::{Part, part_in};
use crate::fault::Fault;
use crate::hosts::Hosts;
use crate::names::place_of;
use play_forms::Command;
use script_loop::{Sink, first_word, one};
use segment::Segment;

/// Sets this for the packets that the host at a place sends.
fn set(segment: &mut Segment, place: usize, part: Part)
    ensures { AreLedTo (view segment.old) (view segment.new) }
{
    if let Some(chances) = segment.chances(place) {
        segment.impair(place, part.put(chances));
    }
}

/// Sets this for the packets that each host sends.
fn set_all(segment: &mut Segment, part: Part)
    ensures { AreLedTo (view segment.old) (view segment.new) }
{
    for place in 0..segment.hosts() {
        set(segment, place, part);
    }
}

impl<T: Sink + Drop> Hosts<T> {
    /// `loss C`, `repeat C`, `reorder C`, `delay A-B`: for all hosts that send, or, with `from NAME`, for one of them.
    pub(crate) fn impair(&mut self, kind: Command, rest: Option<&[u8]>) -> Result<(), Fault>
        ensures moves { AreLedTo (view self.old.segment) (view self.new.segment) }
        ensures names { self.new.names ≡ self.old.names }
    {
        let Some(words) = rest else {
            return Err(Fault::NoChance);
        };
        let (value, after) = first_word(words);
        let Some(part) = part_in(kind, value) else {
            return Err(Fault::NoChance);
        };
        let Some(words) = after else {
            set_all(&mut self.segment, part);
            return Ok(());
        };
        let (from, after) = first_word(words);
        if from != b"from".as_slice() {
            return Err(Fault::Nothing);
        }
        let Some(name) = one(after) else {
            return Err(Fault::Nothing);
        };
        match place_of(self.names.as_slice(), name) {
            Some(place) => {
                set(&mut self.segment, place, part);
                Ok(())
            }
            None => Err(Fault::NoHost),
        }
    }
}
