//! The counters of each host's packets.
ghost use Rattle.std.specs.Prelude.{◌≡◌};
ghost use Rattle.segment.specs.Tallies.{tally_counted, with_one, with_tally};

use crate::chances::Fate;

/// What a segment has counted for a host's packets. Each counter stops at 2^64 - 1. The host's own counters say how
/// many datagrams were reassembled, and how many packets were dropped for each cause.
#[derive(Clone, Copy, Debug, Default, PartialEq, Eq)]
pub struct Tally {
    /// The packets that it sent to the wire.
    pub sent: u64,
    /// Those of them that were lost by chance.
    pub lost: u64,
    /// Those of them that were repeated.
    pub repeated: u64,
    /// The packets that arrived at it, each copy counted.
    pub received: u64,
}

/// A host with all counters 0.
pub(crate) const NOTHING: Tally = Tally {
    sent: 0,
    lost: 0,
    repeated: 0,
    received: 0,
};

impl Tally {
    /// One more packet was sent to the wire, with this fate.
    fn counted(self, fate: Fate) -> Tally
        ensures { result ≡ tally_counted fate self }
    {
        let mut tally = self;
        tally.sent = tally.sent.saturating_add(1);
        match fate {
            Fate::Lost => tally.lost = tally.lost.saturating_add(1),
            Fate::Once(_) => {}
            Fate::Twice(_, _) => tally.repeated = tally.repeated.saturating_add(1),
        }
        tally
    }

    /// One more packet arrived.
    pub(crate) fn with_one(self) -> Tally
        ensures { result ≡ with_one self }
    {
        let received = self.received.saturating_add(1);
        Tally { received, ..self }
    }
}

/// Counts a packet of the host at a place.
pub(crate) fn count(tallies: &mut Vec<Tally>, sender: usize, fate: Fate)
    ensures { tallies.new.items ≡ with_tally sender fate tallies.old.items }
{
    if sender < tallies.len() {
        tallies[sender] = tallies[sender].counted(fate);
    }
}
