//! What happens to a packet on the wire, by chances and the numbers of a generator.
ghost use Rattle.std.specs.Prelude.{◌≡◌, map, nat_lt, vec_capacity, vec_len};
ghost use Rattle.segment.specs.Chances.{chances_at, drawn, fate_of, seeded, shuffled, wait_of};
ghost use Rattle.segment.specs.Tallies.{with_tally};
ghost use Rattle.segment.specs.Inside.{flying};

use crate::frame::Frame;
use crate::tally::{Tally, count};
use rand_core::utils::NextWord;
use rand_pcg::Pcg32;

/// What may happen to a packet that a host sends, and how likely it is. A chance is given in units of 1/2^32: 0 is
/// never, 2^31 every other time, 2^32 always.
#[derive(Clone, Copy, Debug, PartialEq, Eq)]
pub struct Chances {
    /// The chance that it's lost.
    pub loss: u64,
    /// The chance that it's repeated, if it isn't lost.
    pub repeat: u64,
    /// The chance that it's exchanged with the packet after it, once both are due.
    pub reorder: u64,
    /// The least delay, in carries.
    pub delay: u32,
    /// The difference between the longest and the least delay, in carries.
    pub jitter: u32,
}

/// A wire that loses, repeats, delays and reorders nothing.
pub const NO_CHANCES: Chances = Chances {
    loss: 0,
    repeat: 0,
    reorder: 0,
    delay: 0,
    jitter: 0,
};

/// What happens to a packet on the wire.
#[derive(Clone, Copy, Debug, PartialEq, Eq)]
pub enum Fate {
    /// It's lost.
    Lost,
    /// It's sent, and isn't due for this many carries: with 0 it's due in the next one.
    Once(u64),
    /// It's sent twice, and each copy has a delay of its own.
    Twice(u64, u64),
}

/// The stream of the generator, the same as in the Python package's wire.
const STREAM: u64 = 0x0a02_bdbf_7bb3_c0a7;

/// The generator that a seed starts.
pub(crate) fn seeded(seed: u64) -> Pcg32
    ensures { result ≡ seeded seed }
{
    Pcg32::new(seed, STREAM)
}

/// The next number of 32 bits.
fn draw(random: &mut Pcg32) -> u32
    ensures value { result ≡ (drawn random.old).0 }
    ensures after { random.new ≡ (drawn random.old).1 }
{
    random.next_word()
}

/// Whether the next number is below the limit.
pub(crate) fn happens(random: &mut Pcg32, limit: u64) -> bool
    ensures value { result ≡ nat_lt (drawn random.old).0 limit }
    ensures after { random.new ≡ (drawn random.old).1 }
{
    u64::from(draw(random)) < limit
}

impl Chances {
    /// A delay, by the next number.
    fn wait(&self, random: &mut Pcg32) -> u64
        ensures value { result ≡ wait_of self.now (drawn random.old).0 }
        ensures after { random.new ≡ (drawn random.old).1 }
    {
        let number = u64::from(draw(random));
        let bound = u64::from(self.jitter) + 1;
        u64::from(self.delay) + ((number * bound) >> 32)
    }

    /// The fate of the next packet. The numbers are drawn in this order: for its loss; if it isn't lost, for its
    /// repeat; for the delay of each copy.
    pub(crate) fn fate(&self, random: &mut Pcg32) -> Fate
        ensures value { result ≡ (fate_of self.now random.old).0 }
        ensures after { random.new ≡ (fate_of self.now random.old).1 }
    {
        if happens(random, self.loss) {
            return Fate::Lost;
        }
        let twice = happens(random, self.repeat);
        let first = self.wait(random);
        if twice {
            Fate::Twice(first, self.wait(random))
        } else {
            Fate::Once(first)
        }
    }
}

/// The chances for what each host sends, and its counters, by place; and the generator.
#[derive(Drop)]
pub(crate) struct Impairment {
    pub(crate) chances: Vec<Chances>,
    pub(crate) random: Pcg32,
    pub(crate) tallies: Vec<Tally>,
}

impl Impairment {
    /// The chances for what the host at a place sends.
    fn chances_at(&self, place: usize) -> Chances
        ensures { result ≡ chances_at self.now.chances.items place }
    {
        match self.chances.get(place) {
            Some(chances) => *chances,
            None => NO_CHANCES,
        }
    }

    /// The fate of the next packet that the host at a place sends. It's counted.
    pub(crate) fn fate(&mut self, sender: usize) -> Fate
        ensures value { result ≡ (fate_of (chances_at self.old.chances.items sender) self.old.random).0 }
        ensures after { self.new.random ≡ (fate_of (chances_at self.old.chances.items sender) self.old.random).1 }
        ensures chances { self.new.chances ≡ self.old.chances }
        ensures tallies { self.new.tallies.items ≡ with_tally sender result self.old.tallies.items }
    {
        let fate = self.chances_at(sender).fate(&mut self.random);
        count(&mut self.tallies, sender, fate);
        fate
    }

    /// Whether two packets that are due are exchanged; the host at a place sent the first of them.
    fn turns(&mut self, sender: usize) -> bool
        ensures value { result ≡ nat_lt (drawn self.old.random).0 (chances_at self.old.chances.items sender).reorder }
        ensures after { self.new.random ≡ (drawn self.old.random).1 }
        ensures chances { self.new.chances ≡ self.old.chances }
        ensures tallies { self.new.tallies ≡ self.old.tallies }
    {
        let limit = self.chances_at(sender).reorder;
        happens(&mut self.random, limit)
    }

    /// Each of the packets that are due, except the last, may be exchanged with the one after it, from the first on.
    pub(crate) fn shuffle(&mut self, due: &mut Vec<Frame>)
        ensures due { map flying due.new.items
            ≡ (shuffled self.old.chances.items (map flying due.old.items) self.old.random).0 }
        ensures after { self.new.random
            ≡ (shuffled self.old.chances.items (map flying due.old.items) self.old.random).1 }
        ensures chances { self.new.chances ≡ self.old.chances }
        ensures room { vec_capacity due.new ≡ vec_capacity due.old }
        ensures len { vec_len due.new ≡ vec_len due.old }
        ensures tallies { self.new.tallies ≡ self.old.tallies }
    {
        for at in 0..due.len().saturating_sub(1) {
            let sender = due[at].sender;
            if self.turns(sender) {
                due.swap(at, at + 1);
            }
        }
    }
}
