//! A watcher of the packets on a segment.
use crate::chances::Fate;
use ether_host::Tallies;
use net_stack::Stack;

/// A watcher of the packets on a segment: it's called when a packet, or a frame, is sent to the wire, and when one
/// arrives at hosts. It can read the state of a host at that time; it can't change the segment.
pub trait Watch {
    /// This packet of the host at a place is sent to the wire, with this fate. This many copies of it are under way
    /// then.
    fn sent(&mut self, sender: usize, packet: &[u8], fate: Fate, copies: usize);

    /// This packet of the host at a place is due. Packets that are due are numbered from 0 on, in the order in which
    /// they arrive.
    fn due(&mut self, number: usize, sender: usize, packet: &[u8]);

    /// The due packet with this number is about to arrive at the host at a place, which has this stack. If the host has
    /// no link, the link's counters are 0.
    fn arriving(&mut self, number: usize, place: usize, stack: &Stack, link: Tallies);

    /// It has arrived, and this is the stack now.
    fn arrived(&mut self, number: usize, place: usize, stack: &Stack, link: Tallies);
}

/// No watcher.
#[derive(Drop)]
pub(crate) struct NoWatcher;

impl Watch for NoWatcher {
    fn sent(&mut self, _sender: usize, _packet: &[u8], _fate: Fate, _copies: usize) {}

    fn due(&mut self, _number: usize, _sender: usize, _packet: &[u8]) {}

    fn arriving(&mut self, _number: usize, _place: usize, _stack: &Stack, _link: Tallies) {}

    fn arrived(&mut self, _number: usize, _place: usize, _stack: &Stack, _link: Tallies) {}
}
