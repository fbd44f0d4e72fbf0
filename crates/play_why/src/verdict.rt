//! The verdict on a packet: what a stack did with it, and why.
ghost use Rattle.net_stack.specs.Stack.{state_of};
ghost use Rattle.play_why.specs.Findings.{IsVerdict};

use crate::delivered::{Delivered, deliveries_of};
use crate::ends::{Ends, ends_of};
use crate::finding::{Counted, Finding, findings_of};
use crate::host::Host;
use crate::outcome::{Outcome, outcome_of};
use crate::seen::Seen;
use crate::sums::COVERED;
use params::MAX_SOCKETS;
use play_text::{CAUSES, Fate, fate_of};
use script_loop::Buffer;

/// What a stack did with the packet of a record.
#[derive(Clone, Copy)]
pub struct Verdict {
    /// The number of the record.
    pub number: u64,
    /// What happened to its fragment.
    pub fate: Fate,
    /// What happened to it, in one word.
    pub outcome: Outcome,
    /// Where it comes from and where it goes, if it has a header of 20 bytes.
    pub ends: Option<Ends>,
    /// Whether its UDP checksum was left to the sender's card, and filled in before it arrived.
    pub filled: bool,
    /// The record of the ICMP error with which the host refused it, if there is one.
    pub refused: Option<u64>,
    /// What was delivered to each socket, that of the lowest descriptor first.
    pub delivered: [Option<Delivered>; MAX_SOCKETS as usize],
    /// Why it was dropped: the finding for each cause, in the order of `play_text::causes`.
    pub findings: [Option<Finding>; CAUSES],
}

impl Verdict {
    /// Returns the verdict by the counters before and after the packet, and by the host after it. Its sockets have
    /// only datagrams that the packet brought. `covered` is a buffer for the work.
    pub(crate) fn of(
        seen: &Seen<'_>,
        counted: &Counted<'_>,
        host: &Host,
        covered: &mut Buffer<COVERED>,
    ) -> Verdict
        ensures { IsVerdict seen.now counted.now.before.now counted.now.after.now (state_of host.now.stack)
            host.now.address result }
    {
        Verdict {
            number: seen.number,
            fate: fate_of(counted.before, counted.after),
            outcome: outcome_of(seen, counted, &host.stack),
            ends: ends_of(seen.packet, seen.source_port, seen.destination_port),
            filled: seen.filled,
            refused: seen.refused,
            delivered: deliveries_of(&host.stack),
            findings: findings_of(seen, counted, host.address, covered),
        }
    }
}
