//! The routes of packets: from a host to the wire, and from the wire to a host.
ghost use Rattle.std.specs.Prelude.{◌≡◌, ◌<◌, ◌≤◌, ◌∷◌, [], drop, length, take};
ghost use Rattle.params.specs.declared.TheConstants.{MAX_MTU};
ghost use Rattle.net_stack.specs.Runs.{AreCalls};
ghost use Rattle.segment.specs.Flying.{comes, transmits_of, sent_by, waiting};
ghost use Rattle.segment.specs.Inside.{AreSentBy};

use crate::chances::Impairment;
use crate::flight::Flight;
use crate::frame::Frame;
use crate::watch::Watch;
use ether_host::Tallies;
use net_stack::Stack;

/// Takes all packets that wait for the link of the host at a place. Each is sent by its fate; beyond the capacity it's
/// lost.
pub(crate) fn take_all<W: Watch>(
    flight: &mut Flight,
    impairment: &mut Impairment,
    sender: usize,
    stack: &mut Stack,
    watch: &mut W,
)
    ensures calls { AreCalls stack.old (transmits_of (waiting stack.old)) stack.new }
    ensures sent { AreSentBy flight.old impairment.old (sent_by sender (waiting stack.old)) flight.new impairment.new }
{
    for _ in 0..stack.output_len() {
        take_one(flight, impairment, sender, stack, watch);
    }
}

/// Takes the packet that has waited longest for the link. There must be one.
fn take_one<W: Watch>(
    flight: &mut Flight,
    impairment: &mut Impairment,
    sender: usize,
    stack: &mut Stack,
    watch: &mut W,
)
    requires { 0 < length (waiting stack.old) }
    ensures calls { AreCalls stack.old (transmits_of (take 1 (waiting stack.old))) stack.new }
    ensures waits { waiting stack.new ≡ drop 1 (waiting stack.old) }
    ensures sent { AreSentBy flight.old impairment.old (sent_by sender (take 1 (waiting stack.old)))
        flight.new impairment.new }
{
    flight.hand.fill(sender, stack);
    let fate = impairment.fate(sender);
    flight.enter(fate, watch);
}

/// Which of the packets that are due arrives, and the place of the host that receives it.
#[derive(Clone, Copy)]
pub(crate) struct Arrival {
    pub(crate) number: usize,
    pub(crate) place: usize,
}

/// Shows the packets that are due.
pub(crate) fn show_due<W: Watch>(due: &[Frame], watch: &mut W) {
    for number in 0..due.len() {
        let frame = &due[number];
        watch.due(number, frame.sender, frame.bytes());
    }
}

/// Passes a packet to a host.
pub(crate) fn hand_over<W: Watch>(stack: &mut Stack, packet: &[u8], at: Arrival, watch: &mut W)
    requires { length packet.now ≤ MAX_MTU }
    ensures { AreCalls stack.old (comes (packet.now ∷ [])) stack.new }
{
    watch.arriving(at.number, at.place, stack, Tallies::default());
    stack.rx(packet);
    watch.arrived(at.number, at.place, stack, Tallies::default());
}
