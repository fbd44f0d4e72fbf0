//! The host at which the packets of a capture arrive.
ghost use Rattle.std.specs.Prelude.{◌≡◌, ◌≤◌, length};
ghost use Rattle.params.specs.declared.TheConstants.{IP_MAX_PACKET};
ghost use Rattle.flat_model.specs.Machine.Event.{Comes, Done};
ghost use Rattle.stack_call.specs.Moves.{StackSteps};
ghost use Rattle.net_stack.specs.Stack.{state_of};

use flat_model::Counters;
use net_stack::Stack;
use request::Request;
use stack_call::call;

/// A stack, and the address for which its packets are judged. The stack must be consumed by its `end`.
pub(crate) struct Host {
    pub(crate) stack: Stack,
    /// The host's IPv4 address.
    pub(crate) address: u32,
}

/// Returns the counters of a machine.
#[tactic(auto, unfolding(stack_call::specs::Moves::StackSteps))]
pub(crate) fn counters_of(machine: &Stack) -> Counters
    ensures { result ≡ (state_of machine.now).counters }
{
    machine.counters()
}

/// Lets a packet arrive, by the one call that a machine has for all requests.
pub(crate) fn arrive(machine: &mut Stack, packet: &[u8], buffer: &mut [u8])
    requires packet { length packet.now ≤ IP_MAX_PACKET }
    requires buffer { length buffer.old ≡ IP_MAX_PACKET }
    ensures { StackSteps (state_of machine.old) (Comes packet.now) Done (state_of machine.new) }
{
    let _reply = call(machine, Request::Packet(packet), buffer);
}
