//! The action of a line on a machine, and the machine's reply.
ghost use Rattle.std.specs.Prelude.{◌≡◌, ◌≤◌, length, replicate, IfSome};
ghost use Rattle.params.specs.declared.TheConstants.{IP_MAX_PACKET};
ghost use Rattle.flat_model.specs.Machine.Event.{Done, Set_limit, Tick};
ghost use Rattle.net_stack.specs.Stack.{state_of};
ghost use Rattle.request.specs.Replies.{len_of, packet_behind, reply_of};
ghost use Rattle.stack_call.specs.Moves.{StackSteps};
ghost use Rattle.request.specs.Requests.{event_of};
ghost use Rattle.play_script.specs.Captures as captures;
ghost use Rattle.play_script.specs.Actions.{Does, moved_in};
ghost use Rattle.play_script.specs.Inside as inside;
ghost use Rattle.play_script.specs.Inside.{events_of, most_of};

use net_stack::Stack;
use request::{Reply, Request};
use stack_call::call;

/// The action of a line on a machine.
#[derive(Clone, Copy)]
pub enum Action<'a> {
    /// One call.
    Call(Request<'a>),
    /// Setting the size of a descriptor's receive queue.
    Limit(u32, u16),
    /// This many ticks.
    Ticks(u32),
}

/// Sets the size of a descriptor's receive queue, and returns the reply of the call.
#[tactic(auto, unfolding(stack_call::specs::Moves::StackSteps))]
pub fn set_limit(stack: &mut Stack, fd: u32, limit: u16) -> Reply<'static>
    ensures step { StackSteps (state_of stack.old) (Set_limit fd limit) (reply_of result) (state_of stack.new) }
    ensures len { len_of result ≡ 0 }
{
    match stack.set_receive_limit(fd, limit) {
        Ok(()) => Reply::Done,
        Err(errno) => Reply::Refused(errno),
    }
}

/// Lets this many ticks pass.
#[tactic(auto, unfolding(stack_call::specs::Moves::StackSteps))]
pub(crate) fn tick_all(stack: &mut Stack, count: u32)
    ensures { Does StackSteps (state_of stack.old) (replicate count Tick) Done (state_of stack.new) }
{
    let mut left = count;
    while left > 0 {
        stack.tick();
        left -= 1;
    }
}

/// Performs an action. The bytes of the reply are in `buffer`.
pub(crate) fn perform<'r>(stack: &mut Stack, action: Action<'_>, buffer: &'r mut [u8]) -> Reply<'r>
    requires fits { most_of action ≤ IP_MAX_PACKET }
    requires buffer { length buffer.old ≡ IP_MAX_PACKET }
    ensures does { Does StackSteps (state_of stack.old) (events_of action.entry) (reply_of result)
        (state_of stack.new) }
    ensures len { len_of result ≤ IP_MAX_PACKET }
{
    match action {
        Action::Call(request) => call(stack, request, buffer),
        Action::Limit(fd, limit) => set_limit(stack, fd, limit),
        Action::Ticks(count) => {
            tick_all(stack, count);
            Reply::Done
        }
    }
}

/// Returns the packet in a reply to `tx`, if there is one.
fn given<'a>(reply: &Reply<'a>) -> Option<&'a [u8]>
    requires { len_of reply.now ≤ IP_MAX_PACKET }
    ensures packet { packet_behind result ≡ captures.given_packet (reply_of reply.now) }
    ensures fits { IfSome result (λ p. length p.now ≤ IP_MAX_PACKET) }
{
    match *reply {
        Reply::Given(packet) => packet,
        _ => None,
    }
}

/// Returns the packet that arrives or leaves by an action with this reply.
pub(crate) fn moved_by<'a>(action: &Action<'a>, reply: &Reply<'a>) -> Option<&'a [u8]>
    requires action { most_of action.now ≤ IP_MAX_PACKET }
    requires reply { len_of reply.now ≤ IP_MAX_PACKET }
    ensures packet { packet_behind result ≡ moved_in (events_of action.now) (reply_of reply.now) }
    ensures fits { IfSome result (λ p. length p.now ≤ IP_MAX_PACKET) }
{
    match *action {
        Action::Call(Request::Packet(packet)) => Some(packet),
        Action::Call(Request::Transmit) => given(reply),
        Action::Call(_) | Action::Limit(_, _) => None,
        Action::Ticks(_) => None,
    }
}

/// Returns how many ticks an action lets pass.
pub(crate) fn ticks_of(action: &Action<'_>) -> u32
    ensures { result ≡ inside.ticks_of action.now }
{
    match *action {
        Action::Call(Request::Tick) => 1,
        Action::Call(_) | Action::Limit(_, _) => 0,
        Action::Ticks(count) => count,
    }
}

/// Returns whether a call changes neither a counter nor the pool nor a queue.
fn is_still(request: &Request<'_>) -> bool
    ensures { result ≡ inside.is_still (event_of request.now) }
{
    match *request {
        Request::Socket | Request::Bind(_, _) | Request::Connect(_, _) => true,
        Request::SetOption(_, _, _) | Request::Counters | Request::Usage => true,
        Request::Send(_, _, _) | Request::Receive(_, _) | Request::Close(_) => false,
        Request::Packet(_) | Request::Transmit | Request::Tick => false,
    }
}

/// Returns the same for an action.
pub(crate) fn is_still_action(action: &Action<'_>) -> bool
    ensures { result ≡ inside.is_still_action action.now }
{
    match *action {
        Action::Call(request) => is_still(&request),
        Action::Limit(_, _) => true,
        Action::Ticks(_) => false,
    }
}
