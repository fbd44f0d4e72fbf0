//! The single entry point for calls to a stack.
ghost use Rattle.std.specs.Prelude.{◌≡◌, ◌≤◌, length};
ghost use Rattle.params.specs.declared.TheConstants.{IP_MAX_PACKET, MAX_MTU};
ghost use Rattle.flat_model.specs.Machine.Event.{Receive, Transmit};
ghost use Rattle.flat_model.specs.Machine.Replies.{done_reply, opened_reply, sent_reply};
ghost use Rattle.net_stack.specs.Stack.{state_of};
ghost use Rattle.request.specs.Requests.{event_of, room_of};
ghost use Rattle.request.specs.Replies.{reply_of, len_of};
ghost use Rattle.stack_call.specs.Inside.{IsBare};
ghost use Rattle.stack_call.specs.Moves.{StackSteps};

use flat_model::Errno;
use net_stack::Stack;
use request::{Reply, Request};

/// Returns the reply of a call without a result of its own.
fn done(outcome: Result<(), Errno>) -> Reply<'static>
    ensures { IsBare result (done_reply outcome) }
{
    match outcome {
        Ok(()) => Reply::Done,
        Err(errno) => Reply::Refused(errno),
    }
}

/// Returns the reply of `socket`.
fn opened(outcome: Result<u32, Errno>) -> Reply<'static>
    ensures { IsBare result (opened_reply outcome) }
{
    match outcome {
        Ok(fd) => Reply::Opened(fd),
        Err(errno) => Reply::Refused(errno),
    }
}

/// Returns the reply of a send.
fn sent(outcome: Result<usize, Errno>) -> Reply<'static>
    ensures { IsBare result (sent_reply outcome) }
{
    match outcome {
        Ok(len) => Reply::Sent(len),
        Err(errno) => Reply::Refused(errno),
    }
}

/// Receives at most `buffer.len()` bytes.
#[tactic(auto, unfolding(crate::specs::Moves::StackSteps))]
fn receive<'r>(stack: &mut Stack, fd: u32, buffer: &'r mut [u8]) -> Reply<'r>
    ensures step { StackSteps (state_of stack.old) (Receive fd (length buffer.old)) (reply_of result)
        (state_of stack.new) }
    ensures len { len_of result ≤ length buffer.old }
{
    match stack.recvfrom(fd, buffer) {
        Ok((sender, len)) => Reply::Received(sender, &buffer[..len]),
        Err(errno) => Reply::Refused(errno),
    }
}

/// Lets the link take the oldest packet.
#[tactic(auto, unfolding(crate::specs::Moves::StackSteps))]
fn transmit<'r>(stack: &mut Stack, buffer: &'r mut [u8]) -> Reply<'r>
    requires { MAX_MTU ≤ length buffer.old }
    ensures step { StackSteps (state_of stack.old) Transmit (reply_of result) (state_of stack.new) }
    ensures len { len_of result ≤ length buffer.old }
{
    stack.laws();
    match stack.tx(buffer) {
        Some(len) => Reply::Given(Some(&buffer[..len])),
        None => Reply::Given(None),
    }
}

/// Makes the call that a request describes, and returns its reply. The bytes of the reply are at the front of `buffer`.
#[tactic(auto, unfolding(crate::specs::Moves::StackSteps))]
pub fn call<'r>(stack: &mut Stack, request: Request<'_>, buffer: &'r mut [u8]) -> Reply<'r>
    requires fits { room_of request ≤ IP_MAX_PACKET }
    requires room { length buffer.old ≡ IP_MAX_PACKET }
    ensures step { StackSteps (state_of stack.old) (event_of request.entry) (reply_of result) (state_of stack.new) }
    ensures len { len_of result ≤ IP_MAX_PACKET }
{
    match request {
        Request::Socket => opened(stack.socket()),
        Request::Bind(fd, local) => done(stack.bind(fd, local)),
        Request::Connect(fd, peer) => done(stack.connect(fd, peer)),
        Request::Send(fd, to, bytes) => sent(stack.sendto(fd, to, bytes)),
        Request::Receive(fd, most) => receive(stack, fd, &mut buffer[..most]),
        Request::Close(fd) => done(stack.close(fd)),
        Request::SetOption(fd, option, on) => done(stack.setsockopt(fd, option, on)),
        Request::Packet(bytes) => {
            stack.rx(bytes);
            Reply::Done
        }
        Request::Transmit => transmit(stack, buffer),
        Request::Tick => {
            stack.tick();
            Reply::Done
        }
        Request::Counters => Reply::Counted(stack.counters()),
        Request::Usage => Reply::Shown(stack.mbstat()),
    }
}
