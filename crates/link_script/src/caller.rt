//! A stack whose calls are made by script lines.
ghost use Rattle.std.specs.Prelude.{◌≡◌, ◌*◌, ◌≤◌, ◌++◌, List, ℕ, length};
ghost use Rattle.params.specs.declared.TheConstants.{IP_MAX_PACKET};
ghost use Rattle.flat_model.specs.Machine.State.{State};
ghost use Rattle.net_stack.specs.Stack.{state_of};
ghost use Rattle.stack_call.specs.Moves.{StackSteps};
ghost use Rattle.link_script.specs.Says.{SaysBy};

use net_stack::Stack;
use params::IP_MAX_PACKET;
use request::{TEXT, put_line, request_of};
use script_loop::{Answers, Buffer, HELD, LineBuffers};
use stack_call::call;

/// Appends the stack's reply to a line to the text. `bytes` is scratch memory for the bytes of a reply. `digits` is
/// scratch memory for the bytes of the line, and then for the digits of the reply.
fn put_answer(
    stack: &mut Stack,
    bytes: &mut [u8],
    digits: &mut [u8],
    line: &[u8],
    text: &mut Buffer<TEXT>,
)
    requires text { length text.old ≤ HELD }
    requires bytes { length bytes.old ≡ IP_MAX_PACKET }
    requires digits { length digits.old ≡ 2 * IP_MAX_PACKET }
    ensures { (reply : List ℕ)
        × SaysBy StackSteps (state_of stack.old) line.now reply (state_of stack.new)
        × (text.new ≡ text.old ++ reply) }
{
    let (named, _) = digits.split_at_mut(IP_MAX_PACKET as usize);
    match request_of(line, named) {
        Some(request) => {
            let reply = call(stack, request, bytes);
            put_line(text, digits, &reply);
        }
        None => text.append(b"? line\n"),
    }
}

/// A stack, and the memory for the work on one line. A line makes the call that it requests. The reply is the text of
/// the call's result, or `? line` if the line requests nothing. The stack must be consumed by `end`.
pub struct Caller {
    /// The stack that executes the calls.
    pub machine: Stack,
    /// Scratch memory for the bytes of a line and the digits of its reply.
    pub buffers: LineBuffers,
}

impl Answers<TEXT> for Caller {
    ghost State = { State };

    ghost state = { λ c. state_of c.machine };

    ghost may_answer = { SaysBy StackSteps };

    fn answer(&mut self, line: &[u8], text: &mut Buffer<TEXT>) {
        put_answer(
            &mut self.machine,
            self.buffers.bytes.as_mut_slice(),
            self.buffers.digits.as_mut_slice(),
            line,
            text,
        );
    }
}
