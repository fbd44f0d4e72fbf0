//! A request to a stack, and its reply.
ghost use Rattle.std.specs.Prelude.{◌≡◌, length};
ghost use Rattle.params.specs.declared.TheConstants.{IP_MAX_PACKET};

use net_stack::Stack;
use request::{Reply, Request};
use stack_call::call;

/// Lets the link take the oldest packet into `buffer`, and returns its length. Returns `None` if the output queue is
/// empty.
pub fn taken_len(stack: &mut Stack, buffer: &mut [u8]) -> Option<usize>
    requires { length buffer.old ≡ IP_MAX_PACKET }
{
    match call(stack, Request::Transmit, buffer) {
        Reply::Given(Some(packet)) => Some(packet.len()),
        _ => None,
    }
}
