//! The routes of packets: from a frame to the stack, and from the stack into frames.
ghost use Rattle.std.specs.Prelude.{◌≡◌, ◌+◌, ◌≤◌, drop, length, IfSome};
ghost use Rattle.params.specs.declared.TheConstants.{IP_MAX_PACKET};
ghost use Rattle.flat_model.specs.Machine.Event.{Transmit};
ghost use Rattle.flat_model.specs.Machine.Fate.{Fated};
ghost use Rattle.flat_model.specs.Machine.Replies.{given_reply};
ghost use Rattle.flat_model.specs.Machine.Step.{Step};
ghost use Rattle.flat_ether.specs.Frames.{body_of};
ghost use Rattle.flat_ether.specs.Hosts.{answers, drained, makes_place, with_output_left};
ghost use Rattle.flat_ether.specs.Options.{plain};
ghost use Rattle.flat_ether.specs.declared.sizes.TheConstants.{ETHER_HEADER, ETHER_MTU};
ghost use Rattle.net_stack.specs.Stack.{state_of};
ghost use Rattle.ether_host.specs.Fronts.{buffer_front};
ghost use Rattle.ether_host.specs.Inside.{link_seen};

use crate::bytes::mac_at;
use crate::frames::{BODY, body_of};
use crate::layer::LinkLayer;
use crate::options::{has_options, receive_plain};
use flat_model::Fate;
use net_stack::Stack;

impl LinkLayer {
    /// The stack receives a packet without its options.
    fn pass(&mut self, stack: &mut Stack, came: &[u8]) -> Fate
        requires { length came.now ≤ IP_MAX_PACKET }
        ensures fate { Fated (state_of stack.old) (plain came.now) result (state_of stack.new) }
        ensures link { link_seen self.new ≡ makes_place came.now (link_seen self.old) }
    {
        if !has_options(came) {
            return stack.rx_told(came);
        }
        self.make_place();
        receive_plain(stack, &mut self.held, came)
    }
}

/// A frame with a packet arrives: the stack receives the packet without its options, and the link may queue a reply.
/// Returns the packet's fate.
pub(crate) fn take_packet(stack: &mut Stack, layer: &mut LinkLayer, frame: &[u8]) -> Fate
    requires long { ETHER_HEADER ≤ length frame.now }
    requires most { length frame.now ≤ ETHER_HEADER + IP_MAX_PACKET }
    ensures fate { Fated (state_of stack.old) (plain (body_of frame.now)) result (state_of stack.new) }
    ensures link { link_seen layer.new
        ≡ answers frame.now result (makes_place (body_of frame.now) (link_seen layer.old)) }
{
    let packet = body_of(frame);
    let fate = layer.pass(stack, packet);
    if mac_at(frame, 0).is(layer.link.mac) {
        layer.answer_fate(packet, fate);
    }
    fate
}

/// Removes the packet that has waited longest from the stack, and puts it after the place of a header.
fn take(stack: &mut Stack, buffer: &mut [u8]) -> Option<usize>
    requires mtu { stack.old.config.mtu ≤ ETHER_MTU }
    requires room { ETHER_HEADER + ETHER_MTU ≤ length buffer.old }
    ensures step { Step (state_of stack.old) Transmit (given_reply result (drop ETHER_HEADER buffer.new))
        (state_of stack.new) }
    ensures fits { IfSome result (λ n. ETHER_HEADER + n ≤ length buffer.new) }
{
    stack.tx(&mut buffer[BODY..])
}

/// Removes packets from the stack until one is sent.
pub(crate) fn drain(stack: &mut Stack, layer: &mut LinkLayer, buffer: &mut [u8]) -> Option<usize>
    requires mtu { stack.old.config.mtu ≤ ETHER_MTU }
    requires room { ETHER_HEADER + ETHER_MTU ≤ length buffer.old }
    ensures frame { buffer_front result buffer.new ≡ (drained (state_of stack.old).output (link_seen layer.old)).frame }
    ensures link { link_seen layer.new ≡ (drained (state_of stack.old).output (link_seen layer.old)).link }
    ensures stack { state_of stack.new
        ≡ with_output_left (state_of stack.old) (drained (state_of stack.old).output (link_seen layer.old)).output }
    ensures fits { IfSome result (λ n. n ≤ length buffer.new) }
{
    while let Some(len) = take(stack, buffer) {
        if let Some(len) = layer.send(buffer, len) {
            return Some(len);
        }
    }
    None
}
