//! The calls on a host, with the arguments and results as C has them.
ghost use Rattle.std.specs.Prelude.{◌+◌, ◌≤◌, length};
ghost use Rattle.params.specs.declared.TheConstants.{IP_MAX_PACKET};
ghost use Rattle.flat_ether.specs.declared.sizes.TheConstants.{ETHER_HEADER, ETHER_MTU};
ghost use Rattle.ether_host.specs.Inside.{link_seen};
ghost use Rattle.libbsdudp.specs.Ether.{GivesFrame, Arrives, ArrivesFate, HasFrameFate, HasHostTicked, IsFramed, ReportsAddress, ReportsError, ReportsNeighbour, ReportsTallies, both};

use crate::errors::{
    BAD_LENGTH, CONNECTION_REFUSED, HOST_UNREACHABLE, IN_USE, INVALID, count, refused,
};
use crate::link_plain::{CNeighbour, CTallies};
use crate::plain::CFate;
use ether_host::LinkLayer;
use flat_ether::{AddressState, ETHER_HEADER, ETHER_MTU, NetFault};
use net_stack::Stack;
use params::IP_MAX_PACKET;

/// The longest frame that a host receives, in bytes.
const LONGEST: usize = (ETHER_HEADER + IP_MAX_PACKET) as usize;

/// The buffer size that every frame fits into, in bytes.
const ROOM: usize = (ETHER_HEADER + ETHER_MTU) as usize;

/// Receives a frame.
pub(crate) fn receive(stack: &mut Stack, layer: &mut LinkLayer, frame: &[u8]) -> i32
    ensures { Arrives frame.now result (both stack.old (link_seen layer.old)) (both stack.new (link_seen layer.new)) }
{
    if frame.len() > LONGEST {
        return BAD_LENGTH;
    }
    layer.receive(stack, frame);
    0
}

/// Receives a frame that isn't too long, and returns the fate of its packet.
fn take(stack: &mut Stack, layer: &mut LinkLayer, frame: &[u8]) -> CFate
    requires { length frame.now ≤ ETHER_HEADER + IP_MAX_PACKET }
    ensures { HasFrameFate frame.now result (both stack.old (link_seen layer.old))
        (both stack.new (link_seen layer.new)) }
{
    CFate::of_frame(layer.receive(stack, frame))
}

/// Receives a frame, and writes the fate of its packet.
pub(crate) fn receive_fate(
    stack: &mut Stack,
    layer: &mut LinkLayer,
    frame: &[u8],
    fate: &mut CFate,
) -> i32
    ensures { ArrivesFate frame.now result fate.old fate.new (both stack.old (link_seen layer.old))
        (both stack.new (link_seen layer.new)) }
{
    if frame.len() <= LONGEST {
        *fate = take(stack, layer, frame);
        0
    } else {
        BAD_LENGTH
    }
}

/// Removes the next frame, into a buffer that is long enough.
fn give(stack: &mut Stack, layer: &mut LinkLayer, buffer: &mut [u8]) -> i32
    requires mtu { stack.old.config.mtu ≤ ETHER_MTU }
    requires room { ETHER_HEADER + ETHER_MTU ≤ length buffer.old }
    ensures { GivesFrame buffer.new result (both stack.old (link_seen layer.old))
        (both stack.new (link_seen layer.new)) }
{
    match layer.transmit(stack, buffer) {
        Some(len) => count(len),
        None => 0,
    }
}

/// Removes the next frame.
pub(crate) fn transmit(stack: &mut Stack, layer: &mut LinkLayer, buffer: &mut [u8]) -> i32
    ensures { IsFramed buffer.old buffer.new result (both stack.old (link_seen layer.old))
        (both stack.new (link_seen layer.new)) }
{
    if buffer.len() < ROOM || u32::from(stack.mtu()) > ETHER_MTU {
        return BAD_LENGTH;
    }
    give(stack, layer, buffer)
}

/// Returns the error that other hosts reported about a socket's datagrams: 0 for no report, ECONNREFUSED or
/// EHOSTUNREACH, or a negative error code if the call fails.
pub(crate) fn last_error(stack: &Stack, layer: &mut LinkLayer, fd: u32) -> i32
    ensures { ReportsError fd result (both stack.now (link_seen layer.old)) (both stack.now (link_seen layer.new)) }
{
    match layer.last_error(stack, fd) {
        Ok(None) => 0,
        Ok(Some(NetFault::Refused)) => CONNECTION_REFUSED,
        Ok(Some(NetFault::Unreachable)) => HOST_UNREACHABLE,
        Err(errno) => refused(errno),
    }
}

/// Half a second has passed.
pub(crate) fn tick(stack: &mut Stack, layer: &mut LinkLayer) -> i32
    ensures { HasHostTicked result (both stack.old (link_seen layer.old)) (both stack.new (link_seen layer.new)) }
{
    layer.tick(stack);
    0
}

/// Returns the state of the host's address.
pub(crate) fn address(layer: &LinkLayer) -> i32
    ensures { ReportsAddress result (link_seen layer.now) }
{
    match layer.address() {
        AddressState::Probing => 0,
        AddressState::InUse => 1,
        AddressState::Conflict => IN_USE,
    }
}

/// Reads the counters of the link.
pub(crate) fn tallies(layer: &LinkLayer, tallies: &mut CTallies) -> i32
    ensures { ReportsTallies result tallies.new (link_seen layer.now) }
{
    *tallies = CTallies::of(layer.tallies());
    0
}

/// Reads the neighbour at an index.
pub(crate) fn neighbour(layer: &LinkLayer, i: u32, neighbour: &mut CNeighbour) -> i32
    ensures { ReportsNeighbour i result neighbour.old neighbour.new (link_seen layer.now) }
{
    match layer.neighbours().get(i as usize) {
        Some(reported) => {
            *neighbour = CNeighbour::of(*reported);
            0
        }
        None => INVALID,
    }
}
