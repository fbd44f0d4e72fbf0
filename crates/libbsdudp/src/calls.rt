//! The calls that change a stack, with the arguments and results as C has them.
ghost use Rattle.std.specs.Prelude.{◌≤◌, length};
ghost use Rattle.params.specs.declared.TheConstants.{IP_MAX_PACKET};
ghost use Rattle.flat_model.specs.Machine.Event.{Bind, Close, Comes, Connect, Done, Send, Set_limit, Set_option, Tick};
ghost use Rattle.libbsdudp.specs.Calls.{GivesPacket, AnswersArrival, AnswersFate, HasFate, HasTicked, AnswersCall, AnswersTransmit, IsOpened, IsReceived, AnswersSend, StepsTo};

use crate::errors::{BAD_LENGTH, count, done, refused};
use crate::plain::{CAddr, CFate};
use flat_model::{Addr, Opt};
use net_stack::Stack;
use params::IP_MAX_PACKET;

/// Opens a socket.
pub(crate) fn socket(stack: &mut Stack) -> i32
    ensures { IsOpened result stack.old stack.new }
{
    match stack.socket() {
        Ok(fd) => count(fd as usize),
        Err(errno) => refused(errno),
    }
}

/// Binds a socket to a local address and port.
pub(crate) fn bind(stack: &mut Stack, fd: u32, local: Addr) -> i32
    ensures { AnswersCall (Bind fd local) result stack.old stack.new }
{
    done(stack.bind(fd, local))
}

/// Connects a socket.
pub(crate) fn connect(stack: &mut Stack, fd: u32, to: Addr) -> i32
    ensures { AnswersCall (Connect fd to) result stack.old stack.new }
{
    done(stack.connect(fd, to))
}

/// Closes a socket.
pub(crate) fn close(stack: &mut Stack, fd: u32) -> i32
    ensures { AnswersCall (Close fd) result stack.old stack.new }
{
    done(stack.close(fd))
}

/// Sets or clears an option.
// Not inlined: two exports call it, and no program calls them for each datagram.
#[inline(never)]
pub(crate) fn set(stack: &mut Stack, fd: u32, option: Opt, on: bool) -> i32
    ensures { AnswersCall (Set_option fd option on) result stack.old stack.new }
{
    done(stack.setsockopt(fd, option, on))
}

/// Sets the size of a receive queue.
pub(crate) fn limit(stack: &mut Stack, fd: u32, bytes: u16) -> i32
    ensures { AnswersCall (Set_limit fd bytes) result stack.old stack.new }
{
    done(stack.set_receive_limit(fd, bytes))
}

/// Sends a datagram to an address, or without one to the peer.
pub(crate) fn send(stack: &mut Stack, fd: u32, to: Option<Addr>, bytes: &[u8]) -> i32
    ensures { AnswersSend (Send fd to bytes.now) result stack.old stack.new }
{
    match stack.sendto(fd, to, bytes) {
        Ok(len) => count(len),
        Err(errno) => refused(errno),
    }
}

/// Removes the oldest queued datagram.
pub(crate) fn receive(stack: &mut Stack, fd: u32, buffer: &mut [u8], from: &mut CAddr) -> i32
    ensures { IsReceived fd result buffer.old buffer.new from.old from.new stack.old stack.new }
{
    match stack.recvfrom(fd, buffer) {
        Ok((sender, len)) => {
            *from = CAddr::of(sender);
            count(len)
        }
        Err(errno) => refused(errno),
    }
}

/// Passes a packet that isn't too long to the stack.
fn come(stack: &mut Stack, packet: &[u8])
    requires { length packet.now ≤ IP_MAX_PACKET }
    ensures { StepsTo (Comes packet.now) Done stack.old stack.new }
{
    stack.rx(packet);
}

/// Passes a packet to the stack.
pub(crate) fn rx(stack: &mut Stack, packet: &[u8]) -> i32
    ensures { AnswersArrival packet.now result stack.old stack.new }
{
    if packet.len() > IP_MAX_PACKET as usize {
        return BAD_LENGTH;
    }
    come(stack, packet);
    0
}

/// Passes a packet that isn't too long to the stack, and returns its fate.
fn come_told(stack: &mut Stack, packet: &[u8]) -> CFate
    requires { length packet.now ≤ IP_MAX_PACKET }
    ensures { HasFate packet.now result stack.old stack.new }
{
    CFate::of(stack.rx_told(packet))
}

/// Passes a packet to the stack, and writes its fate.
pub(crate) fn rx_fate(stack: &mut Stack, packet: &[u8], fate: &mut CFate) -> i32
    ensures { AnswersFate packet.now result fate.old fate.new stack.old stack.new }
{
    if packet.len() <= IP_MAX_PACKET as usize {
        *fate = come_told(stack, packet);
        0
    } else {
        BAD_LENGTH
    }
}

/// Removes the oldest packet of the output queue, into a buffer that is long enough.
fn give(stack: &mut Stack, buffer: &mut [u8]) -> i32
    requires { stack.old.config.mtu ≤ length buffer.old }
    ensures { GivesPacket buffer.old buffer.new result stack.old stack.new }
{
    match stack.tx(buffer) {
        Some(len) => count(len),
        None => 0,
    }
}

/// Removes the oldest packet of the output queue.
pub(crate) fn tx(stack: &mut Stack, buffer: &mut [u8]) -> i32
    ensures { AnswersTransmit buffer.old buffer.new result stack.old stack.new }
{
    if buffer.len() < stack.mtu() as usize {
        return BAD_LENGTH;
    }
    give(stack, buffer)
}

/// Passes a clock tick to the stack.
fn pass(stack: &mut Stack)
    ensures { StepsTo Tick Done stack.old stack.new }
{
    stack.tick();
}

/// Half a second passed.
pub(crate) fn tick(stack: &mut Stack) -> i32
    ensures { HasTicked result Tick stack.old stack.new }
{
    pass(stack);
    0
}
