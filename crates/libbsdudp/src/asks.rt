//! The queries of a stack, with the arguments and results as C has them.
ghost use Rattle.libbsdudp.specs.Queries.{ReportsCounter, ReportsLimit, ReportsName, ReportsNext, ReportsOldest, ReportsOutput, ReportsPacket, ReportsRange, ReportsReadable, ReportsUnfinished, ReportsUsage, ReportsWaiting};

use crate::errors::{INVALID, count, refused};
use crate::plain::{CAddr, CMbstat, CName, CNext, CRange, CUnfinished};
use flat_model::Counter;
use net_stack::Stack;

/// Reads the addresses of a socket, and its options.
pub(crate) fn name(stack: &Stack, fd: u32, name: &mut CName) -> i32
    ensures { ReportsName fd result name.old name.new stack.now }
{
    match stack.socket_name(fd) {
        Ok(reported) => {
            *name = CName::of(reported);
            0
        }
        Err(errno) => refused(errno),
    }
}

/// Returns the size of a socket's receive queue that was set, or 0.
pub(crate) fn receive_limit(stack: &Stack, fd: u32) -> i32
    ensures { ReportsLimit fd result stack.now }
{
    match stack.receive_limit(fd) {
        Ok(limit) => i32::from(limit),
        Err(errno) => refused(errno),
    }
}

/// Reads the sender and the length of the oldest queued datagram.
pub(crate) fn next(stack: &Stack, fd: u32, next: &mut CNext) -> i32
    ensures { ReportsNext fd result next.old next.new stack.now }
{
    match stack.next_datagram(fd) {
        Ok(reported) => {
            *next = CNext::of(reported);
            0
        }
        Err(errno) => refused(errno),
    }
}

/// Copies the first bytes of the oldest queued datagram, which stays queued.
pub(crate) fn peek(stack: &Stack, fd: u32, buffer: &mut [u8], from: &mut CAddr) -> i32
    ensures { ReportsOldest fd result buffer.old buffer.new from.old from.new stack.now }
{
    match stack.peek(fd, buffer) {
        Ok((sender, len)) => {
            *from = CAddr::of(sender);
            count(len)
        }
        Err(errno) => refused(errno),
    }
}

/// Reads the set of sockets that have a queued datagram.
pub(crate) fn readable(stack: &Stack, set: &mut u64) -> i32
    ensures { ReportsReadable result set.new stack.now }
{
    *set = stack.readable();
    0
}

/// Returns the number of packets in the output queue.
pub(crate) fn output_len(stack: &Stack) -> i32
    ensures { ReportsOutput result stack.now }
{
    count(stack.output_len() as usize)
}

/// Returns the length in bytes of the oldest packet in the output queue.
pub(crate) fn next_packet(stack: &Stack) -> i32
    ensures { ReportsPacket result stack.now }
{
    match stack.next_packet() {
        Some(len) => count(len as usize),
        None => 0,
    }
}

/// Reads a counter by its index.
pub(crate) fn counter(stack: &Stack, which: u32, value: &mut u64) -> i32
    ensures { ReportsCounter which result value.old value.new stack.now }
{
    let counters = stack.counters();
    match Counter::all().get(which as usize) {
        Some(counter) => {
            *value = counters.value(*counter);
            0
        }
        None => INVALID,
    }
}

/// Reads the usage of the pool.
pub(crate) fn mbstat(stack: &Stack, usage: &mut CMbstat) -> i32
    ensures { ReportsUsage result usage.new stack.now }
{
    *usage = CMbstat::of(stack.mbstat());
    0
}

/// Returns the number of unfinished datagrams.
pub(crate) fn unfinished_len(stack: &Stack) -> i32
    ensures { ReportsWaiting result stack.now }
{
    count(stack.unfinished_len() as usize)
}

/// Reads an unfinished datagram by its index.
pub(crate) fn unfinished(stack: &Stack, i: u32, datagram: &mut CUnfinished) -> i32
    ensures { ReportsUnfinished i result datagram.old datagram.new stack.now }
{
    match stack.unfinished(i) {
        Some(reported) => {
            *datagram = CUnfinished::of(reported);
            0
        }
        None => INVALID,
    }
}

/// Reads a range of its bytes by the range's index.
pub(crate) fn unfinished_range(stack: &Stack, i: u32, k: u32, range: &mut CRange) -> i32
    ensures { ReportsRange i k result range.old range.new stack.now }
{
    match stack.unfinished_range(i, k) {
        Some(reported) => {
            *range = CRange::of(reported);
            0
        }
        None => INVALID,
    }
}
