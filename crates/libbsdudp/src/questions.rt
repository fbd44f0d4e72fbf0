//! The queries, which leave the stack unchanged.
ghost use Rattle.std.specs.Prelude.{◌≡◌, ⊤};
ghost use Rattle.libbsdudp.specs.Calls.{Answers, AnswersQuestion, stack_in};
ghost use Rattle.libbsdudp.specs.Queries.{ReportsCounter, ReportsLimit, ReportsName, ReportsNext, ReportsOldest, ReportsOutput, ReportsPacket, ReportsRange, ReportsReadable, ReportsUnfinished, ReportsUsage, ReportsWaiting};

use crate::asks;
use crate::errors::NO_STACK;
use crate::exchange::with_held;
use crate::handle::Handle;
use crate::plain::{CAddr, CMbstat, CName, CNext, CRange, CUnfinished};

/// Reads the addresses of a socket, and its options. Returns 0, or -EBADF.
///
///     int bsdudp_core_name(struct bsdudp_core *, uint32_t fd, struct bsdudp_name *)
#[tactic(auto, using(crate::proofs::Answered::asked))]
#[unsafe(no_mangle)]
pub extern "C" fn bsdudp_core_name(handle: &mut Handle, fd: u32, name: &mut CName) -> i32
    ensures { Answers (stack_in handle.old) result (stack_in handle.new) (name.new ≡ name.old)
        (AnswersQuestion (ReportsName fd result name.old name.new)) }
{
    with_held!(handle, NO_STACK, held => asks::name(&held.stack, fd, name))
}

/// Returns the size in bytes that was set for a socket's receive queue, 0 if none was set, or -EBADF.
///
///     int bsdudp_core_receive_limit(struct bsdudp_core *, uint32_t fd)
#[tactic(auto, using(crate::proofs::Answered::asked))]
#[unsafe(no_mangle)]
pub extern "C" fn bsdudp_core_receive_limit(handle: &mut Handle, fd: u32) -> i32
    ensures { Answers (stack_in handle.old) result (stack_in handle.new) ⊤ (AnswersQuestion (ReportsLimit fd result)) }
{
    with_held!(handle, NO_STACK, held => asks::receive_limit(&held.stack, fd))
}

/// Reads the sender and the length of the oldest queued datagram of a socket. Returns 0, or a negative error code if
/// the socket has no datagram.
///
///     int bsdudp_core_next(struct bsdudp_core *, uint32_t fd, struct bsdudp_next *)
#[tactic(auto, using(crate::proofs::Answered::asked))]
#[unsafe(no_mangle)]
pub extern "C" fn bsdudp_core_next(handle: &mut Handle, fd: u32, next: &mut CNext) -> i32
    ensures { Answers (stack_in handle.old) result (stack_in handle.new) (next.new ≡ next.old)
        (AnswersQuestion (ReportsNext fd result next.old next.new)) }
{
    with_held!(handle, NO_STACK, held => asks::next(&held.stack, fd, next))
}

/// Copies the first bytes of the oldest queued datagram of a socket, which stays queued. Returns how many bytes were
/// written to the buffer, or a negative error code: what `bsdudp_core_recvfrom` would return.
///
///     int bsdudp_core_peek(struct bsdudp_core *, uint32_t fd, uint8_t *, size_t, struct bsdudp_addr *)
#[unsafe(no_mangle)]
pub extern "C" fn bsdudp_core_peek(
    handle: &mut Handle,
    fd: u32,
    buffer: &mut [u8],
    from: &mut CAddr,
) -> i32
    ensures { Answers (stack_in handle.old) result (stack_in handle.new)
        ((buffer.new ≡ buffer.old) × (from.new ≡ from.old))
        (AnswersQuestion (ReportsOldest fd result buffer.old buffer.new from.old from.new)) }
{
    with_held!(handle, NO_STACK, held => asks::peek(&held.stack, fd, buffer, from))
}

/// Reads the set of sockets that have a queued datagram: bit k is descriptor 3 + k. Returns 0.
///
///     int bsdudp_core_readable(struct bsdudp_core *, uint64_t *set)
#[tactic(auto, using(crate::proofs::Answered::asked))]
#[unsafe(no_mangle)]
pub extern "C" fn bsdudp_core_readable(handle: &mut Handle, set: &mut u64) -> i32
    ensures { Answers (stack_in handle.old) result (stack_in handle.new) (set.new ≡ set.old)
        (AnswersQuestion (ReportsReadable result set.new)) }
{
    with_held!(handle, NO_STACK, held => asks::readable(&held.stack, set))
}

/// Returns the number of packets in the output queue.
///
///     int bsdudp_core_output_len(struct bsdudp_core *)
#[tactic(auto, using(crate::proofs::Answered::asked))]
#[unsafe(no_mangle)]
pub extern "C" fn bsdudp_core_output_len(handle: &mut Handle) -> i32
    ensures { Answers (stack_in handle.old) result (stack_in handle.new) ⊤ (AnswersQuestion (ReportsOutput result)) }
{
    with_held!(handle, NO_STACK, held => asks::output_len(&held.stack))
}

/// Returns the length in bytes of the packet that `tx` takes next, or 0 if the queue is empty.
///
///     int bsdudp_core_next_packet(struct bsdudp_core *)
#[tactic(auto, using(crate::proofs::Answered::asked))]
#[unsafe(no_mangle)]
pub extern "C" fn bsdudp_core_next_packet(handle: &mut Handle) -> i32
    ensures { Answers (stack_in handle.old) result (stack_in handle.new) ⊤ (AnswersQuestion (ReportsPacket result)) }
{
    with_held!(handle, NO_STACK, held => asks::next_packet(&held.stack))
}

/// Reads a counter by its index in the order of printing. Returns 0, or -EINVAL if there is no such counter.
///
///     int bsdudp_core_counter(struct bsdudp_core *, uint32_t which, uint64_t *value)
#[tactic(auto, using(crate::proofs::Answered::asked))]
#[unsafe(no_mangle)]
pub extern "C" fn bsdudp_core_counter(handle: &mut Handle, which: u32, value: &mut u64) -> i32
    ensures { Answers (stack_in handle.old) result (stack_in handle.new) (value.new ≡ value.old)
        (AnswersQuestion (ReportsCounter which result value.old value.new)) }
{
    with_held!(handle, NO_STACK, held => asks::counter(&held.stack, which, value))
}

/// Reads the usage of the pool. Returns 0.
///
///     int bsdudp_core_mbstat(struct bsdudp_core *, struct bsdudp_mbstat *)
#[tactic(auto, using(crate::proofs::Answered::asked))]
#[unsafe(no_mangle)]
pub extern "C" fn bsdudp_core_mbstat(handle: &mut Handle, usage: &mut CMbstat) -> i32
    ensures { Answers (stack_in handle.old) result (stack_in handle.new) (usage.new ≡ usage.old)
        (AnswersQuestion (ReportsUsage result usage.new)) }
{
    with_held!(handle, NO_STACK, held => asks::mbstat(&held.stack, usage))
}

/// Returns the number of unfinished datagrams.
///
///     int bsdudp_core_unfinished_len(struct bsdudp_core *)
#[tactic(auto, using(crate::proofs::Answered::asked))]
#[unsafe(no_mangle)]
pub extern "C" fn bsdudp_core_unfinished_len(handle: &mut Handle) -> i32
    ensures { Answers (stack_in handle.old) result (stack_in handle.new) ⊤ (AnswersQuestion (ReportsWaiting result)) }
{
    with_held!(handle, NO_STACK, held => asks::unfinished_len(&held.stack))
}

/// Reads an unfinished datagram by its index, in the order in which they began. Returns 0, or -EINVAL if there is no
/// such datagram.
///
///     int bsdudp_core_unfinished(struct bsdudp_core *, uint32_t i, struct bsdudp_unfinished *)
#[tactic(auto, using(crate::proofs::Answered::asked))]
#[unsafe(no_mangle)]
pub extern "C" fn bsdudp_core_unfinished(
    handle: &mut Handle,
    i: u32,
    datagram: &mut CUnfinished,
) -> i32
    ensures { Answers (stack_in handle.old) result (stack_in handle.new) (datagram.new ≡ datagram.old)
        (AnswersQuestion (ReportsUnfinished i result datagram.old datagram.new)) }
{
    with_held!(handle, NO_STACK, held => asks::unfinished(&held.stack, i, datagram))
}

/// Reads a range of the bytes of an unfinished datagram by the range's index, in order of offset. Returns 0, or -EINVAL
/// if there is no such range.
///
///     int bsdudp_core_unfinished_range(struct bsdudp_core *, uint32_t i, uint32_t k, struct bsdudp_range *)
#[tactic(auto, using(crate::proofs::Answered::asked))]
#[unsafe(no_mangle)]
pub extern "C" fn bsdudp_core_unfinished_range(
    handle: &mut Handle,
    i: u32,
    k: u32,
    range: &mut CRange,
) -> i32
    ensures { Answers (stack_in handle.old) result (stack_in handle.new) (range.new ≡ range.old)
        (AnswersQuestion (ReportsRange i k result range.old range.new)) }
{
    with_held!(handle, NO_STACK, held => asks::unfinished_range(&held.stack, i, k, range))
}
