//! The stack as a C program calls it. Each call takes a handle, which C holds. A handle has no stack if all its bytes
//! are 0, and none after `bsdudp_core_end`. A call on such a handle returns -ENXIO and does nothing.
#![tactic(auto)]

ghost use Rattle.std.specs.Prelude.{◌≡◌, None, Some, ⊤};
ghost use Rattle.flat_model.specs.Machine.Event.{Bind, Close, Connect, Send, Set_limit, Set_option, Tick};
ghost use Rattle.flat_model.specs.declared.option.Opt.TheVariants.{Broadcast, ReusePort};
ghost use Rattle.libbsdudp.specs.Calls.{Answers, AnswersArrival, AnswersFate, HasTicked, AnswersCall, AnswersTransmit, IsOpened, IsReceived, AnswersSend, stack_in};
ghost use Rattle.libbsdudp.specs.Plain.{addr_of};

mod asks;
mod calls;
mod convert;
mod errors;
mod ether;
mod ether_calls;
mod exchange;
mod handle;
mod held;
mod life;
mod link_convert;
mod link_exchange;
mod link_handle;
mod link_held;
mod link_owned;
mod link_plain;
mod mark;
mod owned;
mod parts;
mod plain;
mod questions;

use errors::NO_STACK;
use exchange::with_held;
use flat_model::Opt;
use handle::Handle;
use plain::{CAddr, CFate};

/// Receives a packet. Returns 0, or -EMSGSIZE if it has more than 65,535 bytes.
///
///     int bsdudp_core_rx(struct bsdudp_core *, const uint8_t *packet, size_t len)
#[tactic(auto, using(crate::proofs::Answered::answered))]
#[unsafe(no_mangle)]
pub extern "C" fn bsdudp_core_rx(handle: &mut Handle, packet: &[u8]) -> i32
    ensures { Answers (stack_in handle.old) result (stack_in handle.new) ⊤ (AnswersArrival packet.now result) }
{
    with_held!(handle, NO_STACK, held => calls::rx(&mut held.stack, packet))
}

/// Receives a packet as `bsdudp_core_rx` does, and writes its fate. Returns 0, or -EMSGSIZE if it has more
/// than 65,535 bytes.
///
///     int bsdudp_core_rx_fate(struct bsdudp_core *, const uint8_t *packet, size_t len, struct bsdudp_fate *)
#[tactic(auto, using(crate::proofs::Answered::answered))]
#[unsafe(no_mangle)]
pub extern "C" fn bsdudp_core_rx_fate(handle: &mut Handle, packet: &[u8], fate: &mut CFate) -> i32
    ensures { Answers (stack_in handle.old) result (stack_in handle.new) (fate.new ≡ fate.old)
        (AnswersFate packet.now result fate.old fate.new) }
{
    with_held!(handle, NO_STACK, held => calls::rx_fate(&mut held.stack, packet, fate))
}

/// Takes the oldest packet of the output queue. Returns its length in bytes, or 0 if the queue is empty; -EMSGSIZE if
/// the buffer has fewer bytes than the MTU.
///
///     int bsdudp_core_tx(struct bsdudp_core *, uint8_t *room, size_t len)
#[tactic(auto, using(crate::proofs::Answered::answered))]
#[unsafe(no_mangle)]
pub extern "C" fn bsdudp_core_tx(handle: &mut Handle, buffer: &mut [u8]) -> i32
    ensures { Answers (stack_in handle.old) result (stack_in handle.new) (buffer.new ≡ buffer.old)
        (AnswersTransmit buffer.old buffer.new result) }
{
    with_held!(handle, NO_STACK, held => calls::tx(&mut held.stack, buffer))
}

/// Half a second has passed. Returns 0.
///
///     int bsdudp_core_tick(struct bsdudp_core *)
#[tactic(auto, using(crate::proofs::Answered::answered))]
#[unsafe(no_mangle)]
pub extern "C" fn bsdudp_core_tick(handle: &mut Handle) -> i32
    ensures { Answers (stack_in handle.old) result (stack_in handle.new) ⊤ (HasTicked result Tick) }
{
    with_held!(handle, NO_STACK, held => calls::tick(&mut held.stack))
}

/// Opens a socket. Returns its descriptor, or a negative error code.
///
///     int bsdudp_core_socket(struct bsdudp_core *)
#[tactic(auto, using(crate::proofs::Answered::answered))]
#[unsafe(no_mangle)]
pub extern "C" fn bsdudp_core_socket(handle: &mut Handle) -> i32
    ensures { Answers (stack_in handle.old) result (stack_in handle.new) ⊤ (IsOpened result) }
{
    with_held!(handle, NO_STACK, held => calls::socket(&mut held.stack))
}

/// Binds a socket to a local address and port. Returns 0, or a negative error code.
///
///     int bsdudp_core_bind(struct bsdudp_core *, uint32_t fd, const struct bsdudp_addr *)
#[tactic(auto, using(crate::proofs::Answered::answered))]
#[unsafe(no_mangle)]
pub extern "C" fn bsdudp_core_bind(handle: &mut Handle, fd: u32, local: &CAddr) -> i32
    ensures { Answers (stack_in handle.old) result (stack_in handle.new) ⊤
        (AnswersCall (Bind fd (addr_of local.now)) result) }
{
    with_held!(handle, NO_STACK, held => calls::bind(&mut held.stack, fd, local.addr()))
}

/// Connects a socket. Returns 0, or a negative error code.
///
///     int bsdudp_core_connect(struct bsdudp_core *, uint32_t fd, const struct bsdudp_addr *)
#[tactic(auto, using(crate::proofs::Answered::answered))]
#[unsafe(no_mangle)]
pub extern "C" fn bsdudp_core_connect(handle: &mut Handle, fd: u32, to: &CAddr) -> i32
    ensures { Answers (stack_in handle.old) result (stack_in handle.new) ⊤
        (AnswersCall (Connect fd (addr_of to.now)) result) }
{
    with_held!(handle, NO_STACK, held => calls::connect(&mut held.stack, fd, to.addr()))
}

/// Sends a datagram to an address. Returns its length in bytes, or a negative error code.
///
///     int bsdudp_core_sendto(struct bsdudp_core *, uint32_t fd, const struct bsdudp_addr *, const uint8_t *, size_t)
#[tactic(auto, using(crate::proofs::Answered::answered))]
#[unsafe(no_mangle)]
pub extern "C" fn bsdudp_core_sendto(handle: &mut Handle, fd: u32, to: &CAddr, bytes: &[u8]) -> i32
    ensures { Answers (stack_in handle.old) result (stack_in handle.new) ⊤
        (AnswersSend (Send fd (Some (addr_of to.now)) bytes.now) result) }
{
    with_held!(handle, NO_STACK, held => calls::send(&mut held.stack, fd, Some(to.addr()), bytes))
}

/// Sends a datagram to the peer. Returns its length in bytes, or a negative error code.
///
///     int bsdudp_core_send(struct bsdudp_core *, uint32_t fd, const uint8_t *, size_t)
#[tactic(auto, using(crate::proofs::Answered::answered))]
#[unsafe(no_mangle)]
pub extern "C" fn bsdudp_core_send(handle: &mut Handle, fd: u32, bytes: &[u8]) -> i32
    ensures { Answers (stack_in handle.old) result (stack_in handle.new) ⊤
        (AnswersSend (Send fd None bytes.now) result) }
{
    with_held!(handle, NO_STACK, held => calls::send(&mut held.stack, fd, None, bytes))
}

/// Takes the oldest queued datagram. Returns how many bytes were written to the buffer, or a negative error code.
///
///     int bsdudp_core_recvfrom(struct bsdudp_core *, uint32_t fd, uint8_t *, size_t, struct bsdudp_addr *)
#[tactic(auto, using(crate::proofs::Answered::answered))]
#[unsafe(no_mangle)]
pub extern "C" fn bsdudp_core_recvfrom(
    handle: &mut Handle,
    fd: u32,
    buffer: &mut [u8],
    from: &mut CAddr,
) -> i32
    ensures { Answers (stack_in handle.old) result (stack_in handle.new)
        ((buffer.new ≡ buffer.old) × (from.new ≡ from.old)) (IsReceived fd result buffer.old buffer.new
        from.old from.new) }
{
    with_held!(handle, NO_STACK, held => calls::receive(&mut held.stack, fd, buffer, from))
}

/// Closes a socket. Returns 0, or a negative error code.
///
///     int bsdudp_core_close(struct bsdudp_core *, uint32_t fd)
#[tactic(auto, using(crate::proofs::Answered::answered))]
#[unsafe(no_mangle)]
pub extern "C" fn bsdudp_core_close(handle: &mut Handle, fd: u32) -> i32
    ensures { Answers (stack_in handle.old) result (stack_in handle.new) ⊤ (AnswersCall (Close fd) result) }
{
    with_held!(handle, NO_STACK, held => calls::close(&mut held.stack, fd))
}

/// Sets whether a socket may send broadcasts. Returns 0, or a negative error code.
///
///     int bsdudp_core_set_broadcast(struct bsdudp_core *, uint32_t fd, bool on)
#[tactic(auto, using(crate::proofs::Answered::answered))]
#[unsafe(no_mangle)]
pub extern "C" fn bsdudp_core_set_broadcast(handle: &mut Handle, fd: u32, on: bool) -> i32
    ensures { Answers (stack_in handle.old) result (stack_in handle.new) ⊤
        (AnswersCall (Set_option fd Broadcast on) result) }
{
    with_held!(handle, NO_STACK, held => calls::set(&mut held.stack, fd, Opt::Broadcast, on))
}

/// Sets whether a socket's address and port may be shared. Returns 0, or a negative error code.
///
///     int bsdudp_core_set_reuse_port(struct bsdudp_core *, uint32_t fd, bool on)
#[tactic(auto, using(crate::proofs::Answered::answered))]
#[unsafe(no_mangle)]
pub extern "C" fn bsdudp_core_set_reuse_port(handle: &mut Handle, fd: u32, on: bool) -> i32
    ensures { Answers (stack_in handle.old) result (stack_in handle.new) ⊤
        (AnswersCall (Set_option fd ReusePort on) result) }
{
    with_held!(handle, NO_STACK, held => calls::set(&mut held.stack, fd, Opt::ReusePort, on))
}

/// Sets the size in bytes of a socket's receive queue. Returns 0, or a negative error code.
///
///     int bsdudp_core_set_receive_limit(struct bsdudp_core *, uint32_t fd, uint16_t limit)
#[tactic(auto, using(crate::proofs::Answered::answered))]
#[unsafe(no_mangle)]
pub extern "C" fn bsdudp_core_set_receive_limit(handle: &mut Handle, fd: u32, limit: u16) -> i32
    ensures { Answers (stack_in handle.old) result (stack_in handle.new) ⊤
        (AnswersCall (Set_limit fd limit) result) }
{
    with_held!(handle, NO_STACK, held => calls::limit(&mut held.stack, fd, limit))
}
