//! The destination of a send, and its errors that don't depend on buffers.
ghost use Rattle.std.specs.Prelude.{◌≡◌, ◌≢◌, ℕ, ◌+◌, ◌≤◌, Ok, Some, IfNone, IfOk, IfSome, OnOk, true};
ghost use Rattle.flat_model.specs.Packets.Header.{first_fault};
ghost use Rattle.pcb_table.specs.Table.{block_at};
ghost use Rattle.sock_calls.specs.Inside.Destination.{early_faults, broadcast_faults, FindsTarget, ChecksSend};

use flat_model::{Addr, Errno};
use params::{IP_UDP_HEADERS, LOOPBACK, UDP_SEND_SPACE};
use pcb_table::{Block, Pcbs};

/// The tests before those of the address: that there is an address, and that there aren't too many bytes.
#[inline(always)]
fn early_fault(to: Option<Addr>, peer: Option<Addr>, len: usize) -> Option<Errno>
    ensures fault { result ≡ first_fault (early_faults to peer len) }
    ensures few { IfNone result (len ≤ UDP_SEND_SPACE) }
{
    if to.is_none() && peer.is_none() {
        return Some(Errno::DestinationRequired);
    }
    if len > UDP_SEND_SPACE as usize {
        return Some(Errno::MessageSize);
    }
    None
}

/// The destination: the address given, after `check_destination_of`, or otherwise the peer's.
#[inline(always)]
fn target_of(pcbs: &Pcbs, block: &Block, to: Option<Addr>) -> Result<Addr, Errno>
    requires { block_at block.now.fd pcbs.now ≡ Some block.now }
    ensures { FindsTarget pcbs.now block.now.fd to result }
{
    match to {
        None => Ok(block.peer.unwrap_or(Addr { ip: 0, port: 0 })),
        Some(address) => pcbs.check_destination_of(block, address),
    }
}

/// The error of a send to the broadcast address, if it fails.
#[inline(always)]
fn broadcast_fault(to_all: bool, allowed: bool, mtu: u16, len: usize) -> Option<Errno>
    requires { len ≤ 65535 }
    ensures fault { result ≡ first_fault (broadcast_faults to_all allowed mtu len) }
    ensures uncut { IfNone result (to_all ≡ true → len + IP_UDP_HEADERS ≤ mtu) }
{
    if to_all && !allowed {
        return Some(Errno::Access);
    }
    if to_all && len + IP_UDP_HEADERS as usize > mtu as usize {
        return Some(Errno::MessageSize);
    }
    None
}

/// The address given, or otherwise the peer's, if a send of at most 9,216 bytes to it from the block's socket
/// leaves by the link to another machine. `send_target` returns the same address then. `None`: take the general path
/// (the result is the same). No test is made twice.
#[inline(always)]
pub(crate) fn link_target(pcbs: &Pcbs, block: &Block, to: Option<Addr>) -> Option<Addr>
    requires { block_at block.now.fd pcbs.now ≡ Some block.now }
    ensures target { IfSome result (λ a. (mtu len : ℕ) → len ≤ UDP_SEND_SPACE
        → ChecksSend pcbs.now mtu block.now.fd to len (Ok a)) }
    ensures other { IfSome result (λ a.
        (a.ip ≢ pcbs.now.addr) × (a.ip ≢ pcbs.now.bcast) × (a.ip ≢ LOOPBACK)) }
{
    let Some(address) = to else {
        return pcbs.peer_by_link(block);
    };
    if !pcbs.goes_by_link(block, address) {
        return None;
    }
    Some(address)
}

/// The destination of a send of `len` bytes from the socket of a block: the address given, after
/// `check_destination_of`, or otherwise its peer's. It changes nothing (volume 2 chapters 16 and 23).
///
/// # Errors
///
/// In this order: `DestinationRequired`, `MessageSize` above 9,216 bytes, `IsConnected`, `AddressNotAvailable`,
/// `HostUnreachable`, `AddressInUse`, `Access` for the broadcast address without the option, `MessageSize` for a
/// broadcast that is longer than the link's packets.
#[inline(always)]
pub(crate) fn send_target(
    pcbs: &Pcbs,
    mtu: u16,
    block: &Block,
    to: Option<Addr>,
    len: usize,
) -> Result<Addr, Errno>
    requires { block_at block.now.fd pcbs.now ≡ Some block.now }
    ensures target { ChecksSend pcbs.now mtu block.now.fd to len result }
    ensures few { OnOk result (len ≤ UDP_SEND_SPACE) }
    ensures uncut { IfOk result (λ a. a.ip ≡ pcbs.now.bcast → len + IP_UDP_HEADERS ≤ mtu) }
{
    if let Some(errno) = early_fault(to, block.peer, len) {
        return Err(errno);
    }
    let target = target_of(pcbs, block, to)?;
    let to_all = target.ip == pcbs.bcast();
    if let Some(errno) = broadcast_fault(to_all, block.broadcast, mtu, len) {
        return Err(errno);
    }
    Ok(target)
}
