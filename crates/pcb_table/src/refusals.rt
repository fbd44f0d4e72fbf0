//! The errors of a bind, a connect or a destination.
ghost use Rattle.std.specs.Prelude.{◌≡◌, Some, is_some};
ghost use Rattle.flat_model.specs.Packets.Header.{first_fault};
ghost use Rattle.flat_model.specs.Machine.Calls as flat;
ghost use Rattle.pcb_table.specs.Inside.Search.{block_bind_faults, block_connect_faults, interface_config, is_in_way, youngest_block};

use crate::block::Block;
use crate::blocks::Blocks;
use crate::interface::{Interface, is_reached};
use crate::ports::is_in_use;
use crate::search::exact;
use flat_model::{Addr, Errno, LookupKey};

/// The value, unless it's 0.
pub(crate) fn unless_zero(ip: u32) -> Option<u32>
    ensures { result ≡ flat.unless_zero ip }
{
    if ip == 0 { None } else { Some(ip) }
}

/// The port, unless it's 0.
pub(crate) fn port_unless_zero(port: u16) -> Option<u16>
    ensures { result ≡ flat.unless_zero port }
{
    if port == 0 { None } else { Some(port) }
}

/// Whether another block prevents a bind: if the socket has the reuse-port option, an exact match without it; otherwise
/// any block with the port and an address that agrees.
fn is_taken(blocks: &Blocks, me: &Block, local: Option<u32>, port: u16) -> bool
    ensures { result ≡ is_in_way blocks.now me.now local port }
{
    if me.reuse_port {
        let key = LookupKey {
            local,
            port: Some(port),
            peer: None,
        };
        match exact(blocks, key) {
            None => false,
            Some(found) => !found.reuse_port,
        }
    } else {
        is_in_use(blocks, local, port)
    }
}

/// The error that a bind returns, if it fails.
pub(crate) fn bind_fault(
    blocks: &Blocks,
    interface: Interface,
    me: &Block,
    address: Addr,
) -> Option<Errno>
    ensures { result ≡ first_fault (block_bind_faults (interface_config interface) blocks.now me.now address) }
{
    if me.port.is_some() || me.local.is_some() {
        return Some(Errno::Invalid);
    }
    if address.ip != 0 && !interface.is_ours(address.ip) {
        return Some(Errno::AddressNotAvailable);
    }
    if address.port != 0 && is_taken(blocks, me, unless_zero(address.ip), address.port) {
        return Some(Errno::AddressInUse);
    }
    None
}

/// Whether a block is connected to the peer, from this address and port.
// If no block is connected, there is no search.
#[inline(always)]
fn has_connection(blocks: &Blocks, local: u32, port: Option<u16>, peer: Addr) -> bool
    ensures { result ≡ is_some (youngest_block 0
        (record { local = Some local; port = port; peer = Some peer }) blocks.now) }
{
    if blocks.is_none_connected() {
        return false;
    }
    let key = LookupKey {
        local: Some(local),
        port,
        peer: Some(peer),
    };
    exact(blocks, key).is_some()
}

/// The error of a packet to an address, or of a connect to it, if it fails. `to` is the address as `Interface::read`
/// returns it.
// Inlined into the send path.
#[inline(always)]
pub(crate) fn destination_fault(
    blocks: &Blocks,
    interface: Interface,
    me: &Block,
    to: Addr,
) -> Option<Errno>
    ensures { result ≡ first_fault (block_connect_faults (interface_config interface) blocks.now me.now to) }
{
    if to.port == 0 {
        return Some(Errno::AddressNotAvailable);
    }
    if !is_reached(to.ip) {
        return Some(Errno::HostUnreachable);
    }
    if has_connection(blocks, interface.source(me, to.ip), me.port, to) {
        return Some(Errno::AddressInUse);
    }
    None
}
