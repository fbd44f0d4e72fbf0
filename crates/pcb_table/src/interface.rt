//! The machine's one interface, and which addresses belong to the machine.
ghost use Rattle.std.specs.Prelude.{◌≡◌};
ghost use Rattle.flat_model.specs.Machine.Calls as flat;
ghost use Rattle.pcb_table.specs.Inside.Search.{interface_config};
ghost use Rattle.pcb_table.specs.Apart.{plain};

use crate::block::Block;
use flat_model::Addr;
use params::{FIRST_MULTICAST, LIMITED_BROADCAST, LOOPBACK};

/// The one interface of a machine.
#[derive(Clone, Copy)]
pub(crate) struct Interface {
    pub(crate) addr: u32,
    pub(crate) bcast: u32,
}

impl Interface {
    /// Whether a socket may be bound to the address.
    pub(crate) fn is_ours(self, ip: u32) -> bool
        ensures { result ≡ flat.is_ours (interface_config self) ip }
    {
        ip == self.addr || ip == self.bcast || ip == LOOPBACK
    }

    /// Replaces 0.0.0.0 by the machine's address, and 255.255.255.255 by its broadcast address.
    pub(crate) fn read(self, address: Addr) -> Addr
        ensures { result ≡ flat.read_addr (interface_config self) address }
    {
        let ip = if address.ip == 0 {
            self.addr
        } else if address.ip == LIMITED_BROADCAST {
            self.bcast
        } else {
            address.ip
        };
        Addr {
            ip,
            port: address.port,
        }
    }

    /// The source address of the block's packets to this address.
    pub(crate) fn source(self, block: &Block, ip: u32) -> u32
        ensures { result ≡ flat.source_for (interface_config self) (plain block.now) ip }
    {
        match block.local {
            Some(local) => local,
            None => { if ip == LOOPBACK { LOOPBACK } else { self.addr } }
        }
    }
}

/// Whether packets to the address leave by loopback or by the link. Packets to 0/8, to 127/8 except 127.0.0.1, and to
/// multicast and reserved addresses don't (RFC 1122 section 3.2.1.3).
pub(crate) fn is_reached(ip: u32) -> bool
    ensures { result ≡ flat.is_reached ip }
{
    let network = ip >> 24;
    ip == LOOPBACK || network != 0 && network != LOOPBACK >> 24 && ip < FIRST_MULTICAST
}
