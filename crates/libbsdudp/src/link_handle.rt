//! The handle of a link as C has it.
ghost use Rattle.std.specs.Prelude.{◌≡◌};
ghost use Rattle.libbsdudp.specs.LinkHeld.{IsLinkFull};

use crate::link_held::LinkHeld;

/// The second `struct bsdudp_core` of a host. It holds no link if all its bytes are 0, and none after
/// `bsdudp_core_ether_end`.
#[repr(C)]
#[derive(Drop)]
pub struct LinkHandle {
    pub(crate) live: u32,
    pub(crate) held: LinkHeld,
    ghost full: { live ≡ 1651731563 → IsLinkFull held.kept },
}
