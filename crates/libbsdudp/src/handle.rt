//! A handle as C has it.
ghost use Rattle.std.specs.Prelude.{◌≡◌};
ghost use Rattle.libbsdudp.specs.Held.{IsFull};

use crate::held::Held;

/// `struct bsdudp_core`. It holds no stack if all its bytes are 0, and none after `bsdudp_core_end`.
#[repr(C)]
#[derive(Drop)]
pub struct Handle {
    pub(crate) live: u32,
    pub(crate) held: Held,
    ghost full: { live ≡ 1651729525 → IsFull held.kept },
}
