//! Booting a stack into a handle, and ending it.
ghost use Rattle.libbsdudp.specs.Calls.{stack_in};
ghost use Rattle.libbsdudp.specs.Life.{IsBooted, IsEnded};

use crate::errors::{BAD_SIZES, INVALID, NO_MEMORY, NO_STACK};
use crate::handle::Handle;
use crate::owned::Owned;
use crate::plain::CConfig;
use net_stack::{BootFault, Stack};
use std::alloc::Global;

/// Boots a stack into a handle that holds no stack.
///
///     int bsdudp_core_boot(struct bsdudp_core *, const struct bsdudp_config *)
///
/// Returns 0, or the first error of these: -ENXIO if the handle holds a stack, which stays; -EDOM for sizes that no
/// pool can have; -EINVAL for a configuration that no host can have; -ENOMEM if an allocation fails.
#[unsafe(no_mangle)]
pub extern "C" fn bsdudp_core_boot(alloc: Global, handle: &mut Handle, config: &CConfig) -> i32
    ensures { IsBooted (stack_in handle.old) config.now result (stack_in handle.new) }
{
    if handle.is_live() {
        return NO_STACK;
    }
    let stack = match Stack::boot(alloc, config.config()) {
        Ok(stack) => stack,
        Err(BootFault::Memory) => return NO_MEMORY,
        Err(BootFault::BadSizes) => return BAD_SIZES,
        Err(BootFault::BadConfig) => return INVALID,
    };
    match Box::new(alloc, Owned { stack }) {
        Ok(boxed) => {
            handle.put(boxed);
            0
        }
        Err(_) => NO_MEMORY,
    }
}

/// Ends the stack, frees all that it holds, and leaves the handle without a stack.
///
///     int bsdudp_core_end(struct bsdudp_core *)
///
/// Returns 0, or -ENXIO if the handle holds no stack.
#[unsafe(no_mangle)]
pub extern "C" fn bsdudp_core_end(alloc: Global, handle: &mut Handle) -> i32
    ensures { IsEnded (stack_in handle.old) result (stack_in handle.new) }
{
    match handle.take(alloc) {
        Some(boxed) => {
            drop(boxed);
            0
        }
        None => NO_STACK,
    }
}
