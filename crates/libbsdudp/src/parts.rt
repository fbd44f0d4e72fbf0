//! A box taken apart: its address, and the handle that frees it.
ghost use Rattle.std.specs.Prelude.{◌≡◌};
ghost use Rattle.std.specs.Box.Ownership.{box_owns};

use std::alloc::Allocator;
use std::marker::Model;

/// The parts of a box. Contracts see the value in it.
pub(crate) struct Parts<T, A: Allocator> {
    pub(crate) at: *mut T,
    pub(crate) alloc: A,
    pub(crate) ghost value: { T },
}

impl<T, A: Allocator> Model for Parts<T, A> {
    ghost also_owns = { λ p. box_owns (A.dealloc_token p.alloc) T.row p.at p.value };
}

/// Takes a box apart.
pub(crate) fn open<T: Drop, A: Allocator>(boxed: Box<T, A>) -> Parts<T, A>
    ensures { result.value ≡ boxed.value }
{
    let (at, alloc) = Box::into_raw_with_allocator(boxed);
    Parts { at, alloc }
}

/// Puts it together again.
pub(crate) fn shut<T, A: Allocator>(parts: Parts<T, A>) -> Box<T, A>
    ensures { result.value ≡ parts.value }
{
    let Parts { at, alloc } = parts;
    unsafe { Box::from_raw(alloc, at) }
}
