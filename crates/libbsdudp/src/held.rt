//! A boxed stack as C keeps it: only an address.
ghost use Rattle.std.specs.Prelude.{◌≡◌, None, Some};
ghost use Rattle.std.specs.Borrow.{sem};
ghost use Rattle.libbsdudp.specs.Held.{IsFull, Kept, kept_coded, kept_owns};

use crate::owned::Owned;
use crate::parts::Parts;
use std::alloc::Global;
use std::marker::Model;
use std::ptr::null_mut;

/// The address of a boxed stack, or none. Contracts see the value in the box. Its type doesn't name a type of the
/// stack, because an export may not take a type that does.
#[repr(C)]
#[derive(Drop)]
pub struct Held {
    at: *mut u8,
    alloc: Global,
    pub(crate) ghost kept: { Kept } by { kept_coded },
}

impl Model for Held {
    ghost also_owns = { λ h. kept_owns h.alloc h.at h.kept };
}

impl Held {
    ghost use Rattle.libbsdudp.specs.HeldLends.{LendsBoxed};

    /// No box.
    pub(crate) fn nothing(alloc: Global) -> Held
        ensures { result.kept ≡ None }
    {
        Held {
            at: null_mut(),
            alloc,
        }
    }

    /// Returns the address of the box that these parts make.
    pub(crate) fn of_parts(parts: Parts<Owned, Global>) -> Held
        ensures { result.kept ≡ Some parts.value }
    {
        let Parts { at, alloc } = parts;
        Held {
            at: at as *mut u8,
            alloc,
        }
    }

    /// Returns the parts of the box at the address. There must be one.
    pub(crate) fn into_parts(self) -> Parts<Owned, Global>
        requires { IsFull self.kept }
        ensures { self.kept ≡ Some result.value }
    {
        let Held { at, alloc } = self;
        Parts {
            at: at as *mut Owned,
            alloc,
        }
    }

    /// Returns the value in the box, mutable. There must be one.
    pub(crate) fn value_mut(&mut self) -> &mut Owned
        requires { IsFull self.old.kept }
        ensures* writes_back { sem 𝓛 (LendsBoxed self.entry result) }
        ensures value { self.old.kept ≡ Some result.now }
    {
        unsafe { &mut *(self.at as *mut Owned) }
    }
}
