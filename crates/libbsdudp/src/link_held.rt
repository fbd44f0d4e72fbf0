//! A boxed link as C keeps it, the counterpart of `held` for a stack.
ghost use Rattle.std.specs.Prelude.{◌≡◌, None, Some};
ghost use Rattle.std.specs.Borrow.{sem};
ghost use Rattle.libbsdudp.specs.LinkHeld.{IsLinkFull, LinkKept, link_kept_coded, link_kept_owns};

use crate::link_owned::OwnedLink;
use crate::parts::Parts;
use std::alloc::Global;
use std::marker::Model;
use std::ptr::null_mut;

/// The address of a boxed link, or none. Contracts see the value in the box. Its type doesn't name a type of the host,
/// because an export may not take a type that does. For the same reason this and `Held` aren't one generic type, whose
/// parameter would name what is in the box.
#[repr(C)]
#[derive(Drop)]
pub struct LinkHeld {
    at: *mut u8,
    alloc: Global,
    pub(crate) ghost kept: { LinkKept } by { link_kept_coded },
}

impl Model for LinkHeld {
    ghost also_owns = { λ h. link_kept_owns h.alloc h.at h.kept };
}

impl LinkHeld {
    ghost use Rattle.libbsdudp.specs.LinkHeldLends.{LendsBoxedLink};

    /// No box.
    pub(crate) fn nothing(alloc: Global) -> LinkHeld
        ensures { result.kept ≡ None }
    {
        LinkHeld {
            at: null_mut(),
            alloc,
        }
    }

    /// Returns the address of the box that these parts make.
    pub(crate) fn of_parts(parts: Parts<OwnedLink, Global>) -> LinkHeld
        ensures { result.kept ≡ Some parts.value }
    {
        let Parts { at, alloc } = parts;
        LinkHeld {
            at: at as *mut u8,
            alloc,
        }
    }

    /// Returns the parts of the box at the address. There must be one.
    pub(crate) fn into_parts(self) -> Parts<OwnedLink, Global>
        requires { IsLinkFull self.kept }
        ensures { self.kept ≡ Some result.value }
    {
        let LinkHeld { at, alloc } = self;
        Parts {
            at: at as *mut OwnedLink,
            alloc,
        }
    }

    /// Returns the value in the box, mutable. There must be one.
    pub(crate) fn value_mut(&mut self) -> &mut OwnedLink
        requires { IsLinkFull self.old.kept }
        ensures* writes_back { sem 𝓛 (LendsBoxedLink self.entry result) }
        ensures value { self.old.kept ≡ Some result.now }
    {
        unsafe { &mut *(self.at as *mut OwnedLink) }
    }
}
