//! How a call gets the link of its handle, and how a link is put into one and taken out.
ghost use Rattle.std.specs.Prelude.{◌≡◌, ◌==◌, MatchOption, None, Some};
ghost use Rattle.std.specs.Borrow.{sem};
ghost use Rattle.ether_host.specs.Inside.{link_seen};
ghost use Rattle.libbsdudp.specs.Ether.{handle_link};
ghost use Rattle.libbsdudp.specs.LinkHandleLends.{LendsLayer};

use crate::link_handle::LinkHandle;
use crate::link_held::LinkHeld;
use crate::link_owned::OwnedLink;
use crate::parts::{open, shut};
use std::alloc::Global;
use std::mem::replace;

/// The mark of a handle that holds a link.
const LIVE: u32 = 0x6273_6c6b;

impl LinkHandle {
    /// A handle without a link.
    fn empty(alloc: Global) -> LinkHandle
        ensures { result.live ≡ 0 }
    {
        LinkHandle {
            live: 0,
            held: LinkHeld::nothing(alloc),
        }
    }

    /// Returns whether the handle has a link.
    pub(crate) fn is_live(&self) -> bool
        ensures { result ≡ (self.now.live == 1651731563) }
    {
        self.live == LIVE
    }

    /// Returns the link, mutable. The handle must have one.
    pub(crate) fn value_mut(&mut self) -> &mut OwnedLink
        requires { self.old.live ≡ 1651731563 }
        ensures* writes_back { sem 𝓛 (LendsLayer self.entry result) }
        ensures value { handle_link self.old ≡ Some (link_seen result.now.layer) }
    {
        self.held.value_mut()
    }

    /// Takes out the link, and leaves the handle without one. Returns `None` if it has no link; the handle is then
    /// unchanged.
    pub(crate) fn take(&mut self, alloc: Global) -> Option<Box<OwnedLink, Global>>
        ensures taken { MatchOption result (handle_link self.old ≡ None)
            (λ b. handle_link self.old ≡ Some (link_seen b.value.layer)) }
        ensures left { handle_link self.new ≡ None }
    {
        if self.live != LIVE {
            return None;
        }
        let LinkHandle { live: _, held } = replace(self, LinkHandle::empty(alloc));
        Some(shut(held.into_parts()))
    }

    /// Puts a link into a handle, which must not hold one; a link that it held would not be ended.
    pub(crate) fn put(&mut self, boxed: Box<OwnedLink, Global>)
        ensures { handle_link self.new ≡ Some (link_seen boxed.value.layer) }
    {
        *self = LinkHandle {
            live: LIVE,
            held: LinkHeld::of_parts(open(boxed)),
        };
    }
}
