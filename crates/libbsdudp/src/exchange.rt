//! How a call gets the stack of a handle, and how a stack is put into one and taken out.
ghost use Rattle.std.specs.Prelude.{◌≡◌, ◌==◌, MatchOption, None, Some};
ghost use Rattle.std.specs.Borrow.{sem};
ghost use Rattle.libbsdudp.specs.Calls.{stack_in};
ghost use Rattle.libbsdudp.specs.HandleLends.{LendsValue};

use crate::handle::Handle;
use crate::held::Held;
use crate::owned::Owned;
use crate::parts::{open, shut};
use std::alloc::Global;
use std::mem::replace;

/// Passes the value that a handle holds to a call. If the handle has no value, the result is `$lacks`.
macro_rules! with_held {
    ($handle:ident, $lacks:ident, $held:ident => $call:expr) => {
        if $handle.is_live() {
            let $held = $handle.value_mut();
            $call
        } else {
            $lacks
        }
    };
}

pub(crate) use with_held;

/// The mark of a handle that holds a stack.
const LIVE: u32 = 0x6273_6475;

impl Handle {
    /// A handle without a stack.
    fn empty(alloc: Global) -> Handle
        ensures { result.live ≡ 0 }
    {
        Handle {
            live: 0,
            held: Held::nothing(alloc),
        }
    }

    /// Returns whether the handle has a stack.
    pub(crate) fn is_live(&self) -> bool
        ensures { result ≡ (self.now.live == 1651729525) }
    {
        self.live == LIVE
    }

    /// Returns the stack, mutable. The handle must have one.
    pub(crate) fn value_mut(&mut self) -> &mut Owned
        requires { self.old.live ≡ 1651729525 }
        ensures* writes_back { sem 𝓛 (LendsValue self.entry result) }
        ensures value { stack_in self.old ≡ Some result.now.stack }
    {
        self.held.value_mut()
    }

    /// Takes out the stack, and leaves the handle without one. Returns `None` if it has no stack; the handle is then
    /// unchanged.
    pub(crate) fn take(&mut self, alloc: Global) -> Option<Box<Owned, Global>>
        ensures taken { MatchOption result (stack_in self.old ≡ None)
            (λ b. stack_in self.old ≡ Some b.value.stack) }
        ensures left { stack_in self.new ≡ None }
    {
        if self.live != LIVE {
            return None;
        }
        let Handle { live: _, held } = replace(self, Handle::empty(alloc));
        Some(shut(held.into_parts()))
    }

    /// Puts a stack into a handle, which must not hold one; a stack that it held would not be ended.
    pub(crate) fn put(&mut self, boxed: Box<Owned, Global>)
        ensures { stack_in self.new ≡ Some boxed.value.stack }
    {
        *self = Handle {
            live: LIVE,
            held: Held::of_parts(open(boxed)),
        };
    }
}
