//! The value that a handle refers to.

use net_stack::Stack;

/// A stack that ends when it's dropped.
pub struct Owned {
    pub(crate) stack: Stack,
}

impl Drop for Owned {
    fn drop(self) {
        let Owned { stack } = self;
        let _ = stack.end();
    }
}
