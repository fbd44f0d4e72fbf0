//! The value that the handle of a link refers to.

use ether_host::LinkLayer;

/// A link, which is freed when it is dropped.
#[derive(Drop)]
pub struct OwnedLink {
    pub(crate) layer: LinkLayer,
}
