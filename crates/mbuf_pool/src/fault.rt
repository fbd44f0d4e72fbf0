//! Errors.
use thiserror::Error;

/// No mbuf, or no cluster, is free.
#[derive(Clone, Copy, Debug, PartialEq, Eq, Error)]
#[error("no buffers")]
pub struct NoBufs;

/// Why a store could not be booted.
#[derive(Clone, Copy, Debug, PartialEq, Eq, Error)]
pub enum BootFault {
    /// An allocation of host memory failed.
    #[error("no memory")]
    Memory,
    /// The sizes are out of range for a store.
    #[error("bad sizes")]
    BadSizes,
}
