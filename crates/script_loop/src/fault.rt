//! Why a script ends early.
use thiserror::Error;

/// Why a script wasn't served to its end.
#[derive(Clone, Copy, Debug, PartialEq, Eq, Error)]
pub enum RunFault {
    /// The reader returned an error.
    #[error("read failed")]
    Read,
    /// The writer returned an error, or accepted none of the bytes.
    #[error("write failed")]
    Write,
    /// The host refused memory. Nothing was read or written.
    #[error("no memory")]
    Memory,
    /// A byte came after the 10,000,000th line, or a line had more than 1,048,576 bytes.
    #[error("too many lines")]
    TooManyLines,
    /// The numbers of mbufs and clusters are out of range for a pool. Nothing was read or written.
    #[error("bad sizes")]
    BadSizes,
    /// The addresses or the MTU are invalid for a host. Nothing was read or written.
    #[error("bad config")]
    BadConfig,
}
