//! Why a file couldn't be read.
use thiserror::Error;

/// What is wrong with a file.
#[derive(Clone, Copy, Debug, PartialEq, Eq, Error)]
pub enum Why {
    /// Fewer than the 12 bytes of a block without a body are left, or fewer than the block's total length.
    #[error("block cut short")]
    BlockCut,
    /// A section's header has no byte order magic. A file that begins with such a block is damaged.
    #[error("bad byte order magic")]
    BadMagic,
    /// The file doesn't begin with a section's header, so it isn't a pcapng file.
    #[error("no section header")]
    NoSection,
    /// A block's total length is below 12, or not a multiple of 4.
    #[error("bad block length")]
    BadLength,
    /// The total lengths before and after a block's body differ.
    #[error("block lengths differ")]
    LengthsDiffer,
}

/// What is wrong with a file, and where.
#[derive(Clone, Copy, Debug, PartialEq, Eq, Error)]
#[error("{why} at byte {offset}")]
pub struct Fault {
    /// What is wrong.
    pub why: Why,
    /// The offset in the file of the field that shows it.
    pub offset: usize,
}

/// Why a block's body doesn't match its type.
#[derive(Clone, Copy, Debug, PartialEq, Eq, Error)]
pub enum BodyFault {
    /// It has fewer bytes than its fields need, or than the captured length of the packet in it.
    #[error("block body cut short")]
    BodyCut,
    /// A section's version is neither 1.0 nor 1.2, which some writers use for the same format.
    #[error("unknown version")]
    BadVersion,
    /// An option is longer than what is left of the block.
    #[error("option cut short")]
    OptionCut,
    /// The unit of time (if_tsresol) isn't one byte, or is above 10 to the minus 19th or 2 to the minus 63rd second.
    #[error("bad time resolution")]
    BadResolution,
}
