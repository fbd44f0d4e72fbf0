//! Why a file couldn't be read.
ghost use Rattle.std.specs.Prelude.{◌≡◌};
ghost use Rattle.capture.specs.File.{fault};
ghost use Rattle.capture.specs.declared.pcap.fault.ReadError.TheVariants as read_errors;

use std::alloc::AllocFailed;
use thiserror::Error;

/// What is wrong with a file.
#[derive(Clone, Copy, Debug, PartialEq, Eq, Error)]
pub enum Why {
    /// It has fewer bytes than a file header, which has 24.
    #[error("file header cut short")]
    HeaderCut,
    /// Its first four bytes aren't the magic number of a classic capture file. A pcapng file has this fault.
    #[error("bad magic number")]
    BadMagic,
    /// Its version isn't 2.4.
    #[error("unknown version")]
    BadVersion,
    /// Its link type, which has this number, isn't one of [`crate::pcap::LinkType`].
    #[error("unknown link type {0}")]
    BadLinkType(u16),
    /// The last whole record is followed by 1 to 15 bytes; a record's header has 16.
    #[error("record header cut short")]
    RecordCut,
    /// A record's captured length is more than what is left of the file.
    #[error("record cut short")]
    BytesCut,
}

/// What is wrong with a file, and where.
#[derive(Clone, Copy, Debug, PartialEq, Eq, Error)]
#[error("{why} at byte {offset}")]
pub struct Fault {
    /// What is wrong.
    pub why: Why,
    /// The offset in the file of the field that is wrong: 0 for `HeaderCut` and `BadMagic`, 4 for `BadVersion`, 20 for
    /// `BadLinkType`, the start of the record for `RecordCut`, its captured length for `BytesCut`.
    pub offset: usize,
}

impl Why {
    /// Returns this fault, at this offset in the file.
    pub(crate) fn at(self, offset: usize) -> Fault
        ensures { result ≡ fault self offset }
    {
        Fault { why: self, offset }
    }
}

/// Why [`crate::pcap::read`] couldn't read a file.
#[derive(Debug, Drop, PartialEq, Eq, Error)]
pub enum ReadError {
    /// Host memory ran out.
    #[error("no memory")]
    Memory,
    /// The file isn't a capture file that the reader knows.
    #[error("{0}")]
    Fault(Fault),
}

impl<T: Drop> From<AllocFailed<T>> for ReadError {
    ghost from_gives = { λ _ e. e ≡ read_errors.Memory };

    fn from(_e: AllocFailed<T>) -> ReadError {
        ReadError::Memory
    }
}

impl From<Fault> for ReadError {
    ghost from_gives = { λ f e. e ≡ read_errors.Fault f };

    fn from(fault: Fault) -> ReadError {
        ReadError::Fault(fault)
    }
}
