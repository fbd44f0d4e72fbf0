//! Why a capture couldn't be read.
use crate::pcap::Why as ClassicWhy;
use crate::pcapng::{BodyFault, Why as BlockWhy};
use thiserror::Error;

/// What is wrong with a capture.
#[derive(Clone, Copy, Debug, PartialEq, Eq, Error)]
pub enum Why {
    /// Reading it failed.
    #[error("reading failed")]
    NotRead,
    /// It's compressed by gzip: its first two bytes are 1f 8b. `zcat` decompresses it.
    #[error("compressed by gzip")]
    Gzip,
    /// It's a classic capture file with this fault, or a file of neither format (`BadMagic`).
    #[error("{0}")]
    Classic(ClassicWhy),
    /// A block of a pcapng file has this fault.
    #[error("{0}")]
    Block(BlockWhy),
    /// The body of a pcapng block has this fault.
    #[error("{0}")]
    Body(BodyFault),
    /// A packet is of an interface that its section doesn't describe.
    #[error("packet of an unknown interface")]
    NoInterface,
    /// A section describes more than 64 interfaces.
    #[error("more than 64 interfaces")]
    TooManyInterfaces,
    /// A record or a block has more than [`crate::LONGEST_RECORD`] bytes.
    #[error("longer than 1048576 bytes")]
    TooLong,
    /// The file has 2^32 or more consecutive blocks without a packet; the reader doesn't skip more.
    #[error("more than 2^32 blocks without a packet")]
    TooMany,
}

/// What is wrong with a capture, and where.
#[derive(Clone, Copy, Debug, PartialEq, Eq, Error)]
#[error("{why} at byte {offset}")]
pub struct Fault {
    /// What is wrong.
    pub why: Why,
    /// The offset in the file of the field that shows it.
    pub offset: u64,
}

/// What is wrong with a record or a block, and its offset in it.
#[derive(Clone, Copy)]
pub(crate) struct FaultAt {
    pub(crate) why: Why,
    pub(crate) at: usize,
}

impl From<crate::pcap::Fault> for FaultAt {
    ghost use Rattle.std.specs.Prelude.{◌≡◌};
    ghost use Rattle.capture.specs.Faults.{classic_fault_at};

    ghost from_gives = { λ f s. s ≡ classic_fault_at f };

    fn from(found: crate::pcap::Fault) -> FaultAt {
        FaultAt {
            why: Why::Classic(found.why),
            at: found.offset,
        }
    }
}

impl From<crate::pcapng::Fault> for FaultAt {
    ghost use Rattle.std.specs.Prelude.{◌≡◌};
    ghost use Rattle.capture.specs.Faults.{block_fault_at};

    ghost from_gives = { λ f s. s ≡ block_fault_at f };

    fn from(found: crate::pcapng::Fault) -> FaultAt {
        FaultAt {
            why: Why::Block(found.why),
            at: found.offset,
        }
    }
}
