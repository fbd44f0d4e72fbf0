//! Why a capture wasn't played.
ghost use Rattle.std.specs.Prelude.{◌≡◌, ◌≤◌, length};
ghost use Rattle.play_pcap.specs.Results.{capture_fault_words, why_words};

use capture::pcap::{Fault, Why};

/// Why a capture wasn't played. Nothing has happened then.
#[derive(Clone, Copy, Debug, PartialEq, Eq)]
pub enum CaptureFault {
    /// The file can't be opened.
    NotOpened,
    /// Reading it failed.
    NotRead,
    /// It has more than 16 MiB.
    TooLong,
    /// The host refused memory.
    Memory,
    /// It has fewer records than the range requests.
    TooFew,
    /// It isn't a capture file, or it's truncated.
    Bad(Fault),
}

/// Returns what is wrong with a file, in words.
pub(crate) fn words_for(why: Why) -> &'static str
    ensures is { result.now ≡ why_words why }
    ensures short { length result.now ≤ 24 }
{
    match why {
        Why::HeaderCut => "file header cut short",
        Why::BadMagic => "bad magic number",
        Why::BadVersion => "unknown version",
        Why::BadLinkType(_) => "unknown link type",
        Why::RecordCut => "record header cut short",
        Why::BytesCut => "record cut short",
    }
}

impl CaptureFault {
    /// Returns the reason in words, without the offset in a bad file.
    pub(crate) fn words(self) -> &'static str
        ensures is { result.now ≡ capture_fault_words self }
        ensures short { length result.now ≤ 32 }
    {
        match self {
            CaptureFault::NotOpened => "can't be opened",
            CaptureFault::NotRead => "reading failed",
            CaptureFault::TooLong => "longer than 16777216 bytes",
            CaptureFault::Memory => "no memory",
            CaptureFault::TooFew => "too few records",
            CaptureFault::Bad(fault) => words_for(fault.why),
        }
    }
}
