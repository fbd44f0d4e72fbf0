//! The offset of a fragment in its datagram, and the number in which a train keeps it.

ghost use Rattle.std.specs.Prelude.{◌≡◌, ◌+◌, ◌*◌, ◌/◌, ◌%◌, ◌==◌, ◌≤◌};

use params::IP_MAX_PACKET;

/// The offset of a fragment, and whether more follow.
#[derive(Clone, Copy)]
pub(crate) struct Span {
    /// The offset of its first byte.
    pub(crate) offset: u32,
    /// Whether it isn't the last of its datagram.
    pub(crate) more: bool,
}

/// The tag that a train keeps with a fragment: its offset times 2, plus 1 if more follow.
#[derive(Clone, Copy)]
pub(crate) struct Tag {
    pub(crate) bits: u32,
}

impl Tag {
    /// Returns the tag of a fragment.
    pub(crate) fn new(span: Span) -> Tag
        requires { span.offset ≤ IP_MAX_PACKET }
        ensures half { result.bits / 2 ≡ span.offset }
        ensures odd { (result.bits % 2 == 1) ≡ span.more }
    {
        Tag {
            bits: 2 * span.offset + u32::from(span.more),
        }
    }

    /// Returns the offset of the fragment.
    pub(crate) fn offset(self) -> u32
        ensures { result ≡ self.bits / 2 }
    {
        self.bits / 2
    }

    /// Returns whether more follow.
    pub(crate) fn more(self) -> bool
        ensures { result ≡ (self.bits % 2 == 1) }
    {
        self.bits % 2 == 1
    }

    /// Returns the tag of the fragment without its first `n` bytes.
    pub(crate) fn moved(self, n: u32) -> Tag
        requires { self.bits / 2 + n ≤ IP_MAX_PACKET }
        ensures { result.bits ≡ self.bits + 2 * n }
    {
        Tag {
            bits: self.bits + 2 * n,
        }
    }
}
