//! Syntax errors in a line.
ghost use Rattle.std.specs.Prelude.{◌≡◌, ◌≤◌, length};
ghost use Rattle.play_line.specs.Faults.{misread_words};

/// A syntax error in a line.
#[derive(Clone, Copy)]
pub enum Fault {
    /// The bytes contain a character that isn't a hexadecimal digit.
    NotHex,
    /// The bytes have an odd number of digits.
    OddDigits,
    /// There are no bytes before `+` or `*`, or after `+`.
    NoBytes,
    /// The bytes end, and neither a blank nor `+` follows.
    NotJoined,
    /// A text is empty.
    EmptyText,
    /// A text has no end.
    UnendedText,
    /// After a backslash in a text there is no byte with a meaning.
    UnknownEscape,
    /// There is no number after `*` or `@`.
    NoCount,
    /// The number after `*` or `@` is 0.
    ZeroCount,
    /// There are more than 65,535 bytes.
    TooManyBytes,
    /// The plain line has more than 262,144 bytes.
    TooLong,
    /// There is no address with a port at a place that needs one.
    NoEnd,
    /// There is no address at a place that needs one.
    NoAddress,
    /// The text after the colon of an address isn't a port.
    NoPort,
    /// There is no `>` between the two endpoints of a datagram.
    NoArrow,
    /// The word after `id` isn't an identification.
    NoId,
    /// The word after `ttl` isn't a time to live.
    NoTtl,
    /// The word after `at` isn't a possible offset of a fragment.
    NoOffset,
    /// Neither `more` nor `last` follows the offset of a fragment.
    NoMore,
    /// The word after `size` isn't a number of bytes.
    NoSize,
    /// The value of a 4-bit field is too large.
    NotUpTo15,
    /// The value of an 8-bit field is too large.
    NotUpTo255,
    /// The value of a 16-bit field is too large.
    NotUpTo65535,
    /// A word in the description of a packet has no meaning.
    UnknownWord,
    /// A word repeats what another one specifies.
    GivenTwice,
    /// The range of bytes for a packet isn't in the datagram.
    PastEnd,
    /// The datagram or the packet would exceed its maximum length.
    TooLarge,
    /// The prefix of a line isn't a time in half seconds, or no line follows it.
    NoTime,
}

/// A syntax error, and its position.
#[derive(Clone, Copy)]
pub struct SyntaxError {
    /// The error.
    pub fault: Fault,
    /// The column of the first byte that is wrong, or the column after the line's last byte if a byte is missing there.
    /// The first column is 1.
    pub column: u64,
}

/// Why parsing stopped, and where.
#[derive(Clone, Copy)]
pub(crate) struct Misread {
    /// The error.
    pub(crate) fault: Fault,
    /// How many bytes of the line are left there.
    pub(crate) left: usize,
}

/// Parsing stops before these bytes.
pub(crate) fn stop<T>(fault: Fault, left: &[u8]) -> Result<T, Misread>
    ensures { result ≡ Err (record { fault = fault; left = length left.now }) }
{
    Err(Misread {
        fault,
        left: left.len(),
    })
}

impl Fault {
    /// Returns the error message.
    pub fn words(self) -> &'static str
        ensures is { result.now ≡ misread_words self }
        ensures short { length result.now ≤ 48 }
    {
        match self {
            Fault::NotHex => "expected a hex digit (put text in quotes: \"hi\")",
            Fault::OddDigits => "odd number of hex digits",
            Fault::NoBytes => "missing bytes",
            Fault::NotJoined => "expected `+` or a blank",
            Fault::EmptyText => "empty text (for no bytes, write `-`)",
            Fault::UnendedText => "missing closing quote",
            Fault::UnknownEscape => "unknown escape",
            Fault::NoCount => "missing number",
            Fault::ZeroCount => "the number must be at least 1",
            Fault::TooManyBytes => "more than 65535 bytes",
            Fault::TooLong => "the line is too long",
            Fault::NoEnd => "expected an address and port, such as 10.0.0.2:7",
            Fault::NoAddress => "expected an address, such as 10.0.0.2",
            Fault::NoPort => "expected a port, 0 to 65535",
            Fault::NoArrow => "expected `>`",
            Fault::NoId => "expected an identification, 0 to 65535",
            Fault::NoTtl => "expected a time to live, 0 to 255",
            Fault::NoOffset => "expected a multiple of 8, 0 to 65528",
            Fault::NoMore => "expected `more` or `last`",
            Fault::NoSize => "expected a size, 0 to 65515",
            Fault::NotUpTo15 => "expected a number, 0 to 15",
            Fault::NotUpTo255 => "expected a number, 0 to 255",
            Fault::NotUpTo65535 => "expected a number, 0 to 65535",
            Fault::UnknownWord => "unknown word",
            Fault::GivenTwice => "given twice",
            Fault::PastEnd => "past the end of the datagram",
            Fault::TooLarge => "too many bytes for a packet",
            Fault::NoTime => "expected a time (+0.5s, +2s), then a line",
        }
    }
}
