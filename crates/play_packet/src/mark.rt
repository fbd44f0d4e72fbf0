//! The words that may follow the bytes of a described packet.
ghost use Rattle.std.specs.Prelude.{◌≡◌, ◌≤◌};
ghost use Rattle.std.specs.List.{find};
ghost use Rattle.play_packet.specs.Marks as marks;

use play_line::Fault;

/// The payload of a packet.
#[derive(Clone, Copy)]
pub(crate) enum Payload {
    /// A UDP datagram.
    Udp,
    /// The bytes as they are.
    Raw,
}

/// A numeric field of a header.
#[derive(Clone, Copy)]
pub(crate) enum Field {
    Version,
    Ihl,
    Tos,
    Len,
    Id,
    Ttl,
    Protocol,
    Sum,
    UdpLen,
    UdpSum,
}

/// The meaning of a word after the bytes.
#[derive(Clone, Copy)]
pub(crate) enum Mark {
    /// A field holds this number.
    Number(Field),
    Offset,
    Start,
    Size,
    Reserved,
    Whole,
    More,
    BadSum,
    BadUdp,
    NoSum,
}

impl Field {
    /// Returns the word before its number.
    fn name(self) -> &'static str
        ensures { result.now ≡ marks.field_name self }
    {
        match self {
            Field::Version => "version",
            Field::Ihl => "ihl",
            Field::Tos => "tos",
            Field::Len => "len",
            Field::Id => "id",
            Field::Ttl => "ttl",
            Field::Protocol => "proto",
            Field::Sum => "sum",
            Field::UdpLen => "udplen",
            Field::UdpSum => "udpsum",
        }
    }

    /// Returns the greatest number that the field can hold.
    pub(crate) fn most(self) -> u32
        ensures is { result ≡ marks.most_number self }
        ensures most { result ≤ 65535 }
    {
        match self {
            Field::Version | Field::Ihl => 15,
            Field::Tos | Field::Ttl | Field::Protocol => 255,
            Field::Len | Field::Id | Field::Sum | Field::UdpLen | Field::UdpSum => 65_535,
        }
    }

    /// Returns the fault for any other number.
    pub(crate) fn fault(self) -> Fault
        ensures { result ≡ marks.number_fault self }
    {
        match self {
            Field::Version | Field::Ihl => Fault::NotUpTo15,
            Field::Tos | Field::Protocol => Fault::NotUpTo255,
            Field::Len | Field::Sum | Field::UdpLen | Field::UdpSum => Fault::NotUpTo65535,
            Field::Id => Fault::NoId,
            Field::Ttl => Fault::NoTtl,
        }
    }
}

impl Mark {
    /// Returns the word with this meaning.
    fn name(self) -> &'static str
        ensures { result.now ≡ marks.mark_name self }
    {
        match self {
            Mark::Number(field) => field.name(),
            Mark::Offset => "off",
            Mark::Start => "at",
            Mark::Size => "size",
            Mark::Reserved => "rf",
            Mark::Whole => "df",
            Mark::More => "mf",
            Mark::BadSum => "badsum",
            Mark::BadUdp => "badudp",
            Mark::NoSum => "nosum",
        }
    }
}

/// Returns the words for the IP header, and for the data that the packet carries.
fn ip_marks() -> [Mark; 15]
    ensures { result ≡ marks.ip_marks }
{
    [
        Mark::Number(Field::Version),
        Mark::Number(Field::Ihl),
        Mark::Number(Field::Tos),
        Mark::Number(Field::Len),
        Mark::Number(Field::Id),
        Mark::Reserved,
        Mark::Whole,
        Mark::More,
        Mark::Offset,
        Mark::Number(Field::Ttl),
        Mark::Number(Field::Protocol),
        Mark::Number(Field::Sum),
        Mark::BadSum,
        Mark::Start,
        Mark::Size,
    ]
}

/// Returns the words for a UDP header.
fn udp_marks() -> [Mark; 4]
    ensures { result ≡ marks.udp_marks }
{
    [
        Mark::Number(Field::UdpLen),
        Mark::Number(Field::UdpSum),
        Mark::BadUdp,
        Mark::NoSum,
    ]
}

/// Returns whether a word has this meaning.
fn says_mark(word: &[u8], mark: Mark) -> bool
    ensures { result ≡ marks.says_mark word.now mark }
{
    word == mark.name().as_bytes()
}

/// Returns the meaning of a word, if it is one of these.
fn named(word: &[u8], among: &[Mark]) -> Option<Mark>
    ensures { result ≡ find (marks.says_mark word.now) among.now }
{
    match among {
        [] => None,
        [first, rest @ ..] => {
            if says_mark(word, *first) {
                Some(*first)
            } else {
                named(word, rest)
            }
        }
    }
}

/// Returns the meaning of a word for a packet with this payload.
pub(crate) fn mark_of(payload: Payload, word: &[u8]) -> Option<Mark>
    ensures { result ≡ marks.mark_named payload word.now }
{
    let mark = named(word, &ip_marks());
    match payload {
        Payload::Raw => mark,
        Payload::Udp => match mark {
            Some(mark) => Some(mark),
            None => named(word, &udp_marks()),
        },
    }
}
