//! Causes in words.
ghost use Rattle.std.specs.Prelude.{◌≡◌, ◌≤◌, length};
ghost use Rattle.play_text.specs.Words as words;
ghost use Rattle.play_text.specs.Words.{all_causes, cause_words};

use flat_model::{Counter, Counters, Why};

/// How many causes there are.
pub const CAUSES: usize = 18;

/// All causes for which a packet is dropped, in the order of the tests.
pub fn causes() -> [Why; CAUSES]
    ensures { result ≡ all_causes }
{
    [
        Why::TooSmall,
        Why::BadVersion,
        Why::BadHeaderLength,
        Why::Options,
        Why::BadSum,
        Why::BadLength,
        Why::TooShort,
        Why::CantForward,
        Why::BadFragment,
        Why::FragmentDropped,
        Why::NoProtocol,
        Why::UdpHeaderDrops,
        Why::UdpBadLength,
        Why::UdpBadSum,
        Why::UdpNoPort,
        Why::UdpNoPortBroadcast,
        Why::UdpFullSocket,
        Why::NoBufs,
    ]
}

/// Returns a cause in words, those of its `Display`.
pub fn words_for(why: Why) -> &'static str
    ensures is { result.now ≡ cause_words why }
    ensures short { length result.now ≤ 40 }
{
    match why {
        Why::TooSmall => "packet shorter than a header",
        Why::BadVersion => "wrong version",
        Why::BadHeaderLength => "header length too small",
        Why::Options => "options are not taken",
        Why::BadSum => "wrong header checksum",
        Why::BadLength => "total length too small",
        Why::TooShort => "packet shorter than its total length",
        Why::CantForward => "not addressed to this machine",
        Why::BadFragment => "malformed fragment",
        Why::FragmentDropped => "fragment held already",
        Why::NoProtocol => "unknown protocol",
        Why::UdpHeaderDrops => "datagram shorter than a header",
        Why::UdpBadLength => "wrong datagram length",
        Why::UdpBadSum => "wrong datagram checksum",
        Why::UdpNoPort => "no socket has the port",
        Why::UdpNoPortBroadcast => "no socket has the port of the broadcast",
        Why::UdpFullSocket => "receive queue full",
        Why::NoBufs => "no buffer space available",
    }
}

/// Returns whether a counter went up between two looks at a machine.
pub fn rose(counter: Counter, before: &Counters, after: &Counters) -> bool
    ensures { result ≡ words.rose counter before.now after.now }
{
    before.value(counter) < after.value(counter)
}
