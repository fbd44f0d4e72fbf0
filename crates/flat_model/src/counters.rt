//! The counts, and why a packet ended.
ghost use Rattle.std.specs.Prelude.{◌≡◌};
ghost use Rattle.flat_model.specs.Machine.Count.{counted, counter_of, counts_more, no_counts, value_of};

use crate::counter::{COUNTERS, Counter};
use thiserror::Error;

/// Why a packet, or one receiver's copy of it, ended: one case for each counter that can end one. The tests are those
/// of volume 2, chapters 8 (`ipintr`), 10 (`ip_reass`) and 23 (`udp_input`), and this project's own if a case says so.
#[derive(Clone, Copy, Debug, PartialEq, Eq, Error)]
pub enum Why {
    /// It has fewer than 20 bytes.
    #[error("packet shorter than a header")]
    TooSmall,
    /// The version isn't 4.
    #[error("wrong version")]
    BadVersion,
    /// The header length is below 5 words.
    #[error("header length too small")]
    BadHeaderLength,
    /// The header length is above 5 words (this project's own: the stack supports no options).
    #[error("options are not taken")]
    Options,
    /// The header checksum is wrong.
    #[error("wrong header checksum")]
    BadSum,
    /// The total length is below 20.
    #[error("total length too small")]
    BadLength,
    /// The packet is shorter than its total length.
    #[error("packet shorter than its total length")]
    TooShort,
    /// The destination isn't an address of this host (this project's own: the stack forwards no packets).
    #[error("not addressed to this machine")]
    CantForward,
    /// A fragment with an impossible size or offset.
    #[error("malformed fragment")]
    BadFragment,
    /// A fragment whose bytes are all present already, in pieces that begin no later.
    #[error("fragment held already")]
    FragmentDropped,
    /// A datagram of a protocol other than UDP (this project's own).
    #[error("unknown protocol")]
    NoProtocol,
    /// It carries fewer than 8 bytes.
    #[error("datagram shorter than a header")]
    UdpHeaderDrops,
    /// The UDP length is below 8 or above the number of bytes carried.
    #[error("wrong datagram length")]
    UdpBadLength,
    /// The UDP checksum is wrong.
    #[error("wrong datagram checksum")]
    UdpBadSum,
    /// No socket has the port.
    #[error("no socket has the port")]
    UdpNoPort,
    /// A broadcast, and no socket has the port.
    #[error("no socket has the port of the broadcast")]
    UdpNoPortBroadcast,
    /// The socket's receive queue is full.
    #[error("receive queue full")]
    UdpFullSocket,
    /// The pool has too few buffers.
    #[error("no buffer space available")]
    NoBufs,
}

/// The values of all counters. A counter at its greatest value stays there.
#[derive(Clone, Copy, Debug, PartialEq, Eq)]
pub struct Counters {
    /// Indexed by the order of the cases in the type [`Counter`].
    values: [u64; COUNTERS],
}

impl Why {
    /// Returns the counter that counts this cause.
    pub fn counter(self) -> Counter
        ensures { result ≡ counter_of self }
    {
        match self {
            Why::TooSmall => Counter::IpToosmall,
            Why::BadVersion => Counter::IpBadvers,
            Why::BadHeaderLength => Counter::IpBadhlen,
            Why::Options => Counter::IpOptions,
            Why::BadSum => Counter::IpBadsum,
            Why::BadLength => Counter::IpBadlen,
            Why::TooShort => Counter::IpTooshort,
            Why::CantForward => Counter::IpCantforward,
            Why::BadFragment => Counter::IpBadfrag,
            Why::FragmentDropped => Counter::IpFragdropped,
            Why::NoProtocol => Counter::IpNoproto,
            Why::UdpHeaderDrops => Counter::UdpHdrops,
            Why::UdpBadLength => Counter::UdpBadlen,
            Why::UdpBadSum => Counter::UdpBadsum,
            Why::UdpNoPort => Counter::UdpNoport,
            Why::UdpNoPortBroadcast => Counter::UdpNoportbcast,
            Why::UdpFullSocket => Counter::UdpFullsock,
            Why::NoBufs => Counter::Nobufs,
        }
    }
}

impl Counters {
    /// Returns counters that are all 0.
    pub fn none() -> Counters
        ensures { result ≡ no_counts }
    {
        Counters {
            values: [0; COUNTERS],
        }
    }

    /// Returns the value of a counter.
    pub fn value(&self, counter: Counter) -> u64
        ensures { result ≡ value_of counter self.now }
    {
        self.values[counter as usize]
    }

    /// Adds 1 to a counter.
    pub fn count(&mut self, counter: Counter)
        ensures { self.new ≡ counts_more counter 1 self.old }
    {
        self.count_more(counter, 1);
    }

    /// Adds `more` to a counter.
    pub fn count_more(&mut self, counter: Counter, more: u64)
        ensures { self.new ≡ counts_more counter more self.old }
    {
        let value = &mut self.values[counter as usize];
        *value = value.saturating_add(more);
    }

    /// Counts a packet, or one receiver's copy of it, that ended for this cause.
    #[tactic(auto, unfolding(crate::specs::Machine::Count::counted))]
    pub fn count_ended(&mut self, why: Why)
        ensures { self.new ≡ counted why self.old }
    {
        self.count(why.counter());
    }
}
