//! The head fields of an mbuf.
ghost use Rattle.std.specs.Prelude.{◌≡◌};
ghost use Rattle.mbuf_chain.specs.Inside.Readable.{reported_head};

use mbuf_pool::{Head, PacketHeader};

/// The head fields of an mbuf of a chain, for drawing it as volume 2 does in chapter 2. Mbuf numbers replace addresses.
/// The numbers are only for output: no call accepts one as a chain or an mbuf.
#[derive(Clone, Copy, Debug, PartialEq, Eq)]
pub struct MbufHead {
    /// The mbuf's own number.
    pub number: u32,
    /// The next mbuf of the chain, `m_next`.
    pub next: Option<u32>,
    /// The first mbuf of the chain after this one in a train, `m_nextpkt`. Only the first mbuf of a chain has one.
    pub next_packet: Option<u32>,
    /// The offset of its bytes, in the mbuf or in its cluster. In 4.4BSD `m_data` points there.
    pub start: u32,
    /// The number of its bytes, `m_len`.
    pub len: u32,
    /// The packet header, `m_pkthdr`, which only the first mbuf of a chain can have: the number of bytes in the whole
    /// chain, and the chain's tag in a train.
    pub packet: Option<PacketHeader>,
    /// The cluster that contains its bytes, if there is one: `m_ext`.
    pub cluster: Option<u32>,
}

impl MbufHead {
    /// Builds the value from an mbuf's number and its head.
    pub(crate) fn of(number: u32, head: Head) -> MbufHead
        ensures { result ≡ reported_head number head }
    {
        MbufHead {
            number,
            next: head.next,
            next_packet: head.next_packet,
            start: head.start,
            len: head.len,
            packet: head.packet,
            cluster: head.cluster,
        }
    }
}
