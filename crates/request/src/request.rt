//! The requests to a stack.
use flat_model::{Addr, Opt};

/// A request to a stack: an event of the reference machine. The bytes of a packet or of a send are borrowed.
#[derive(Clone, Copy)]
pub enum Request<'a> {
    /// `socket`.
    Socket,
    /// `bind` of a descriptor to an address and port.
    Bind(u32, Addr),
    /// `connect` of a descriptor to an address and port.
    Connect(u32, Addr),
    /// A send of these bytes, to an address and port or to the peer.
    Send(u32, Option<Addr>, &'a [u8]),
    /// `recvfrom` on a descriptor, of at most this many bytes.
    Receive(u32, usize),
    /// `close`.
    Close(u32),
    /// `setsockopt`: sets or clears an option of a descriptor.
    SetOption(u32, Opt, bool),
    /// This packet arrives.
    Packet(&'a [u8]),
    /// The link takes the oldest packet.
    Transmit,
    /// Half a second passes.
    Tick,
    /// A query for the counters.
    Counters,
    /// A query for the usage of the pool.
    Usage,
}
