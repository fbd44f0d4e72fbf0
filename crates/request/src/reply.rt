//! The replies of a stack.

use flat_model::{Addr, Counters, Errno, Mbstat};

/// The reply of a stack to a request: a reply of the reference machine. The bytes of a packet or of a datagram are
/// borrowed.
#[derive(Clone, Copy)]
pub enum Reply<'a> {
    /// The call succeeded, and has no result of its own.
    Done,
    /// A socket is open, with this descriptor.
    Opened(u32),
    /// This many bytes were sent.
    Sent(usize),
    /// These bytes came from this sender.
    Received(Addr, &'a [u8]),
    /// The packet that the link takes, if there is one.
    Given(Option<&'a [u8]>),
    /// The counters.
    Counted(Counters),
    /// The usage of the pool.
    Shown(Mbstat),
    /// The call failed.
    Refused(Errno),
}
