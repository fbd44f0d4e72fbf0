//! One endpoint of a conversation.

/// An Internet address and a port, which identify one endpoint of a conversation in UDP (RFC 768).
///
/// The address `a.b.c.d` is the number `a * 2^24 + b * 2^16 + c * 2^8 + d`.
#[derive(Clone, Copy, Debug, PartialEq, Eq)]
pub struct Addr {
    /// The address.
    pub ip: u32,
    /// The UDP port.
    pub port: u16,
}
