//! The key that connects fragments with their datagram.

/// Fragments with the same key are of one datagram (RFC 791, section 3.2).
#[derive(Clone, Copy, Debug, PartialEq, Eq)]
pub struct FragmentKey {
    /// The source address.
    pub source: u32,
    /// The destination address.
    pub destination: u32,
    /// The identification of the datagram.
    pub id: u16,
    /// The protocol number of its data.
    pub protocol: u8,
}
