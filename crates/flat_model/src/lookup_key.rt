//! The key that finds a packet's socket.
use crate::address::Addr;

/// The key of a socket lookup (`in_pcblookup` of volume 2, chapter 22).
///
/// Unset is not 0: for a packet all of the fields are set, even the address 0.0.0.0 and the port 0.
#[derive(Clone, Copy, Debug, PartialEq, Eq)]
pub struct LookupKey {
    /// The local address.
    pub local: Option<u32>,
    /// The local port.
    pub port: Option<u16>,
    /// The foreign address and port.
    pub peer: Option<Addr>,
}
