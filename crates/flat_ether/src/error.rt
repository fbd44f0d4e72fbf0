//! Errors that other hosts report for datagrams that were sent.
/// Why a datagram didn't arrive (RFC 792, "Destination Unreachable").
#[derive(Clone, Copy, Debug, PartialEq, Eq)]
pub enum NetFault {
    /// No socket takes it there, or its protocol is unknown there: ECONNREFUSED.
    Refused,
    /// There is no route to it: EHOSTUNREACH.
    Unreachable,
}

/// What was reported for datagrams sent from one port to one address.
#[derive(Clone, Copy, Debug, Default, PartialEq, Eq)]
pub struct SocketError {
    /// The port that they were sent from.
    pub port: u16,
    /// The address that they were sent to.
    pub peer_ip: u32,
    /// The port that they were sent to.
    pub peer_port: u16,
    /// The code of "destination unreachable".
    pub code: u8,
}
