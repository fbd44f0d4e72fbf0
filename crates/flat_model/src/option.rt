//! The options of a socket.

/// An option of a socket (volume 2, chapter 17), off in a new socket.
#[derive(Clone, Copy, Debug, PartialEq, Eq)]
pub enum Opt {
    /// The socket may send to the broadcast address.
    Broadcast,
    /// Other sockets that have it too may bind to the same address and port.
    ReusePort,
}
