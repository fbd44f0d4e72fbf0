//! The errors of calls.
ghost use Rattle.std.specs.Prelude.{◌≡◌};

use thiserror::Error;

/// What a refused send lacked.
#[derive(Clone, Copy, Debug, PartialEq, Eq, Error)]
pub enum Lack {
    /// The pool has too few buffers.
    #[error("pool")]
    Pool,
    /// The interface's output queue is full.
    #[error("queue")]
    Queue,
}

/// Why a socket call failed, with the meanings of 4.4BSD's error numbers. It is displayed with 4.4BSD's text.
#[derive(Clone, Copy, Debug, PartialEq, Eq, Error)]
pub enum Errno {
    /// The descriptor isn't open.
    #[error("bad file descriptor")]
    BadDescriptor,
    /// The destination is the broadcast address, and the socket isn't allowed to send to it.
    #[error("permission denied")]
    Access,
    /// The socket is already bound.
    #[error("invalid argument")]
    Invalid,
    /// All descriptors are open.
    #[error("too many open files")]
    TooManyFiles,
    /// No datagram is queued, and the call doesn't wait.
    #[error("resource temporarily unavailable")]
    WouldBlock,
    /// The socket isn't connected, and the call has no destination.
    #[error("destination address required")]
    DestinationRequired,
    /// The datagram is too long.
    #[error("message too long")]
    MessageSize,
    /// Another socket has the address and port.
    #[error("address already in use")]
    AddressInUse,
    /// The address isn't an address of this host, or the port to connect to is 0.
    #[error("can't assign requested address")]
    AddressNotAvailable,
    /// There are too few buffers, or the output queue has too little space.
    #[error("no buffer space available ({0})")]
    NoBufs(Lack),
    /// The socket is connected, and the call has a destination.
    #[error("socket is already connected")]
    IsConnected,
    /// No interface leads to the destination.
    #[error("no route to host")]
    HostUnreachable,
}

impl Lack {
    ghost use Rattle.flat_model.specs.Scripts.Errnos.{lack_name};

    /// Returns the word that is printed after `ENOBUFS`.
    pub fn name(self) -> &'static str
        ensures { result.now ≡ lack_name self }
    {
        match self {
            Lack::Pool => "pool",
            Lack::Queue => "queue",
        }
    }
}

impl Errno {
    ghost use Rattle.flat_model.specs.Scripts.Errnos.{errno_number, name_of};

    /// Returns its number in 4.4BSD (sys/errno.h), 9 to 65.
    pub fn number(self) -> u8
        ensures { result ≡ errno_number self }
    {
        match self {
            Errno::BadDescriptor => 9,
            Errno::Access => 13,
            Errno::Invalid => 22,
            Errno::TooManyFiles => 24,
            Errno::WouldBlock => 35,
            Errno::DestinationRequired => 39,
            Errno::MessageSize => 40,
            Errno::AddressInUse => 48,
            Errno::AddressNotAvailable => 49,
            Errno::NoBufs(_) => 55,
            Errno::IsConnected => 56,
            Errno::HostUnreachable => 65,
        }
    }

    /// Returns its name in 4.4BSD. `NoBufs` has one name, whatever was lacking.
    pub fn name(self) -> &'static str
        ensures { result.now ≡ name_of self }
    {
        match self {
            Errno::BadDescriptor => "EBADF",
            Errno::Access => "EACCES",
            Errno::Invalid => "EINVAL",
            Errno::TooManyFiles => "EMFILE",
            Errno::WouldBlock => "EWOULDBLOCK",
            Errno::DestinationRequired => "EDESTADDRREQ",
            Errno::MessageSize => "EMSGSIZE",
            Errno::AddressInUse => "EADDRINUSE",
            Errno::AddressNotAvailable => "EADDRNOTAVAIL",
            Errno::NoBufs(_) => "ENOBUFS",
            Errno::IsConnected => "EISCONN",
            Errno::HostUnreachable => "EHOSTUNREACH",
        }
    }
}
