//! The fate of a packet that arrived.
ghost use Rattle.std.specs.Prelude.{◌≡◌, ◌<◌, ◌+◌, ◌≤◌};
ghost use Rattle.params.specs.declared.TheConstants.{FIRST_DESCRIPTOR, MAX_SOCKETS};
ghost use Rattle.flat_model.specs.Machine.Fate.{mark, nobody};

use crate::counters::Why;
use params::FIRST_DESCRIPTOR;

/// The sockets that matched a datagram, in two sets. Bit k of a set is the socket with descriptor 3 + k.
#[derive(Clone, Copy, Debug, PartialEq, Eq)]
pub struct Reached {
    /// The sockets in whose receive queue it was put.
    pub got: u64,
    /// The sockets that lost it: the queue was full, or the pool had too few buffers for their copy. Each of them is
    /// counted for its cause, [`UdpFullSocket`](Why::UdpFullSocket) or [`NoBufs`](Why::NoBufs).
    pub lost: u64,
}

/// The fate of a packet that arrived.
#[derive(Clone, Copy, Debug, PartialEq, Eq)]
pub enum Fate {
    /// It carried a datagram for these sockets.
    Delivered(Reached),
    /// It's a fragment, and waits for the others of its datagram.
    Kept,
    /// It's a fragment that completed its datagram, which was for these sockets, or was dropped for this cause.
    Completed(Result<Reached, Why>),
    /// It was dropped for this cause, or a datagram that it carried.
    Dropped(Why),
}

impl Reached {
    /// Returns two empty sets.
    pub fn nobody() -> Reached
        ensures { result ≡ nobody }
    {
        Reached { got: 0, lost: 0 }
    }

    /// Returns these sets with one more socket: in `got`, or in `lost` if it lost the datagram for a cause.
    #[inline(always)]
    pub fn with(self, fd: u32, lack: Option<Why>) -> Reached
        requires least { FIRST_DESCRIPTOR ≤ fd }
        requires most { fd < FIRST_DESCRIPTOR + MAX_SOCKETS }
        ensures { result ≡ mark lack fd self }
    {
        let bit = 1 << (fd - FIRST_DESCRIPTOR);
        match lack {
            None => Reached {
                got: self.got | bit,
                lost: self.lost,
            },
            Some(_) => Reached {
                got: self.got,
                lost: self.lost | bit,
            },
        }
    }
}
