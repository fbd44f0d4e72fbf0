//! The receive queues of all sockets.
ghost use Rattle.std.specs.Prelude.{◌≡◌, ℕ, length};
ghost use Rattle.sockbuf.specs.SockBuf.{no_datagrams};
ghost use Rattle.sock_calls.specs.Sockets.{AreEmpty, queue_at};

use arrayvec::ArrayVec;
use params::MAX_SOCKETS;
use sockbuf::SockBuf;
use std::array;
use std::marker::Model;
use std::mem::ManuallyDrop;

/// The number of receive queues.
pub(crate) const QUEUES: usize = MAX_SOCKETS as usize;

/// A queue for each descriptor, from 3 on. They must be consumed, by `end_empty`.
pub(crate) struct ReceiveQueues {
    // always 64
    pub(crate) queues: ArrayVec<SockBuf, QUEUES>,
}

impl Model for ReceiveQueues {
    ghost use Rattle.std.specs.Prelude.{◌≡◌, List};
    ghost use Rattle.arrayvec.specs.ArrayVec.{array_vec_len};
    ghost use Rattle.params.specs.declared.TheConstants.{MAX_SOCKETS};
    ghost use Rattle.sockbuf.specs.SockBuf.{SockBufView};

    ghost Value = { List SockBufView };

    ghost view = { λ q. q.queues.items };

    ghost invariant = { λ q. array_vec_len q.queues ≡ MAX_SOCKETS };
}

impl ReceiveQueues {
    /// Creates empty queues.
    pub(crate) fn new() -> ReceiveQueues
        ensures empty { (k : ℕ) → queue_at result k ≡ no_datagrams }
        ensures places { length result ≡ MAX_SOCKETS }
    {
        let queues = array::from_fn(
            |_| -> SockBuf
                ensures { result ≡ no_datagrams }
            { SockBuf::new() },
        );
        ReceiveQueues {
            queues: ArrayVec::from_array_in((), queues),
        }
    }

    /// The queues, from that of descriptor 3 on.
    pub(crate) fn as_slice(&self) -> &[SockBuf]
        ensures value { result.now ≡ self.now }
        ensures len { length result.now ≡ MAX_SOCKETS }
    {
        self.queues.as_slice()
    }

    /// The number of queues: 64.
    pub(crate) fn len(&self) -> usize
        ensures value { result ≡ length self.now }
        ensures all { result ≡ MAX_SOCKETS }
    {
        self.queues.len()
    }

    /// Consumes empty queues.
    pub(crate) fn end_empty(self)
        requires { AreEmpty self }
    {
        let ReceiveQueues { queues } = self;
        // The library's vector can only be taken apart if its elements may be dropped, but a queue must be consumed.
        // These are empty, so nothing is lost.
        let _empty = unsafe { ManuallyDrop::new_unchecked(queues) };
    }
}
