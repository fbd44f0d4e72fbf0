//! A send, and the errors that it can have.
ghost use Rattle.sock_calls.specs.Outgoing.{CanSend, sending};

use flat_model::{Addr, Errno, Lack};
use mbuf_chain::Pool;
use sock_calls::{Net, Socks};

/// The result of a send.
pub enum Outcome {
    /// `net.out` has its packets, or `net.looped` those that come back.
    Sent,
    /// The pool lacks buffers, and nothing changed. If there are unfinished datagrams, the caller frees them and sends
    /// again.
    Later,
    /// The send failed.
    Refused(Errno),
}

/// Sends two bytes. The packets that earlier sends to this host itself left in `net.looped` must have been taken from
/// there.
pub fn greet(socks: &mut Socks, pool: &mut Pool, net: &mut Net, fd: u32, to: Addr) -> Outcome
    requires { CanSend (sending pool.old socks.old net.old) }
{
    match socks.sendto(pool, net, fd, Some(to), b"hi") {
        Ok(_) => Outcome::Sent,
        Err(Errno::NoBufs(Lack::Pool)) => Outcome::Later,
        Err(errno) => Outcome::Refused(errno),
    }
}
