//! The parts of a stack that change as packets come and go.
ghost use Rattle.std.specs.Prelude.{◌≡◌, []};
ghost use Rattle.mbuf_chain.specs.Chain.{PoolView};
ghost use Rattle.ip_out.specs.Queues.{IsOutputQueue};
ghost use Rattle.sock_calls.specs.Sockets.{AreEmpty};
ghost use Rattle.net_stack.specs.Inside.Arrivals.{fate_by, of_completed, of_whole, one_socket};

use flat_model::{Fate, Reached, Why};
use ip_reass::Reass;
use mbuf_chain::Pool;
use params::{FIRST_DESCRIPTOR, MAX_SOCKETS};
use sock_calls::{Net, Socks};

/// The parts of a stack except its configuration. The type itself says nothing about them: each call's contract states
/// what it requires.
pub(crate) struct Host {
    pub(crate) pool: Pool,
    pub(crate) socks: Socks,
    pub(crate) reass: Reass,
    pub(crate) net: Net,
    /// The sockets of the last datagram that went through `Socks::input` or `Socks::deliver`.
    pub(crate) reached: Reached,
}

/// The fate of a packet, in two bytes, which are returned in registers: a `Fate` is returned through memory, which
/// costs each packet 20 to 40 instructions. `Host::fate` makes the fate of it.
#[derive(Clone, Copy)]
pub(crate) enum Ending {
    /// One socket got it. Its descriptor, counted from the first one.
    Got(u8),
    /// The only socket that matches lost it. Its descriptor, counted from the first one.
    Lost(u8),
    /// It carried a datagram for the sockets in `Host::reached`.
    Many,
    /// It's a fragment, and waits for the others of its datagram.
    Waits,
    /// It's a fragment that completed its datagram, which was for the sockets in `Host::reached`.
    Joined,
    /// It's a fragment that completed its datagram, which was dropped for this cause.
    JoinedEnds(Why),
    /// It was dropped for this cause, or a datagram that it carried.
    Ends(Why),
}

impl Ending {
    /// The ending of a packet that carries a whole datagram.
    pub(crate) fn of_whole(whole: Result<(), Why>) -> Ending
        ensures { result ≡ of_whole whole }
    {
        match whole {
            Ok(()) => Ending::Many,
            Err(why) => Ending::Ends(why),
        }
    }

    /// The ending of a fragment that completed its datagram.
    pub(crate) fn of_completed(whole: Result<(), Why>) -> Ending
        ensures { result ≡ of_completed whole }
    {
        match whole {
            Ok(()) => Ending::Joined,
            Err(why) => Ending::JoinedEnds(why),
        }
    }
}

/// The sets of the one socket that matched.
fn one_socket(place: u8, lack: Option<Why>) -> Reached
    ensures { result ≡ one_socket place lack }
{
    Reached::nobody().with(FIRST_DESCRIPTOR + u32::from(place) % MAX_SOCKETS, lack)
}

impl Host {
    /// The fate of the packet that just ended so.
    #[inline(always)]
    pub(crate) fn fate(&self, ending: Ending) -> Fate
        ensures { result ≡ fate_by ending self.now.reached }
    {
        match ending {
            Ending::Got(place) => Fate::Delivered(one_socket(place, None)),
            Ending::Lost(place) => Fate::Delivered(one_socket(place, Some(Why::UdpFullSocket))),
            Ending::Many => Fate::Delivered(self.reached),
            Ending::Waits => Fate::Kept,
            Ending::Joined => Fate::Completed(Ok(self.reached)),
            Ending::JoinedEnds(why) => Fate::Completed(Err(why)),
            Ending::Ends(why) => Fate::Dropped(why),
        }
    }

    /// Consumes parts that were just made.
    pub(crate) fn end_new(self)
        requires socks { AreEmpty self.socks.queues }
        requires reass { self.reass.datagrams ≡ [] }
        requires out { (p : PoolView) → IsOutputQueue p self.net.out }
        requires looped { self.net.looped.len ≡ 0 }
    {
        let Host {
            mut pool,
            socks,
            reass,
            net,
            reached: _,
        } = self;
        socks.end_empty();
        reass.end(&mut pool);
        net.end(&mut pool);
    }
}
