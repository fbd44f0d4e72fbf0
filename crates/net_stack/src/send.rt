//! A send, with the datagrams that it may free and the packets that come back.
ghost use Rattle.std.specs.Prelude.{◌≡◌};
ghost use Rattle.net_stack.specs.Inside.Hosts.{MaySend, send_view};
ghost use Rattle.net_stack.specs.Inside.Sending.{HasSent, IsTried, lacks_pool};

use crate::host::Host;
use flat_model::{Addr, Counter, Errno, Lack};
use mbuf_chain::{Reclaim, Train};
use std::mem;

/// Whether a send failed because the pool has too few free buffers.
fn lacks_pool(sent: &Result<usize, Errno>) -> bool
    ensures { result ≡ lacks_pool sent.now }
{
    matches!(sent, Err(Errno::NoBufs(Lack::Pool)))
}

impl Host {
    /// Sends. If the pool has too few free buffers, frees all unfinished datagrams and sends again.
    fn try_send(&mut self, fd: u32, to: Option<Addr>, bytes: &[u8]) -> Result<usize, Errno>
        requires { MaySend self.old }
        ensures { IsTried fd to bytes.now (send_view self.old) self.old.reass result
            (send_view self.new) self.new.reass }
    {
        let first = self
            .socks
            .sendto(&mut self.pool, &mut self.net, fd, to, bytes);
        if !lacks_pool(&first) {
            return first;
        }
        let datagrams = self.reass.reclaim(&mut self.pool);
        self.net
            .counters
            .count_more(Counter::IpReclaimed, u64::from(datagrams));
        self.socks
            .resend(&mut self.pool, &mut self.net, fd, to, bytes)
    }

    /// Sends, and then lets the packets that come back arrive, one after another.
    pub(crate) fn send(&mut self, fd: u32, to: Option<Addr>, bytes: &[u8]) -> Result<usize, Errno>
        requires { MaySend self.old }
        ensures { HasSent fd to bytes.now (send_view self.old) self.old.reass result
            (send_view self.new) self.new.reass }
    {
        let sent = self.try_send(fd, to, bytes);
        let looped = mem::replace(&mut self.net.looped, Train::new());
        self.arrive_all(looped);
        sent
    }
}
