//! The calls that change only one part of the stack.
ghost use Rattle.std.specs.Prelude.{◌≡◌, ◌≤◌, [], drop, length, take, IfNone, IfOk, IfSome, OnErr};
ghost use Rattle.flat_model.specs.Machine.Event.{Open, Bind, Connect, Receive, Close, Set_limit, Set_option, Transmit, Tick, Ask_counters, Ask_usage, Done, Counted, Shown};
ghost use Rattle.flat_model.specs.Machine.Replies.{opened_reply, done_reply, received_reply, given_reply, FitsRoom};
ghost use Rattle.flat_model.specs.Machine.Step.{Step};
ghost use Rattle.ip_reass.specs.Expiring.{expired_among};
ghost use Rattle.net_stack.specs.Stack.{state_of};

use crate::stack::Stack;
use crate::transmit::take_packet;
use flat_model::{Addr, Counter, Counters, Errno, Mbstat, Opt};
use ip_reass::Expired;

impl Stack {
    /// Opens a socket, with the lowest free descriptor from 3 to 66 (volume 2 chapter 15).
    ///
    /// # Errors
    ///
    /// `TooManyFiles` if 64 are open. Nothing changes then.
    pub fn socket(&mut self) -> Result<u32, Errno>
        ensures { Step (state_of self.old) Open (opened_reply result) (state_of self.new) }
    {
        self.host.socks.socket()
    }

    /// Binds an unbound socket: sets its local address, unless that is 0.0.0.0, and its port. Port 0 chooses an
    /// ephemeral port (volume 2 chapter 22).
    ///
    /// # Errors
    ///
    /// Tested in this order, and nothing changes: `BadDescriptor`; `Invalid` if the socket has a port or a local
    /// address; `AddressNotAvailable` if the address is neither 0.0.0.0 nor one of the machine's; `AddressInUse` if the
    /// port isn't 0 and another socket prevents the bind.
    pub fn bind(&mut self, fd: u32, local: Addr) -> Result<(), Errno>
        ensures { Step (state_of self.old) (Bind fd local) (done_reply result) (state_of self.new) }
    {
        self.host.socks.bind(fd, local)
    }

    /// Connects a socket (volume 2 chapter 22). A connected socket is disconnected first, and stays so on error.
    ///
    /// # Errors
    ///
    /// Tested in this order: `BadDescriptor`; `AddressNotAvailable` if the port is 0; `HostUnreachable`; `AddressInUse`
    /// if another socket has the same four values.
    pub fn connect(&mut self, fd: u32, to: Addr) -> Result<(), Errno>
        ensures { Step (state_of self.old) (Connect fd to) (done_reply result) (state_of self.new) }
    {
        self.host.socks.connect(fd, to)
    }

    /// Sets or clears an option (volume 2 chapter 17). Error: `BadDescriptor`; nothing changes then.
    pub fn setsockopt(&mut self, fd: u32, option: Opt, on: bool) -> Result<(), Errno>
        ensures { Step (state_of self.old) (Set_option fd option on) (done_reply result) (state_of self.new) }
    {
        self.host.socks.setsockopt(fd, option, on)
    }

    /// Sets the size in bytes of a socket's receive queue, with 16 for each sender's address: `SO_RCVBUF`. The
    /// datagrams in it may take twice as many bytes of memory (`sbreserve` of volume 2, chapter 16), and never more:
    /// unlike in 4.4BSD, a datagram's own mbufs count in the test. With 0 the socket is as a new one: 41,600 bytes, and
    /// 4.4BSD's test. The queue keeps its datagrams. Error: `BadDescriptor`; nothing changes then.
    pub fn set_receive_limit(&mut self, fd: u32, limit: u16) -> Result<(), Errno>
        ensures { Step (state_of self.old) (Set_limit fd limit) (done_reply result) (state_of self.new) }
    {
        self.host.socks.set_limit(fd, limit)
    }

    /// Removes the oldest datagram from a socket's queue, copies to `buffer` the bytes that fit, and returns its sender
    /// and the number of bytes copied. The other bytes are lost, and all its buffers are freed (`soreceive` of volume
    /// 2, chapter 16). The rest of `buffer` is unchanged. It never blocks.
    ///
    /// # Errors
    ///
    /// `BadDescriptor`; `WouldBlock` if no datagram is queued. Nothing changes then, nor does `buffer`.
    pub fn recvfrom(&mut self, fd: u32, buffer: &mut [u8]) -> Result<(Addr, usize), Errno>
        ensures step { Step (state_of self.old) (Receive fd (length buffer.old)) (received_reply result buffer.new)
            (state_of self.new) }
        ensures fits { FitsRoom result buffer.new }
        ensures same { OnErr result (buffer.new ≡ buffer.old) }
        ensures rest { IfOk result (λ r. drop r.1 buffer.new ≡ drop r.1 buffer.old) }
    {
        let host = self.host.as_mut();
        host.socks.recvfrom(&mut host.pool, fd, buffer)
    }

    /// Closes a socket, and frees the datagrams in its queue. Packets that it sent stay in the output queue (volume 2
    /// chapter 15). Error: `BadDescriptor`; nothing changes then.
    pub fn close(&mut self, fd: u32) -> Result<(), Errno>
        ensures { Step (state_of self.old) (Close fd) (done_reply result) (state_of self.new) }
    {
        let host = self.host.as_mut();
        host.socks.close(&mut host.pool, fd)
    }

    /// Removes the oldest packet from the output queue, for the link: copies its bytes to the front of `buffer`, frees
    /// its buffers, and returns its length. `None` if the queue is empty. The rest of `buffer` is unchanged. `buffer`
    /// must be at least as long as the MTU, which `mtu` returns; 4,352 bytes are always enough.
    pub fn tx(&mut self, buffer: &mut [u8]) -> Option<usize>
        requires { self.old.config.mtu ≤ length buffer.old }
        ensures step { Step (state_of self.old) Transmit (given_reply result buffer.new) (state_of self.new) }
        ensures fits { IfSome result (λ n. n ≤ length buffer.new) }
        ensures same { IfNone result (buffer.new ≡ buffer.old) }
        ensures rest { IfSome result (λ n. drop n buffer.new ≡ drop n buffer.old) }
    {
        let host = self.host.as_mut();
        take_packet(&mut host.pool, &mut host.net.out, buffer)
    }

    /// Advances the clock by a tick, in 4.4BSD half a second: each unfinished datagram loses one of its ticks. Those
    /// without a tick left are freed and counted as `IpFragtimeout` (`ip_slowtimo` of volume 2, chapter 10).
    pub fn tick(&mut self)
        ensures { Step (state_of self.old) Tick Done (state_of self.new) }
    {
        let host = self.host.as_mut();
        let ended = host.reass.tick(&mut host.pool);
        host.net
            .counters
            .count_more(Counter::IpFragtimeout, u64::from(ended));
    }

    /// Does the same as `tick`, and puts the datagrams that it drops into `expired`, oldest first, as many as it has
    /// places for. Returns how many are dropped. The other places of `expired` are unchanged.
    pub fn tick_told(&mut self, expired: &mut [Expired]) -> usize
        ensures step { Step (state_of self.old) Tick Done (state_of self.new) }
        ensures number { result ≡ length (expired_among (state_of self.old).unfinished) }
        ensures told { take result expired.new
            ≡ take (length expired.new) (expired_among (state_of self.old).unfinished) }
        ensures rest { drop result expired.new ≡ drop result expired.old }
    {
        let host = self.host.as_ref();
        let count = host.reass.expiring(&host.pool, expired);
        self.tick();
        count
    }

    /// All counters since boot.
    pub fn counters(&self) -> Counters
        ensures { Step (state_of self.now) Ask_counters (Counted result) (state_of self.now) }
    {
        self.host.net.counters
    }

    /// The use of the pool: the free buffers, the totals, the sum of all clusters' reference counts, and the largest of
    /// them. If the stack holds no packet or datagram, all buffers are free and the counts are 0. It takes one step for
    /// each cluster.
    pub fn mbstat(&self) -> Mbstat
        ensures step { Step (state_of self.now) Ask_usage (Shown result) (state_of self.now) }
        ensures free { (state_of self.now).sockets ≡ [] → (state_of self.now).unfinished ≡ []
            → (state_of self.now).output ≡ []
            → result ≡ record {
              free_mbufs = self.now.config.mbufs;
              mbufs = self.now.config.mbufs;
              free_clusters = self.now.config.clusters;
              clusters = self.now.config.clusters;
              refs = 0;
              most = 0;
            } }
    {
        ledger::mbstat(&self.host.pool)
    }
}
