//! Delivery of a datagram into the queues of the sockets that match it.
ghost use Rattle.std.specs.Prelude.{◌≡◌, ◌+◌, ◌*◌, ◌<◌, ◌≤◌, ◌∷◌, [], ◌++◌, true, length, All, ℕ};
ghost use Rattle.params.specs.declared.TheConstants.{MAX_MBUFS, MCLBYTES, MSIZE};
ghost use Rattle.flat_model.specs.Machine.Fate.{mark};
ghost use Rattle.flat_model.specs.Sockets.Fits as flat;
ghost use Rattle.mbuf_chain.specs.Chain.{IsLive, PoolView, chain_of, held_mbufs, string};
ghost use Rattle.mbuf_chain.specs.Owners.{IsOwned, Moves};
ghost use Rattle.flat_model.specs.Amounts.Weight.{times};
ghost use Rattle.chain_ops.specs.Makes.{HasMbufs};
ghost use Rattle.pcb_table.specs.Table.{IsDescriptor, IsOpen};
ghost use Rattle.ledger.specs.Accounts.{item_at, weight_at};
ghost use Rattle.sockbuf.specs.SockBuf.{IsSockBuf, datagram_from};
ghost use Rattle.sock_calls.specs.Sockets.{SocksFit, StepsAt, from_three, queue_at, queues_of, queued_chains};
ghost use Rattle.sock_calls.specs.Delivery.{net_view, IsAppended, IsOffered, IsDelivered};
ghost use Rattle.sock_calls.specs.Inside.Parts.{socks_of};

use crate::parts::Parts;
use crate::queues::ReceiveQueues;
use crate::sockets::place_of;
use chain_ops::{Extent, m_copym};
use flat_model::{Addr, Counters, Reached, Why};
use ledger::{Waiting, reserve};
use mbuf_chain::{Chain, Pool};
use sockbuf::memory_of;

/// A datagram without its headers, and its sender.
pub(crate) struct Datagram {
    pub(crate) sender: Addr,
    pub(crate) chain: Chain,
}

impl ReceiveQueues {
    /// Whether a datagram of `len` bytes that takes `memory` bytes fits into a descriptor's queue, which has this
    /// limit.
    pub(crate) fn fits_at(&self, fd: u32, limit: u16, len: u32, memory: u32) -> bool
        requires { IsDescriptor fd }
        ensures { (p : PoolView) → ((k : ℕ) → IsSockBuf p (queue_at (from_three self.now) k))
            → result ≡ flat.fits limit (queues_of p (from_three self.now) fd) len memory }
    {
        self.queues[place_of(fd)].fits(limit, len, memory)
    }

    /// Appends a datagram of `len` bytes to a descriptor's queue. It must fit, and an mbuf must be free.
    // Inlined, like `append`.
    #[inline(always)]
    fn append_at(
        &mut self,
        pool: &mut Pool,
        fd: u32,
        limit: u16,
        datagram: Datagram,
        len: u32,
        memory: u32,
    )
        requires each { (k : ℕ) → IsSockBuf pool.old (queue_at (from_three self.old) k) }
        requires descriptor { IsDescriptor fd }
        requires owned { IsOwned pool.old (datagram.chain ∷ queued_chains pool.old (from_three self.old)) }
        requires free { held_mbufs pool.old < pool.old.mbufs }
        requires len { len ≡ length (string (chain_of pool.old datagram.chain)) }
        requires memory { memory ≡ flat.memory_of (weight_at pool.old datagram.chain) }
        requires bound { memory ≤ (MSIZE + MCLBYTES) * MAX_MBUFS }
        requires fits { flat.fits limit (queues_of pool.old (from_three self.old) fd) len memory ≡ true }
        ensures steps { StepsAt pool.old (datagram.chain ∷ []) (from_three self.old) fd
            pool.new [] (from_three self.new) }
        ensures here { queues_of pool.new (from_three self.new) fd ≡ queues_of pool.old (from_three self.old) fd
            ++ datagram_from datagram.sender pool.old datagram.chain ∷ [] }
    {
        let Datagram { sender, chain } = datagram;
        self.queues[place_of(fd)].append_fitting(pool, limit, sender, chain, len, memory);
    }
}

/// Copies a chain; the copy shares its clusters. A free mbuf is needed for each of the chain's mbufs.
fn copy_whole(pool: &mut Pool, chain: &Chain) -> Chain
    requires live { IsLive pool.old chain.now }
    requires free { HasMbufs pool.old (length (chain_of pool.old chain.now).entries) }
    ensures item { item_at pool.new result ≡ item_at pool.old chain.now }
    ensures moves { Moves pool.old [] pool.new (result ∷ []) }
{
    match m_copym(pool, chain, Extent::All) {
        Ok(copy) => copy,
        Err(_) => unreachable!(),
    }
}

/// Adds a socket to the sets: to `lost` if it lost the datagram for a cause, otherwise to `got`.
// At `-Os`, `portable/core` doesn't inline it: numbers of 64 bits take much code there.
pub(crate) fn mark(reached: &mut Reached, fd: u32, lack: Option<Why>)
    requires { IsDescriptor fd }
    ensures { reached.new ≡ mark lack fd reached.old }
{
    *reached = reached.with(fd, lack);
}

impl Parts {
    /// Appends a datagram to the queue of an open socket, with an mbuf for the sender's address. If the queue is full
    /// or no mbuf is free, the datagram is freed and counted for this cause, which is returned (volume 2, chapter 16).
    // Inlined, because most datagrams have one receiver.
    #[inline(always)]
    fn append<R: Waiting>(
        &mut self,
        pool: &mut Pool,
        waiting: &mut R,
        counters: &mut Counters,
        fd: u32,
        datagram: Datagram,
    ) -> Option<Why>
        requires opened { IsOpen fd self.old.pcbs }
        requires fit { SocksFit pool.old (socks_of self.old) (datagram.chain ∷ R.owned pool.old waiting.old) }
        requires waits { R.is_ready pool.old waiting.old }
        ensures appended { IsAppended
            (net_view pool.old (socks_of self.old) (R.unfinished pool.old waiting.old)
            (R.owned pool.old waiting.old) counters.old)
            datagram.chain fd datagram.sender result
            (net_view pool.new (socks_of self.new) (R.unfinished pool.new waiting.new)
            (R.owned pool.new waiting.new) counters.new) }
        ensures waits { R.is_ready pool.new waiting.new }
    {
        let Datagram { sender, chain } = datagram;
        let len = pool.len(&chain);
        let limit = self.pcbs.limit(fd);
        let memory = memory_of(pool, &chain);
        if !self.queues.fits_at(fd, limit, len, memory) {
            pool.free_chain(chain);
            counters.count_ended(Why::UdpFullSocket);
            return Some(Why::UdpFullSocket);
        }
        if !reserve(pool, waiting, counters, 1, 0) {
            pool.free_chain(chain);
            counters.count_ended(Why::NoBufs);
            return Some(Why::NoBufs);
        }
        pool.laws();
        let datagram = Datagram { sender, chain };
        self.queues
            .append_at(pool, fd, limit, datagram, len, memory);
        None
    }

    /// Appends a copy of a datagram to the queue of an open socket, with an mbuf for the sender's address. If the queue
    /// is full or too few mbufs are free, the cause is counted and returned. The caller keeps the datagram itself.
    fn deliver_copy<R: Waiting>(
        &mut self,
        pool: &mut Pool,
        waiting: &mut R,
        counters: &mut Counters,
        fd: u32,
        datagram: &Datagram,
    ) -> Option<Why>
        requires opened { IsOpen fd self.old.pcbs }
        requires fit { SocksFit pool.old (socks_of self.old) (datagram.now.chain ∷ R.owned pool.old waiting.old) }
        requires waits { R.is_ready pool.old waiting.old }
        ensures offered { IsOffered
            (net_view pool.old (socks_of self.old) (R.unfinished pool.old waiting.old)
            (R.owned pool.old waiting.old) counters.old)
            datagram.now.chain fd datagram.now.sender result
            (net_view pool.new (socks_of self.new) (R.unfinished pool.new waiting.new)
            (R.owned pool.new waiting.new) counters.new) }
        ensures waits { R.is_ready pool.new waiting.new }
    {
        let mbufs = pool.mbufs(&datagram.chain);
        if !reserve(pool, waiting, counters, mbufs, 0) {
            counters.count_ended(Why::NoBufs);
            return Some(Why::NoBufs);
        }
        pool.laws();
        let copy = Datagram {
            sender: datagram.sender,
            chain: copy_whole(pool, &datagram.chain),
        };
        self.append(pool, waiting, counters, fd, copy)
    }

    /// Appends a datagram to the queues of all these sockets: a copy to each but the last, and the datagram itself to
    /// the last. If one of them fails, the others are still delivered (volume 2, chapter 23). `reached` receives which
    /// sockets got it and which lost it.
    // Inlined: out of line it costs 30 instructions a delivery.
    #[inline(always)]
    pub(crate) fn deliver_all<R: Waiting>(
        &mut self,
        pool: &mut Pool,
        waiting: &mut R,
        counters: &mut Counters,
        fds: &[u32],
        datagram: Datagram,
        reached: &mut Reached,
    )
        requires some { 0 < length fds.now }
        requires opened { All (λ fd. IsOpen fd self.old.pcbs) fds.now }
        requires distinct { (fd : ℕ) → times fd fds.now ≤ 1 }
        requires fit { SocksFit pool.old (socks_of self.old) (datagram.chain ∷ R.owned pool.old waiting.old) }
        requires waits { R.is_ready pool.old waiting.old }
        ensures delivered { IsDelivered
            (net_view pool.old (socks_of self.old) (R.unfinished pool.old waiting.old)
            (R.owned pool.old waiting.old) counters.old)
            datagram.chain fds.now datagram.sender reached.new
            (net_view pool.new (socks_of self.new) (R.unfinished pool.new waiting.new)
            (R.owned pool.new waiting.new) counters.new) }
        ensures waits { R.is_ready pool.new waiting.new }
    {
        let last = fds.len() - 1;
        *reached = Reached::nobody();
        let mut i = 0;
        'receivers: while i < last {
            let lack = self.deliver_copy(pool, waiting, counters, fds[i], &datagram);
            mark(reached, fds[i], lack);
            i += 1;
        }
        let lack = self.append(pool, waiting, counters, fds[last], datagram);
        mark(reached, fds[last], lack);
    }
}
