//! A datagram that arrives, from the lookup to the queue of a socket.
ghost use Rattle.std.specs.Prelude.{◌≡◌, ◌+◌, ◌<◌, ◌≤◌, [], ◌∷◌, length, true, false, if◌then◌else◌, ℕ};
ghost use Rattle.params.specs.declared.TheConstants.{MLEN};
ghost use Rattle.mbuf_chain.specs.Chain.{PoolView, chain_of, free_clusters, held_mbufs, string};
ghost use Rattle.mbuf_chain.specs.Owners.{IsOwned, Moves};
ghost use Rattle.pcb_table.specs.Table.{IsDescriptor, IsOpen};
ghost use Rattle.sockbuf.specs.SockBuf.{IsSockBuf};
ghost use Rattle.udp.specs.Checked.{is_to_all};
ghost use Rattle.sock_calls.specs.Sockets.{IsSocks, SocksFit, queue_at, queued_chains, from_three};
ghost use Rattle.sock_calls.specs.Delivery.{net_view, whole_of, IsInput};
ghost use Rattle.sock_calls.specs.Inside.Storing.{IsDataStored, IsFullUnset, StoresAtEnd, data_memory, two_entries};
ghost use Rattle.sock_calls.specs.Inside.Parts.{socks_of};
ghost use Rattle.sock_calls.specs.Whole.{DeliversWhole, HasOne, HasWire, TakesWhole};

use crate::delivery::{Datagram, mark};
use crate::one_packet::MOST_IN_MBUF;
use crate::parts::Parts;
use crate::queues::ReceiveQueues;
use crate::sockets::{Socks, place_of};
use arrayvec::ArrayVec;
use chain_ops::theorems::stored_layout;
use chain_ops::{from_wire, trim_back, trim_front};
use flat_model::{Addr, Counters, Reached, Why};
use ip_out::IpHead;
use ledger::Waiting;
use mbuf_chain::{Chain, Pool};
use params::{
    IP_MAX_PACKET, IP_UDP_HEADERS, MBUF_HEADER, MCLBYTES, MHLEN, MINCLSIZE, MSIZE, PACKET_START,
};
use pcb_table::SOCKETS;
use udp::{Checked, Outcome, is_broadcast, matching_sockets, no_port};

/// What `Socks::take` did with a packet.
#[derive(Clone, Copy, Debug, PartialEq, Eq)]
pub enum Taken {
    /// It's in the queue of the socket with this descriptor.
    Stored(u32),
    /// It matches this socket and doesn't fit into its queue. Nothing has changed.
    Full(u32),
    /// It matches no socket. Nothing has changed.
    NoPort,
}

/// Copies bytes into a new chain of two plain mbufs: the first 72 into the mbuf that would also have the headers, as
/// `from_wire` does. The mbufs must be free.
#[inline(always)]
fn store_in_two(pool: &mut Pool, bytes: &[u8]) -> Chain
    requires many { MOST_IN_MBUF < length bytes.now }
    requires most { length bytes.now ≤ MOST_IN_MBUF + MLEN }
    requires free { held_mbufs pool.old + 2 ≤ pool.old.mbufs }
    ensures entries { (chain_of pool.new result).entries ≡ two_entries bytes.now }
    ensures moves { Moves pool.old [] pool.new (result ∷ []) }
{
    let rest = &bytes[MOST_IN_MBUF..];
    let Ok(back) = pool.new_plain_with(false, MBUF_HEADER, rest) else {
        unreachable!()
    };
    let front = &bytes[..MOST_IN_MBUF];
    pool.new_plain_before(
        PACKET_START + IP_UDP_HEADERS,
        front,
        back,
        rest.len() as u32,
    )
}

/// Copies the data of a packet of at most 65,535 bytes into a new chain, laid out as if the whole packet had been
/// stored and its headers cut off. The buffers for the packet must be free.
fn store_data(pool: &mut Pool, packet: &Checked<'_>) -> Chain
    requires wire { HasWire pool.old (length packet.now.packet.now) }
    ensures { IsDataStored pool.old packet.now.packet.now packet.now.end pool.new result }
{
    if packet.end > MHLEN && packet.packet.len() < MINCLSIZE as usize {
        return store_in_two(pool, packet.data());
    }
    stored_layout();
    let Ok(chain) = from_wire(pool, packet.packet) else {
        unreachable!()
    };
    trim_back(pool, &chain, packet.end);
    trim_front(pool, &chain, IP_UDP_HEADERS);
    chain
}

/// The memory of one mbuf, with or without a cluster.
#[inline(always)]
fn data_memory(is_large: bool) -> u32
    ensures { result ≡ data_memory is_large }
{
    if is_large { MSIZE + MCLBYTES } else { MSIZE }
}

impl ReceiveQueues {
    /// Stores bytes as a datagram of one mbuf at the end of a descriptor's queue, at the offset that they'd have in a
    /// packet. The buffers must be free. Returns `UdpFullSocket` if the datagram doesn't fit into the queue, which has
    /// this limit; nothing changes then.
    #[inline(always)]
    fn store_at(
        &mut self,
        pool: &mut Pool,
        fd: u32,
        limit: u16,
        sender: Addr,
        is_large: bool,
        bytes: &[u8],
    ) -> Result<(), Why>
        requires each { (k : ℕ) → IsSockBuf pool.old (queue_at (from_three self.old) k) }
        requires descriptor { IsDescriptor fd }
        requires owned { IsOwned pool.old (queued_chains pool.old (from_three self.old)) }
        requires most { IP_UDP_HEADERS + length bytes.now ≤ (if is_large then MCLBYTES else MHLEN) }
        requires free { held_mbufs pool.old + 2 ≤ pool.old.mbufs }
        requires cluster { is_large ≡ true → 0 < free_clusters pool.old }
        ensures { StoresAtEnd limit pool.old (from_three self.old) fd sender is_large bytes.now
            pool.new (from_three self.new) result }
    {
        let place = place_of(fd);
        let memory = data_memory(is_large);
        if !self.queues[place].fits(limit, bytes.len() as u32, memory) {
            return Err(Why::UdpFullSocket);
        }
        let start = if is_large {
            IP_UDP_HEADERS
        } else {
            PACKET_START + IP_UDP_HEADERS
        };
        self.queues[place].store(pool, limit, sender, is_large, start, bytes);
        Ok(())
    }
}

impl Parts {
    /// Whether a descriptor's queue, which has no limit of its own, is too full for a datagram of `len` bytes.
    fn is_full(&self, fd: u32, len: u32) -> bool
        requires opened { IsOpen fd self.now.pcbs }
        requires descriptor { IsDescriptor fd }
        ensures { (p : PoolView) → ((k : ℕ) → IsSockBuf p (queue_at (from_three self.now.queues) k))
            → result ≡ true → IsFullUnset p self.now.pcbs (from_three self.now.queues) fd len }
    {
        if self.pcbs.limit(fd) != 0 {
            return false;
        }
        !self.queues.fits_at(fd, 0, len, 0)
    }

    /// See `Socks::deliver`. `matching` receives the sockets that match.
    pub(crate) fn deliver_packet<R: Waiting>(
        &mut self,
        pool: &mut Pool,
        waiting: &mut R,
        counters: &mut Counters,
        matching: &mut ArrayVec<u32, SOCKETS>,
        packet: &Checked<'_>,
        reached: &mut Reached,
    ) -> Result<(), Why>
        requires fit { SocksFit pool.old (socks_of self.old) (R.owned pool.old waiting.old) }
        requires waits { R.is_ready pool.old waiting.old }
        requires wire { HasWire pool.old (length packet.now.packet.now) }
        ensures delivered { DeliversWhole
            (net_view pool.old (socks_of self.old) (R.unfinished pool.old waiting.old)
            (R.owned pool.old waiting.old) counters.old)
            packet.now.packet.now (whole_of result reached.new)
            (net_view pool.new (socks_of self.new) (R.unfinished pool.new waiting.new)
            (R.owned pool.new waiting.new) counters.new) }
        ensures waits { R.is_ready pool.new waiting.new }
    {
        matching_sockets(&mut self.pcbs, packet, matching);
        if matching.is_empty() {
            let why = no_port(&self.pcbs, packet.to.ip);
            counters.count_ended(why);
            return Err(why);
        }
        // A copy for a full queue would be freed at once. With a limit, the copy's memory counts too.
        if let [fd] = matching.as_slice() {
            if self.is_full(*fd, packet.data().len() as u32) {
                counters.count_ended(Why::UdpFullSocket);
                *reached = Reached::nobody();
                mark(reached, *fd, Some(Why::UdpFullSocket));
                return Ok(());
            }
        }
        let chain = store_data(pool, packet);
        let datagram = Datagram {
            sender: packet.from,
            chain,
        };
        let fds = matching.as_slice();
        self.deliver_all(pool, waiting, counters, fds, datagram, reached);
        Ok(())
    }
}

impl Socks {
    /// Whether the address is one of the two broadcast addresses.
    // A core for size (portable/core) replaces its result by `true`, so that each datagram takes the general path.
    #[inline(always)]
    pub fn is_broadcast(&self, ip: u32) -> bool
        ensures { result ≡ is_to_all self.now.pcbs ip }
    {
        is_broadcast(&self.parts.pcbs, ip)
    }

    /// Stores a packet from the wire that carries a whole datagram for one socket in the queue of the socket that
    /// matches it. The packet isn't a broadcast and takes one mbuf, with a cluster if `is_large`. These must be free,
    /// and a second mbuf too. All tests come before any of the packet is stored. If it isn't stored, nothing changes,
    /// and the caller counts the cause.
    #[inline(always)]
    pub fn take(&mut self, pool: &mut Pool, is_large: bool, packet: &Checked<'_>) -> Taken
        requires socks { IsSocks pool.old self.old }
        requires one { HasOne pool.old (length packet.now.packet.now) is_large }
        requires lone { is_to_all self.old.pcbs packet.now.to.ip ≡ false }
        ensures { TakesWhole pool.old self.old packet.now.packet.now pool.new self.new result }
    {
        let Some(fd) = self
            .parts
            .pcbs
            .lookup(packet.to.ip, packet.to.port, packet.from)
        else {
            return Taken::NoPort;
        };
        let limit = self.parts.pcbs.limit(fd);
        let stored = self
            .parts
            .queues
            .store_at(pool, fd, limit, packet.from, is_large, packet.data());
        let taken = match stored {
            Ok(()) => Taken::Stored(fd),
            Err(_) => Taken::Full(fd),
        };
        taken
    }

    /// Delivers a packet of at most 65,535 bytes from the wire that carries a whole datagram, and whose buffers are
    /// free. Its data are stored in a chain of their own and put into the queues of all sockets that match, a copy into
    /// each but the last; or it's dropped and counted (`udp_input` of volume 2, chapter 23). If a copy or an address
    /// needs a buffer and none is free, all unfinished datagrams are freed first. `reached` receives which of the
    /// sockets that match got it and which lost it. `Err` is the cause that it's dropped for; then `reached` is unused.
    pub fn deliver<R: Waiting>(
        &mut self,
        pool: &mut Pool,
        waiting: &mut R,
        counters: &mut Counters,
        packet: &Checked<'_>,
        reached: &mut Reached,
    ) -> Result<(), Why>
        requires fit { SocksFit pool.old self.old (R.owned pool.old waiting.old) }
        requires waits { R.is_ready pool.old waiting.old }
        requires wire { HasWire pool.old (length packet.now.packet.now) }
        ensures delivered { DeliversWhole
            (net_view pool.old self.old (R.unfinished pool.old waiting.old) (R.owned pool.old waiting.old) counters.old)
            packet.now.packet.now (whole_of result reached.new)
            (net_view pool.new self.new (R.unfinished pool.new waiting.new)
            (R.owned pool.new waiting.new) counters.new) }
        ensures waits { R.is_ready pool.new waiting.new }
    {
        self.parts.deliver_packet(pool, waiting, counters, &mut self.matching, packet, reached)
    }

    /// Delivers a whole datagram in a chain, without its IP header, whose fields are in `head`: it's put into the
    /// queues of all sockets that match, a copy into each but the last; or it's dropped and counted (`udp_input` of
    /// volume 2, chapter 23). If a buffer is needed and none is free, all unfinished datagrams are freed first. The
    /// chain has at most 65,535 bytes. `reached` receives which of the sockets that match got it and which lost it.
    /// `Err` is the cause that it's dropped for; then `reached` is unused.
    pub fn input<R: Waiting>(
        &mut self,
        pool: &mut Pool,
        waiting: &mut R,
        counters: &mut Counters,
        chain: Chain,
        head: IpHead,
        reached: &mut Reached,
    ) -> Result<(), Why>
        requires fit { SocksFit pool.old self.old (chain ∷ R.owned pool.old waiting.old) }
        requires waits { R.is_ready pool.old waiting.old }
        requires most { length (string (chain_of pool.old chain)) ≤ IP_MAX_PACKET }
        ensures input { IsInput
            (net_view pool.old self.old (R.unfinished pool.old waiting.old) (R.owned pool.old waiting.old) counters.old)
            chain head.src head.dst head.proto (whole_of result reached.new)
            (net_view pool.new self.new (R.unfinished pool.new waiting.new)
            (R.owned pool.new waiting.new) counters.new) }
        ensures waits { R.is_ready pool.new waiting.new }
    {
        match udp::input(pool, chain, head, &mut self.parts.pcbs, &mut self.matching) {
            Outcome::Drop(why) => {
                counters.count_ended(why);
                Err(why)
            }
            Outcome::Deliver { from, chain } => {
                let datagram = Datagram {
                    sender: from,
                    chain,
                };
                let matching = self.matching.as_slice();
                let parts = &mut self.parts;
                parts.deliver_all(pool, waiting, counters, matching, datagram, reached);
                Ok(())
            }
        }
    }
}
