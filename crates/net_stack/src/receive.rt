//! A packet from the wire.
ghost use Rattle.std.specs.Prelude.{◌≡◌, ◌≤◌, [], None, length, true, false, is_some, IfSome};
ghost use Rattle.flat_model.specs.Amounts.Layout.{need_of, wire};
ghost use Rattle.flat_model.specs.Machine.Arrival as flat;
ghost use Rattle.flat_model.specs.Machine.Count.{counted, counts_more};
ghost use Rattle.flat_model.specs.Packets.Header.{head_fault};
ghost use Rattle.chain_ops.specs.Stored.{Has};
ghost use Rattle.ip_out.specs.Headings.{head_in};
ghost use Rattle.ip_reass.specs.Arrivals.{flat_head};
ghost use Rattle.ip_reass.specs.AtOnce.{fits_at_once};
ghost use Rattle.ip_reass.specs.Table.{IsReady};
ghost use Rattle.sock_calls.specs.Whole.{HasSpace, HasWire};
ghost use Rattle.net_stack.specs.Inside.Arrivals.{IsPacketStored, IsWholeForUs, fate_by, is_ours_or_all};
ghost use Rattle.net_stack.specs.Inside.Hosts.{CanStore, HasAsked, PacketArrives, PartsFit, IsProcessed};

use crate::host::{Ending, Host};
use chain_ops::theorems::stored_layout;
use chain_ops::{Space, from_wire, space_for, trim_back, wire_need};
use flat_model::{Counter, Counters, Why};
use ip_out::{Headed, IpHead, read_packet};
use ip_reass::{Arrival, fits_at_once, is_sound};
use ledger::{are_free, reserve};
use mbuf_chain::{Chain, Pool};
use params::{
    FIRST_DESCRIPTOR, IP_MAX_PACKET, LIMITED_BROADCAST, LOOPBACK, MINCLSIZE, reads_in_place,
};
use sock_calls::{Socks, Taken};
use udp::read;

/// Whether packets to the address are for this machine: one of its three addresses, or 255.255.255.255.
pub(crate) fn is_for_us(socks: &Socks, ip: u32) -> bool
    ensures { result ≡ is_ours_or_all socks.now.pcbs.addr socks.now.pcbs.bcast ip }
{
    let pcbs = socks.pcbs();
    ip == pcbs.addr() || ip == pcbs.bcast() || ip == LOOPBACK || ip == LIMITED_BROADCAST
}

/// Whether a packet is a fragment: more fragments follow it, or its offset isn't 0.
pub(crate) fn is_fragment(head: &IpHead) -> bool
    ensures { result ≡ flat.is_fragment (flat_head head.now) }
{
    head.more || head.offset > 0
}

/// Counts a packet that arrived and is dropped for this cause.
#[inline(always)]
fn count_dropped(counters: &mut Counters, why: Why)
    ensures { counters.new ≡ counted why (counts_more Counter.IpTotal 1 counters.old) }
{
    counters.count(Counter::IpTotal);
    counters.count_ended(why);
}

/// Copies a packet into a new chain. Its buffers must be free.
fn put_packet(pool: &mut Pool, packet: &[u8]) -> Chain
    requires wire { HasWire pool.old (length packet.now) }
    ensures { IsPacketStored pool.old packet.now pool.new result }
{
    stored_layout();
    match from_wire(pool, packet) {
        Ok(chain) => chain,
        Err(_) => unreachable!(),
    }
}

/// Whether a fragment can be stored without its header, by the tests of `fits_at_once`. If its space is a cluster, the
/// pool has been tested already.
// Its contract permits `false` for each fragment. At `-Os`, `portable/core` replaces its result by that.
#[inline(always)]
fn can_store_data(pool: &Pool, space: Space, head: &IpHead, packet: &[u8]) -> bool
    requires offset { head.now.offset ≤ IP_MAX_PACKET }
    requires space { HasSpace pool.now (length packet.now) space }
    ensures { result ≡ true → fits_at_once pool.now head.now packet.now ≡ true }
{
    match space {
        Space::InMbuf => false,
        Space::InCluster => is_sound(head, packet),
        Space::InMore => fits_at_once(pool, head, packet),
    }
}

impl Host {
    /// Tests whether the pool has free buffers for a packet of `len` bytes. If not, frees all unfinished datagrams and
    /// tests again. `None`: there are still too few. `InMbuf` and `InCluster` leave a second mbuf for the sender's
    /// address; `InMore` is any packet whose buffers are free.
    #[inline(always)]
    fn make_space(&mut self, len: u32) -> Option<Space>
        requires ready { IsReady self.old.pool self.old.reass }
        requires most { len ≤ IP_MAX_PACKET }
        ensures asked { HasAsked self.old (need_of (wire len)) (is_some result) self.new }
        ensures space { IfSome result (λ space. HasSpace self.new.pool len space) }
        ensures free { IfSome result (λ space. Has self.new.pool (wire len)) }
    {
        let pool = &self.pool;
        match space_for(0, len) {
            Space::InMbuf if are_free(pool, 2, 0) => Some(Space::InMbuf),
            Space::InCluster if are_free(pool, 2, 1) => Some(Space::InCluster),
            // The last fragment of most datagrams takes two mbufs.
            Space::InMore if len < MINCLSIZE && are_free(pool, 2, 0) => Some(Space::InMore),
            _ => {
                if self.reserve_buffers(len) {
                    Some(Space::InMore)
                } else {
                    None
                }
            }
        }
    }

    /// The same test for a packet of any length. Returns whether the buffers are free.
    #[inline(never)]
    fn reserve_buffers(&mut self, len: u32) -> bool
        requires ready { IsReady self.old.pool self.old.reass }
        requires most { len ≤ IP_MAX_PACKET }
        ensures asked { HasAsked self.old (need_of (wire len)) result self.new }
        ensures free { result ≡ true → Has self.new.pool (wire len) }
    {
        let need = wire_need(len);
        reserve(
            &mut self.pool,
            &mut self.reass,
            &mut self.net.counters,
            need.mbufs,
            need.clusters,
        )
    }

    /// Receives a packet of at most 65,535 bytes from the wire. If the pool has too few free buffers for it, all
    /// unfinished datagrams are freed, and if there are still too few, the packet is dropped and counted.
    #[inline(always)]
    pub(crate) fn receive(&mut self, packet: &[u8]) -> Ending
        requires fit { PartsFit self.old [] }
        requires most { length packet.now ≤ IP_MAX_PACKET }
        ensures { PacketArrives self.old packet.now (fate_by result self.new.reached) self.new }
    {
        if reads_in_place() {
            self.receive_in_place(packet)
        } else {
            self.receive_stored(packet)
        }
    }

    /// The usual way: the packet is read in place, and stored only when its receiver is known. A dropped packet takes
    /// no buffer.
    // Looped packets and reassembled datagrams are in chains already. They go through `arrive` and `Socks::input`,
    // which read a chain wherever it's split: that's why there are two paths.
    fn receive_in_place(&mut self, packet: &[u8]) -> Ending
        requires fit { PartsFit self.old [] }
        requires most { length packet.now ≤ IP_MAX_PACKET }
        ensures { PacketArrives self.old packet.now (fate_by result self.new.reached) self.new }
    {
        let Some(space) = self.make_space(packet.len() as u32) else {
            self.net.counters.count_ended(Why::NoBufs);
            return Ending::Ends(Why::NoBufs);
        };
        match self.process(space, packet) {
            Ok(ending) => ending,
            Err(why) => {
                count_dropped(&mut self.net.counters, why);
                Ending::Ends(why)
            }
        }
    }

    /// The way of a library for small flash: the packet is stored first, and then arrives as a looped packet does.
    fn receive_stored(&mut self, packet: &[u8]) -> Ending
        requires fit { PartsFit self.old [] }
        requires most { length packet.now ≤ IP_MAX_PACKET }
        ensures { PacketArrives self.old packet.now (fate_by result self.new.reached) self.new }
    {
        if self.reserve_buffers(packet.len() as u32) {
            let chain = put_packet(&mut self.pool, packet);
            self.arrive(chain)
        } else {
            let net = &mut self.net;
            net.counters.count_ended(Why::NoBufs);
            Ending::Ends(Why::NoBufs)
        }
    }

    /// Processes a packet that has this space in the pool: a fragment goes to the reassembly, and a whole datagram to
    /// its sockets. `Err`: nothing has changed, and the packet is to be dropped for this cause.
    #[inline(always)]
    fn process(&mut self, space: Space, packet: &[u8]) -> Result<Ending, Why>
        requires can { CanStore self.old packet.now }
        requires space { HasSpace self.old.pool (length packet.now) space }
        ensures { IsProcessed self.old packet.now self.new result }
    {
        let headed = read_packet(packet)?;
        let head = headed.head();
        if !is_for_us(&self.socks, head.dst) {
            // Counted here, because its cause is known.
            count_dropped(&mut self.net.counters, Why::CantForward);
            return Ok(Ending::Ends(Why::CantForward));
        }
        if !is_fragment(&head) {
            return self.receive_datagram(space, headed);
        }
        Ok(self.receive_fragment(space, headed))
    }

    /// Receives a whole datagram for this machine: stores it in the queue of the socket that matches it. If it takes
    /// several mbufs or is a broadcast, `receive_by_chain` does that. `Err` is as for `process`.
    #[inline(always)]
    fn receive_datagram(&mut self, space: Space, headed: Headed<'_>) -> Result<Ending, Why>
        requires can { CanStore self.old headed.packet.now }
        requires space { HasSpace self.old.pool (length headed.packet.now) space }
        requires whole { IsWholeForUs self.old.socks.pcbs headed.packet.now }
        ensures { IsProcessed self.old headed.entry.packet.now self.new result }
    {
        let is_large = match space {
            Space::InMbuf => false,
            Space::InCluster => true,
            Space::InMore => {
                return Ok(self.receive_by_chain(headed));
            }
        };
        let head = headed.head();
        if self.socks.is_broadcast(head.dst) {
            return Ok(self.receive_by_chain(headed));
        }
        let datagram = read(headed)?;
        match self.socks.take(&mut self.pool, is_large, &datagram) {
            Taken::Stored(fd) => {
                self.net.counters.count(Counter::IpTotal);
                Ok(Ending::Got((fd - FIRST_DESCRIPTOR) as u8))
            }
            Taken::Full(fd) => {
                count_dropped(&mut self.net.counters, Why::UdpFullSocket);
                Ok(Ending::Lost((fd - FIRST_DESCRIPTOR) as u8))
            }
            Taken::NoPort => Err(Why::UdpNoPort),
        }
    }

    /// Receives a whole datagram for this machine that takes several mbufs or is a broadcast: its data are stored in a
    /// chain of their own. Its buffers must be free.
    #[inline(never)]
    fn receive_by_chain(&mut self, headed: Headed<'_>) -> Ending
        requires can { CanStore self.old headed.packet.now }
        requires whole { IsWholeForUs self.old.socks.pcbs headed.packet.now }
        ensures { PacketArrives self.old headed.entry.packet.now (fate_by result self.new.reached) self.new }
    {
        match read(headed) {
            Ok(datagram) => {
                self.net.counters.count(Counter::IpTotal);
                let whole = self.socks.deliver(
                    &mut self.pool,
                    &mut self.reass,
                    &mut self.net.counters,
                    &datagram,
                    &mut self.reached,
                );
                Ending::of_whole(whole)
            }
            Err(why) => {
                let net = &mut self.net;
                count_dropped(&mut net.counters, why);
                Ending::Ends(why)
            }
        }
    }

    /// Receives a fragment for this machine: without its header if `can_store_data`, otherwise in a new chain.
    #[inline(never)]
    // It reads the header again: if the header were passed on, every packet would store it in memory.
    fn receive_fragment(&mut self, space: Space, headed: Headed<'_>) -> Ending
        requires can { CanStore self.old headed.packet.now }
        requires space { HasSpace self.old.pool (length headed.packet.now) space }
        requires fragment { flat.is_fragment (flat_head (head_in headed.packet.now)) ≡ true }
        requires ours { is_ours_or_all self.old.socks.pcbs.addr self.old.socks.pcbs.bcast
            (head_in headed.packet.now).dst ≡ true }
        ensures { PacketArrives self.old headed.entry.packet.now (fate_by result self.new.reached) self.new }
    {
        let head = headed.head();
        if can_store_data(&self.pool, space, &head, headed.packet) {
            self.store_fragment_data(headed.packet, head)
        } else {
            self.store_fragment(headed)
        }
    }

    /// Receives a fragment for this machine for which `fits_at_once` is true: stores it without its header. If it
    /// completes its datagram, that arrives.
    fn store_fragment_data(&mut self, packet: &[u8], head: IpHead) -> Ending
        requires fit { PartsFit self.old [] }
        requires faultless { head_fault packet.now ≡ None }
        requires says { head ≡ head_in packet.now }
        requires fragment { flat.is_fragment (flat_head head) ≡ true }
        requires ours { is_ours_or_all self.old.socks.pcbs.addr self.old.socks.pcbs.bcast head.dst ≡ true }
        requires fits { fits_at_once self.old.pool head packet.now ≡ true }
        ensures { PacketArrives self.old packet.now (fate_by result self.new.reached) self.new }
    {
        let counters = &mut self.net.counters;
        counters.count(Counter::IpTotal);
        match self
            .reass
            .arrive_bytes(&mut self.pool, counters, packet, head)
        {
            Arrival::Whole(chain, head) => {
                let whole = self.socks.input(
                    &mut self.pool,
                    &mut self.reass,
                    &mut self.net.counters,
                    chain,
                    head,
                    &mut self.reached,
                );
                Ending::of_completed(whole)
            }
            Arrival::Kept => Ending::Waits,
            Arrival::Dropped(why) => Ending::Ends(why),
        }
    }

    /// Receives a fragment for this machine: copies the packet into a new chain, which arrives as in `arrive`. Its
    /// buffers must be free.
    #[inline(never)]
    // It reads the header again: if the header were passed on, every packet would store it in memory.
    fn store_fragment(&mut self, headed: Headed<'_>) -> Ending
        requires can { CanStore self.old headed.packet.now }
        requires fragment { flat.is_fragment (flat_head (head_in headed.packet.now)) ≡ true }
        requires ours { is_ours_or_all self.old.socks.pcbs.addr self.old.socks.pcbs.bcast
            (head_in headed.packet.now).dst ≡ true }
        ensures { PacketArrives self.old headed.entry.packet.now (fate_by result self.new.reached) self.new }
    {
        let head = headed.head();
        let chain = put_packet(&mut self.pool, headed.packet);
        self.net.counters.count(Counter::IpTotal);
        trim_back(&mut self.pool, &chain, u32::from(head.total));
        self.take_fragment(chain, head)
    }
}
