//! A send.
ghost use Rattle.std.specs.Prelude.{◌≡◌, ◌+◌, ◌≤◌, length, true, false, Ok, Some};
ghost use Rattle.flat_model.specs.Machine.Sending.{mtu_to};
ghost use Rattle.pcb_table.specs.Table.{block_at};
ghost use Rattle.ip_out.specs.Queues.{IsOutputQueue};
ghost use Rattle.sock_calls.specs.Outgoing.{sending, CanSend, IsSent};
ghost use Rattle.sock_calls.specs.Inside.Parts.{socks_of};
ghost use Rattle.sock_calls.specs.Inside.Putting.{send_config, counts_sent, way_of, IsFreeFor, IsPut, IsRouted};

use crate::destination::{link_target, send_target};
use crate::net::Net;
use crate::one_packet::{datagram_of_one, need_of_one};
use crate::packets::{Heading, Route, datagram, ip_head, need_to, way_to};
use crate::parts::Parts;
use flat_model::{Addr, Counter, Counters, Errno, Lack};
use ip_out::Sent;
use ledger::are_free;
use mbuf_chain::Pool;
use params::{IP_UDP_HEADERS, OUTPUT_QUEUE_PACKETS, UDP_SEND_SPACE};
use pcb_table::Block;
use std::mem;

/// Counts a send.
fn count_send(counters: &mut Counters, is_cut: bool, is_lost: bool)
    ensures { counters.new ≡ counts_sent is_cut is_lost counters.old }
{
    counters.count(Counter::IpLocalout);
    if is_cut {
        counters.count(Counter::IpFragmented);
    }
    if is_lost {
        counters.count(Counter::OutDropped);
    }
}

impl Parts {
    /// Sends a datagram by its route, and returns whether the output queue dropped one of its packets. Its buffers must
    /// be free. A broadcast must fit into one packet.
    fn put(
        &mut self,
        pool: &mut Pool,
        net: &mut Net,
        block: &Block,
        route: Route,
        bytes: &[u8],
    ) -> bool
        requires opened { block_at block.now.fd self.old.pcbs ≡ Some block.now }
        requires queue { IsOutputQueue pool.old net.old.out }
        requires none { net.old.looped.len ≡ 0 }
        requires most { length bytes.now ≤ UDP_SEND_SPACE }
        requires routed { IsRouted (send_config self.old.pcbs net.old.mtu) }
        requires way { route.way ≡ way_of (send_config self.old.pcbs net.old.mtu) route.to.ip }
        requires longest { route.longest ≡ mtu_to (send_config self.old.pcbs net.old.mtu) route.to.ip }
        requires uncut { route.to.ip ≡ self.old.pcbs.bcast → length bytes.now + IP_UDP_HEADERS ≤ net.old.mtu }
        requires free { IsFreeFor pool.old (send_config self.old.pcbs net.old.mtu) route.to.ip (length bytes.now) }
        ensures put { IsPut block.now.fd route.to bytes.now pool.old self.old.pcbs net.old
            result pool.new self.new.pcbs net.new }
        ensures queues { self.new.queues ≡ self.old.queues }
    {
        let heading = Heading {
            id: net.next_id,
            source: self.pcbs.source_of(block, route.to.ip),
            port: self.pcbs.ensure_port_of(block),
            to: route.to,
        };
        let chain = datagram(pool, heading, bytes);
        let head = ip_head(heading);
        let Sent {
            looped,
            is_cut,
            is_lost,
        } = match net
            .out
            .send_packets(pool, chain, head, route.longest, route.way)
        {
            Ok(sent) => sent,
            Err(_) => unreachable!(),
        };
        net.next_id = net.next_id.wrapping_add(1);
        count_send(&mut net.counters, is_cut, is_lost);
        mem::replace(&mut net.looped, looped).end_empty();
        is_lost
    }

    /// The short path: sends a datagram that makes one packet for the link, from a socket that has a port, and returns
    /// true. Returns false for any other send; nothing changes then, and the caller uses `send_any`. All tests come
    /// before anything is allocated.
    #[inline(always)]
    pub(crate) fn send_one(
        &self,
        pool: &mut Pool,
        net: &mut Net,
        fd: u32,
        to: Option<Addr>,
        bytes: &[u8],
    ) -> bool
        requires { CanSend (sending pool.old (socks_of self.now) net.old) }
        ensures sent { result ≡ true → IsSent fd to bytes.now (sending pool.old (socks_of self.now) net.old)
            (Ok (length bytes.now)) (sending pool.new (socks_of self.now) net.new) }
        ensures same { result ≡ false → (pool.new ≡ pool.old) × (net.new ≡ net.old) }
    {
        if net.out.len() >= OUTPUT_QUEUE_PACKETS {
            return false;
        }
        let Some(wants) = need_of_one(bytes.len(), net.mtu) else {
            return false;
        };
        let Some(block) = self.pcbs.indexed(fd) else {
            return false;
        };
        let Some(port) = self.pcbs.port_of(block) else {
            return false;
        };
        let Some(target) = link_target(&self.pcbs, block, to) else {
            return false;
        };
        if !are_free(pool, wants.mbufs, wants.clusters) {
            return false;
        }
        let heading = Heading {
            id: net.next_id,
            source: self.pcbs.source_of(block, target.ip),
            port,
            to: target,
        };
        let chain = datagram_of_one(pool, heading, bytes);
        let len = bytes.len() as u32 + IP_UDP_HEADERS;
        net.out.push_one(pool, chain, ip_head(heading), len);
        net.next_id = heading.id.wrapping_add(1);
        net.counters.count(Counter::IpLocalout);
        true
    }

    /// The general path, for any send: see `Socks::sendto`. The receive queues don't change.
    #[inline(never)]
    pub(crate) fn send_any(
        &mut self,
        pool: &mut Pool,
        net: &mut Net,
        fd: u32,
        to: Option<Addr>,
        bytes: &[u8],
    ) -> Result<usize, Errno>
        requires { CanSend (sending pool.old (socks_of self.old) net.old) }
        ensures { IsSent fd to bytes.now (sending pool.old (socks_of self.old) net.old) result
            (sending pool.new (socks_of self.new) net.new) }
    {
        let Some(block) = self.pcbs.block(fd) else {
            return Err(Errno::BadDescriptor);
        };
        let target = match send_target(&self.pcbs, net.mtu, &block, to, bytes.len()) {
            Ok(target) => target,
            Err(errno) => return Err(errno),
        };
        let (way, longest) = way_to(&self.pcbs, net.mtu, target.ip);
        let route = Route {
            to: target,
            way,
            longest,
        };
        let need = need_to(&self.pcbs, longest, target.ip, bytes.len() as u32);
        if !are_free(pool, need.mbufs, need.clusters) {
            return Err(Errno::NoBufs(Lack::Pool));
        }
        let is_lost = self.put(pool, net, &block, route, bytes);
        self.pcbs.laws();
        if is_lost {
            return Err(Errno::NoBufs(Lack::Queue));
        }
        Ok(bytes.len())
    }
}
