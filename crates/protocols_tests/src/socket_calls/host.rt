//! A host without reassembly: sockets, a pool and a link, with the steps that keep them together.

ghost use Rattle.std.specs.Prelude.{◌++◌};
ghost use Rattle.mbuf_chain.specs.Owners.{IsOwned};
ghost use Rattle.mbuf_chain.specs.Train.{numbers};
ghost use Rattle.ip_out.specs.Queues.{IsOutputQueue};
ghost use Rattle.sock_calls.specs.Sockets.{IsSocks, queued_chains};

use chain_ops::m_copydata;
use flat_model::{Addr, Errno};
use mbuf_chain::{Pool, Train};
use mbuf_pool::{Sizes, Store};
use params::{LOOPBACK, MIN_MTU};
use sock_calls::{Net, Socks};
use std::alloc::Global;
use std::marker::Model;
use std::mem;
use std::process::Abort;

/// 10.0.0.1, broadcast address 10.0.0.255, on a link of 1,500 bytes.
pub(super) struct Host {
    pool: Pool,
    socks: Socks,
    net: Net,
}

impl Model for Host {
    ghost use Rattle.std.specs.Prelude.{◌≡◌, ◌++◌, None};
    ghost use Rattle.mbuf_chain.specs.Owners.{IsOwned};
    ghost use Rattle.mbuf_chain.specs.Train.{numbers};
    ghost use Rattle.ip_out.specs.Queues.{IsOutputQueue};
    ghost use Rattle.sock_calls.specs.Sockets.{IsSocks, queued_chains};

    ghost Value = { Unit {0} };

    ghost view = { λ h. tt };

    ghost invariant = { λ h. IsSocks h.pool h.socks × IsOutputQueue h.pool h.net.out
        × IsOwned h.pool (numbers h.pool h.net.out ++ queued_chains h.pool h.socks.queues)
        × (h.net.looped ≡ record { first = None; last = None; len = 0 }) };
}

impl Host {
    pub(super) fn boot(rt: &impl Abort, alloc: Global, mbufs: u32, clusters: u32) -> Host {
        let store = Store::boot(alloc, Sizes { mbufs, clusters }).expect(rt, "a pool");
        let socks = Socks::boot(alloc, super::HERE, super::BROADCAST).expect(rt, "sockets");
        Host {
            pool: Pool::over(store),
            socks,
            net: Net::new(1500, 1),
        }
    }

    pub(super) fn socket(&mut self) -> Result<u32, Errno> {
        self.socks.socket()
    }

    pub(super) fn bind(&mut self, fd: u32, ip: u32, port: u16) -> Result<(), Errno> {
        self.socks.bind(fd, Addr { ip, port })
    }

    pub(super) fn connect(&mut self, fd: u32, ip: u32, port: u16) -> Result<(), Errno> {
        self.socks.connect(fd, Addr { ip, port })
    }

    /// Why nothing is received, or `None` if a datagram is.
    pub(super) fn recvfrom(&mut self, fd: u32) -> Option<Errno> {
        self.socks.recvfrom(&mut self.pool, fd, &mut [0; 8]).err()
    }

    pub(super) fn close(&mut self, fd: u32) -> Result<(), Errno> {
        self.socks.close(&mut self.pool, fd)
    }

    /// Sends to the link: nothing comes back.
    pub(super) fn sendto(
        &mut self,
        rt: &impl Abort,
        fd: u32,
        to: Option<Addr>,
        bytes: &[u8],
    ) -> Result<usize, Errno> {
        let pcbs = self.socks.pcbs();
        let (addr, bcast) = (pcbs.addr(), pcbs.bcast());
        assert!(rt; self.net.mtu >= MIN_MTU && bcast != addr && bcast != LOOPBACK);
        let sent = self
            .socks
            .sendto(&mut self.pool, &mut self.net, fd, to, bytes);
        let looped = mem::replace(&mut self.net.looped, Train::new());
        assert!(rt; looped.is_empty());
        looped.end_empty();
        sent
    }

    /// The packet that has waited longest, at the front of `buffer`.
    pub(super) fn tx(&mut self, rt: &impl Abort, buffer: &mut [u8]) -> Option<usize> {
        let packet = self.net.out.pop(&mut self.pool)?;
        let len = self.pool.len(&packet) as usize;
        assert!(rt; len <= buffer.len());
        m_copydata(&self.pool, &packet, 0, &mut buffer[..len]);
        self.pool.free_chain(packet);
        Some(len)
    }

    pub(super) fn free_mbufs(&self) -> u32 {
        self.pool.free_mbufs()
    }

    /// Ends all, and returns whether the pool is as it was.
    pub(super) fn end(self) -> bool {
        let Host {
            mut pool,
            socks,
            net,
        } = self;
        socks.end(&mut pool);
        net.end(&mut pool);
        let usage = pool.usage();
        usage.free_mbufs == usage.mbufs && usage.references == 0
    }
}
