//! The host: its stack, and the link below it.
ghost use Rattle.std.specs.Prelude.{◌≡◌, ◌+◌, ◌≤◌, length, IfSome, MatchResult};
ghost use Rattle.std.specs.Borrow.{sem};
ghost use Rattle.params.specs.declared.TheConstants.{IP_MAX_PACKET};
ghost use Rattle.flat_ether.specs.Claims.{address_state};
ghost use Rattle.flat_ether.specs.Hosts.{TakesFrame, Ticks, gives, host_up, last_error};
ghost use Rattle.flat_ether.specs.declared.sizes.TheConstants.{ETHER_HEADER, ETHER_MTU};
ghost use Rattle.net_stack.specs.Boots.{free_pool};
ghost use Rattle.ether_host.specs.Fronts.{buffer_front};
ghost use Rattle.ether_host.specs.View.{IsHostUnbooted, LendsStack, held_for, host_of, host_view};

use crate::layer::LinkLayer;
use flat_ether::{AddressState, Link, LinkFault, Neighbour, NetFault, Tallies};
use flat_model::{Config, Errno};
use mbuf_chain::Pool;
use net_stack::{BootFault, Stack};
use std::alloc::Global;
use thiserror::Error;

/// Why a host didn't boot.
#[derive(Clone, Copy, Debug, PartialEq, Eq, Error)]
pub enum EtherFault {
    /// A setting is wrong, for this reason.
    #[error("bad link")]
    BadLink(LinkFault),
    /// Its stack didn't boot.
    #[error(transparent)]
    Unbooted(BootFault),
}

/// A host on an Ethernet: a stack, and its link. It must be consumed, by `end`.
pub struct EtherHost {
    pub(crate) stack: Stack,
    pub(crate) layer: LinkLayer,
}

impl EtherHost {
    /// A host that has just started, and knows no neighbour. It announces its address, after it has probed for it if
    /// the link says so (RFC 5227). Allocates all memory that the host will ever need.
    ///
    /// # Errors
    ///
    /// `BadLink` with the first wrong setting, as `Link::fault` returns it; otherwise `Unbooted`, if there is no stack
    /// with this configuration, or the host memory can't be allocated.
    pub fn boot(alloc: Global, config: Config, link: Link) -> Result<EtherHost, EtherFault>
        ensures { MatchResult result (λ h. host_of (host_view h) ≡ host_up config link) (IsHostUnbooted config link) }
    {
        if let Some(fault) = link.fault(&config) {
            return Err(EtherFault::BadLink(fault));
        }
        let stack = match Stack::boot(alloc, config) {
            Ok(stack) => stack,
            Err(fault) => return Err(EtherFault::Unbooted(fault)),
        };
        match LinkLayer::boot(alloc, config, link) {
            Ok(layer) => Ok(EtherHost { stack, layer }),
            Err(_) => {
                let _ = stack.end();
                Err(EtherFault::Unbooted(BootFault::Memory))
            }
        }
    }

    /// The stack, for any call on it. A packet passed to its `rx` bypasses the link, and so does a packet that its `tx`
    /// gives.
    pub fn stack(&mut self) -> &mut Stack
        ensures* writes_back { sem 𝓛 (LendsStack self.entry result) }
        ensures value { result.now ≡ (host_view self.entry.now).stack }
    {
        &mut self.stack
    }

    /// A frame arrives, without its check sequence. An IPv4 packet is passed to the stack without its IP options, and
    /// may get a reply. Options are ignored; a packet with a source route or malformed options is passed as it is, and
    /// the stack drops it (RFC 1122, section 3.2.1.8). An ARP packet is handled; all others are ignored. A packet from
    /// a broadcast or multicast address, from 0/8 or 127/8, or to 127/8 is dropped here and counted (RFC 1122, section
    /// 3.2.1.3).
    pub fn receive(&mut self, frame: &[u8])
        requires { length frame.now ≤ ETHER_HEADER + IP_MAX_PACKET }
        ensures { TakesFrame frame.now (host_of (host_view self.old)) (host_of (host_view self.new)) }
    {
        self.layer.receive(&mut self.stack, frame);
    }

    /// The next frame for the link, until `None`: call it after each other call. Until the host uses its address it
    /// sends only probes. Writes the frame to the front of `buffer` and returns its length. `buffer` has at least 1,514
    /// bytes; its bytes after the frame, or all of them if there is no frame, are unspecified. The
    /// network card adds padding to a short frame, and the check sequence.
    pub fn transmit(&mut self, buffer: &mut [u8]) -> Option<usize>
        requires mtu { (host_view self.old).stack.config.mtu ≤ ETHER_MTU }
        requires room { ETHER_HEADER + ETHER_MTU ≤ length buffer.old }
        ensures step { (buffer_front result buffer.new, host_of (host_view self.new))
            ≡ gives (host_of (host_view self.old)) }
        ensures fits { IfSome result (λ n. n ≤ length buffer.new) }
    {
        self.layer.transmit(&mut self.stack, buffer)
    }

    /// The clock ticks, each half second.
    pub fn tick(&mut self)
        ensures { Ticks (host_of (host_view self.old)) (host_of (host_view self.new)) }
    {
        self.layer.tick(&mut self.stack);
    }

    /// The state of the host's claim to its address: it probes for it, uses it, or another host has it. In conflict it
    /// stays silent; it needs another address then: `end`, and `boot` again.
    pub fn address(&self) -> AddressState
        ensures { result ≡ address_state (host_view self.now).link.claim }
    {
        self.layer.address()
    }

    /// What other hosts reported for the datagrams that a connected socket sent to its peer, if anything: each error is
    /// returned once (`so_error` of volume 2, chapter 23). The last eight such errors are kept, by port and peer, so an
    /// error that came before a socket was bound to its port is returned to that socket. Fails with `BadDescriptor`.
    pub fn last_error(&mut self, fd: u32) -> Result<Option<NetFault>, Errno>
        ensures { (result, host_of (host_view self.new)) ≡ last_error fd (host_of (host_view self.old)) }
    {
        self.layer.last_error(&self.stack, fd)
    }

    /// The counters of the link.
    pub fn tallies(&self) -> Tallies
        ensures { result ≡ (host_view self.now).link.tallies }
    {
        self.layer.tallies()
    }

    /// The neighbours whose hardware address is known or requested, the most recently updated last.
    pub fn neighbours(&self) -> &[Neighbour]
        ensures { result.now ≡ (host_view self.now).link.neighbours }
    {
        self.layer.neighbours()
    }

    /// How many packets wait for the hardware address of a next hop. A host keeps at most eight, for all hops.
    pub fn held_for(&self, hop: u32) -> usize
        ensures { result ≡ held_for hop (host_view self.now).link }
    {
        self.layer.held_for(hop)
    }

    /// Frees all that the host holds, and returns the pool of its stack, in which everything is then free.
    pub fn end(self) -> Pool
        ensures { result ≡ free_pool (host_view self).stack.config }
    {
        let EtherHost { stack, layer: _ } = self;
        stack.end()
    }
}
