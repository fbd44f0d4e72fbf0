//! The link's half of a host whose stack is kept elsewhere, as in the C library.
ghost use Rattle.std.specs.Prelude.{◌≡◌, ◌+◌, ◌≤◌, length, IfSome};
ghost use Rattle.params.specs.declared.TheConstants.{IP_MAX_PACKET};
ghost use Rattle.flat_ether.specs.Claims.{address_state};
ghost use Rattle.flat_ether.specs.Hosts.{TakesFrame, gives, gives_drained, last_error};
ghost use Rattle.flat_ether.specs.declared.sizes.TheConstants.{ETHER_HEADER, ETHER_MTU};
ghost use Rattle.ether_host.specs.Fronts.{buffer_front};
ghost use Rattle.ether_host.specs.View.{TellsFrame, halves, held_for};

use crate::frames::{body_of, kind_of};
use crate::layer::LinkLayer;
use crate::packets::{drain, take_packet};
use flat_ether::{AddressState, FrameKind, Link, Neighbour, NetFault, Tallies};
use flat_model::{Errno, Fate};
use net_stack::Stack;

impl LinkLayer {
    ghost use Rattle.ether_host.specs.Inside.{link_seen};

    /// A frame arrives: see `EtherHost::receive`. Returns the fate of its packet, or `None` if it has no packet for
    /// the stack.
    pub fn receive(&mut self, stack: &mut Stack, frame: &[u8]) -> Option<Fate>
        requires { length frame.now ≤ ETHER_HEADER + IP_MAX_PACKET }
        ensures takes { TakesFrame frame.now (halves stack.old (link_seen self.old))
            (halves stack.new (link_seen self.new)) }
        ensures fate { TellsFrame frame.now result (halves stack.old (link_seen self.old))
            (halves stack.new (link_seen self.new)) }
    {
        match kind_of(&self.config, self.link.mac, frame) {
            FrameKind::Packet => return Some(take_packet(stack, self, frame)),
            FrameKind::Martian => self.refuse(),
            FrameKind::Arp => self.receive_arp(body_of(frame)),
            FrameKind::Other => self.ignore(),
        }
        None
    }

    /// The stack's packets, and then the requests for those that wait because of them.
    fn give_drained(&mut self, stack: &mut Stack, buffer: &mut [u8]) -> Option<usize>
        requires mtu { stack.old.config.mtu ≤ ETHER_MTU }
        requires room { ETHER_HEADER + ETHER_MTU ≤ length buffer.old }
        ensures step { (buffer_front result buffer.new, halves stack.new (link_seen self.new))
            ≡ gives_drained (halves stack.old (link_seen self.old)) (link_seen self.old) }
        ensures fits { IfSome result (λ n. n ≤ length buffer.new) }
    {
        if let Some(len) = drain(stack, self, buffer) {
            return Some(len);
        }
        self.give_own(buffer)
    }

    /// The next frame for the link: see `EtherHost::transmit`. If `stack` isn't the one that this link was booted with,
    /// the caller first checks that its MTU is at most 1,500.
    pub fn transmit(&mut self, stack: &mut Stack, buffer: &mut [u8]) -> Option<usize>
        requires mtu { stack.old.config.mtu ≤ ETHER_MTU }
        requires room { ETHER_HEADER + ETHER_MTU ≤ length buffer.old }
        ensures step { (buffer_front result buffer.new, halves stack.new (link_seen self.new))
            ≡ gives (halves stack.old (link_seen self.old)) }
        ensures fits { IfSome result (λ n. n ≤ length buffer.new) }
    {
        if !self.claim.is_claimed() {
            return self.give_claim(buffer);
        }
        if let Some(len) = self.give_own(buffer) {
            return Some(len);
        }
        self.give_drained(stack, buffer)
    }

    /// The error that other hosts reported for the datagrams that a connected socket sent to its peer: see
    /// `EtherHost::last_error`.
    pub fn last_error(&mut self, stack: &Stack, fd: u32) -> Result<Option<NetFault>, Errno>
        ensures { (result, halves stack.now (link_seen self.new))
            ≡ last_error fd (halves stack.now (link_seen self.old)) }
    {
        match stack.socket_name(fd) {
            Ok(name) => Ok(self.take_error(name.port, name.peer)),
            Err(errno) => Err(errno),
        }
    }

    /// Its hardware address, its mask and its gateway, as given to `boot`.
    pub fn link(&self) -> Link
        ensures { result ≡ (link_seen self.now).link }
    {
        self.link
    }

    /// The state of the host's claim to its address.
    pub fn address(&self) -> AddressState
        ensures { result ≡ address_state (link_seen self.now).claim }
    {
        self.claim.state()
    }

    /// The counters of the link.
    pub fn tallies(&self) -> Tallies
        ensures { result ≡ (link_seen self.now).tallies }
    {
        self.tallies
    }

    /// The neighbours whose hardware address is known or requested, the most recently updated last.
    pub fn neighbours(&self) -> &[Neighbour]
        ensures { result.now ≡ (link_seen self.now).neighbours }
    {
        self.neighbours.as_slice()
    }

    /// How many packets wait for the hardware address of a next hop. A host keeps at most eight, for all hops.
    #[tactic(auto, using(crate::proofs::Places::held_counted))]
    pub fn held_for(&self, hop: u32) -> usize
        ensures { result ≡ held_for hop (link_seen self.now) }
    {
        self.held.iter().filter(|it| it.hop == hop).count()
    }
}
