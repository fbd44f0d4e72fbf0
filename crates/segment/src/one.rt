//! One host on an Ethernet: how it joins, frames from outside that arrive at it, and queries about it.
ghost use Rattle.std.specs.Prelude.{◌≡◌, ◌+◌, ◌≤◌, ◌&&◌, Ok, Err, length, map, nat_lt, is_some, option_map, slice_get, MatchOption, MatchResult, None, Some};
ghost use Rattle.std.specs.List.{list_all};
ghost use Rattle.flat_model.specs.Amounts.Choice.{Choice};
ghost use Rattle.params.specs.declared.TheConstants.{IP_MAX_PACKET};
ghost use Rattle.flat_ether.specs.Claims.{address_state};
ghost use Rattle.flat_ether.specs.declared.sizes.TheConstants.{ETHER_HEADER};
ghost use Rattle.ether_host.specs.Inside.{link_seen};
ghost use Rattle.ether_host.specs.View.{held_for};
ghost use Rattle.segment.specs.Frames.{IsErrorQueried, IsEtherJoined, IsEtherRefused, IsFree, IsHostTicked, HasReceived, other_mac};
ghost use Rattle.segment.specs.Inside.{view};
ghost use Rattle.segment.specs.Segment.{is_linked};

use crate::chances::NO_CHANCES;
use crate::segment::{JoinFault, MAX_HOSTS, Segment, is_apart};
use crate::tally::NOTHING;
use ether_host::{AddressState, Link, LinkLayer, Mac, Neighbour, NetFault, Tallies};
use flat_model::{Config, Errno};
use net_stack::{BootFault, Stack};
use std::alloc::Global;

/// Whether no link has this hardware address.
fn is_other_mac(mac: Mac, links: &[LinkLayer]) -> bool
    ensures { result ≡ list_all (other_mac mac) (map link_seen links.now) }
{
    let mut rest = links;
    while let [link, left @ ..] = rest {
        if mac.is(link.link().mac) {
            return false;
        }
        rest = left;
    }
    true
}

impl Segment {
    /// Whether this host can join.
    fn check_ether(&self, config: &Config, link: &Link) -> Result<(), JoinFault>
        ensures { MatchResult result (λ _. IsFree (view self.now) config.now link.now)
            (λ fault. IsEtherRefused (view self.now) config.now link.now fault) }
    {
        if self.stacks.len() >= MAX_HOSTS {
            return Err(JoinFault::TooManyHosts);
        }
        if self.links.len() != self.stacks.len() {
            return Err(JoinFault::OtherLink);
        }
        if let Some(fault) = link.fault(config) {
            return Err(JoinFault::BadLink(fault));
        }
        if !is_apart(config, self.directory.configs.as_slice()) {
            return Err(JoinFault::AddressTaken);
        }
        if !is_other_mac(link.mac, self.links.as_slice()) {
            return Err(JoinFault::MacTaken);
        }
        Ok(())
    }

    /// A host on an Ethernet joins: its stack and its link boot, and it gets the next place, from 0 on. Allocates all
    /// memory that the host will ever need.
    ///
    /// # Errors
    ///
    /// In this order, and then the segment is unchanged: `TooManyHosts` if it has 64 hosts; `OtherLink` if a host isn't
    /// on an Ethernet; `BadLink` with the first wrong setting; `AddressTaken` if a host has the same address, or one of
    /// the two has the other's address as its broadcast address; `MacTaken`; `Unbooted` if there is no stack with this
    /// configuration, or host memory can't be allocated.
    pub fn join_ether(&mut self, alloc: Global, config: Config, link: Link) -> Result<(), JoinFault>
        ensures { MatchResult result (λ _. IsEtherJoined config link (view self.old) (view self.new)) (λ fault.
            IsEtherRefused (view self.old) config link fault × (view self.new ≡ view self.old)) }
    {
        self.check_ether(&config, &link)?;
        if self.directory.reserve().is_err()
            || self.stacks.reserve(1).is_err()
            || self.links.reserve(1).is_err()
            || self.impairment.chances.reserve(1).is_err()
            || self.impairment.tallies.reserve(1).is_err()
        {
            return Err(JoinFault::Unbooted(BootFault::Memory));
        }
        let Ok(layer) = LinkLayer::boot(alloc, config, link) else {
            return Err(JoinFault::Unbooted(BootFault::Memory));
        };
        match Stack::boot(alloc, config) {
            Ok(stack) => {
                self.directory.add(config);
                self.stacks.push_reserved(stack);
                self.links.push_reserved(layer);
                self.impairment.chances.push_reserved(NO_CHANCES);
                self.impairment.tallies.push_reserved(NOTHING);
                Ok(())
            }
            Err(fault) => Err(JoinFault::Unbooted(fault)),
        }
    }

    /// A frame from outside arrives at the host at a place: see `EtherHost::receive`. Returns whether there is such a
    /// host on an Ethernet.
    pub fn receive(&mut self, place: usize, frame: &[u8]) -> bool
        requires { length frame.now ≤ ETHER_HEADER + IP_MAX_PACKET }
        ensures is { result
            ≡ nat_lt place (length (view self.old).stacks) && nat_lt place (length (view self.old).links) }
        ensures received { Choice result (HasReceived place frame.now (view self.old) (view self.new))
            (view self.new ≡ view self.old) }
    {
        if place >= self.stacks.len() || place >= self.links.len() {
            return false;
        }
        self.links[place].receive(&mut self.stacks[place], frame);
        true
    }

    /// What other hosts reported for the datagrams that a connected socket sent to its peer: see
    /// `EtherHost::last_error`. `None` if there is no such host on an Ethernet.
    pub fn last_error(&mut self, place: usize, fd: u32) -> Option<Result<Option<NetFault>, Errno>>
        ensures is { is_some result
            ≡ nat_lt place (length (view self.old).stacks) && nat_lt place (length (view self.old).links) }
        ensures asked { MatchOption result (view self.new ≡ view self.old)
            (λ fault. IsErrorQueried place fd fault (view self.old) (view self.new)) }
    {
        if place >= self.stacks.len() || place >= self.links.len() {
            return None;
        }
        Some(self.links[place].last_error(&self.stacks[place], fd))
    }

    /// The clock of the host at a place ticks, in its stack and in its link: see `EtherHost::tick`. Returns whether
    /// there is such a host on an Ethernet.
    pub fn tick_host(&mut self, place: usize) -> bool
        ensures is { result ≡ is_linked place (view self.old) }
        ensures ticked { Choice result (IsHostTicked place (view self.old) (view self.new))
            (view self.new ≡ view self.old) }
    {
        if place >= self.stacks.len() || place >= self.links.len() {
            return false;
        }
        self.links[place].tick(&mut self.stacks[place]);
        true
    }

    /// Whether there is a host on an Ethernet at a place.
    pub fn is_linked(&self, place: usize) -> bool
        ensures { result ≡ is_linked place (view self.now) }
    {
        place < self.stacks.len() && place < self.links.len()
    }

    /// The neighbours of the host at a place. `None` if there is no such host on an Ethernet.
    pub fn neighbours(&self, place: usize) -> Option<&[Neighbour]>
        ensures { MatchOption result (slice_get (view self.now).links place ≡ None)
            (λ reported. option_map (λ l. l.neighbours) (slice_get (view self.now).links place) ≡ Some reported.now) }
    {
        let link = self.links.get(place)?;
        Some(link.neighbours())
    }

    /// How many packets of the host at a place wait for the hardware address of a next hop. `None` if there is no such
    /// host on an Ethernet.
    pub fn held_for(&self, place: usize, hop: u32) -> Option<usize>
        ensures { result ≡ option_map (λ l. held_for hop l) (slice_get (view self.now).links place) }
    {
        let link = self.links.get(place)?;
        Some(link.held_for(hop))
    }

    /// The link of the host at a place. `None` if there is no such host on an Ethernet.
    pub fn link(&self, place: usize) -> Option<Link>
        ensures { result ≡ option_map (λ l. l.link) (slice_get (view self.now).links place) }
    {
        let link = self.links.get(place)?;
        Some(link.link())
    }

    /// The state of the claim of the host at a place to its address. `None` if there is no such host on an Ethernet.
    pub fn address(&self, place: usize) -> Option<AddressState>
        ensures { result ≡ option_map (λ l. address_state l.claim) (slice_get (view self.now).links place) }
    {
        let link = self.links.get(place)?;
        Some(link.address())
    }

    /// The counters of the link of the host at a place. `None` if there is no such host on an Ethernet.
    pub fn link_tallies(&self, place: usize) -> Option<Tallies>
        ensures { result ≡ option_map (λ l. l.tallies) (slice_get (view self.now).links place) }
    {
        let link = self.links.get(place)?;
        Some(link.tallies())
    }
}
