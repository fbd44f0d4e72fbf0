//! A broadcast segment: its hosts, and what is under way.
ghost use Rattle.std.specs.Prelude.{◌≡◌, length, nat_lt, option_map, slice_get, slice_set, IfOk, MatchResult};
ghost use Rattle.std.specs.List.{list_all};
ghost use Rattle.segment.specs.Chances.{seeded};
ghost use Rattle.segment.specs.Segment.{IsJoined, IsJoinRefused, are_apart, is_ether, no_hosts};
ghost use Rattle.segment.specs.Inside.{lends_stack, view};
ghost use Rattle.std.specs.Borrow.{sem};

use crate::chances::{Chances, Impairment, NO_CHANCES, seeded};
use crate::directory::Directory;
use crate::flight::Flight;
use crate::tally::{NOTHING, Tally};
use ether_host::{LinkFault, LinkLayer};
use flat_model::Config;
use net_stack::{BootFault, Stack};
use std::alloc::{AllocError, Global};
use thiserror::Error;

/// The most hosts on a segment.
pub const MAX_HOSTS: usize = 64;

/// Why a host can't join a segment.
#[derive(Clone, Copy, Debug, PartialEq, Eq, Error)]
pub enum JoinFault {
    /// The segment has 64 hosts.
    #[error("too many hosts")]
    TooManyHosts,
    /// A host of the segment has this address, or this broadcast address as its own, or this one's own as its broadcast
    /// address.
    #[error("address taken")]
    AddressTaken,
    /// Its stack didn't boot.
    #[error(transparent)]
    Unbooted(BootFault),
    /// It's on an Ethernet, and a host of the segment isn't, or vice versa.
    #[error("other link")]
    OtherLink,
    /// A host of the segment has this hardware address.
    #[error("hardware address taken")]
    MacTaken,
    /// A setting of a host on an Ethernet is wrong, for this reason.
    #[error("bad link")]
    BadLink(LinkFault),
}

/// A broadcast segment, such as an Ethernet: up to 64 hosts, each with a stack of its own, and the packets that are
/// under way between them. Either no host has a link below its stack, or each has one: then frames are under way. It
/// must be consumed, by `end`.
pub struct Segment {
    pub(crate) directory: Directory,
    pub(crate) stacks: Vec<Stack>,
    pub(crate) links: Vec<LinkLayer>,
    pub(crate) flight: Flight,
    pub(crate) impairment: Impairment,
}

/// Whether the addresses of two hosts differ.
fn are_apart(first: &Config, second: &Config) -> bool
    ensures { result ≡ are_apart first.now second.now }
{
    first.addr != second.addr && first.addr != second.bcast && second.addr != first.bcast
}

/// Whether the addresses of a host differ from those of all others.
pub(crate) fn is_apart(config: &Config, others: &[Config]) -> bool
    ensures { result ≡ list_all (are_apart config.now) others.now }
{
    let mut rest = others;
    while let [other, left @ ..] = rest {
        if !are_apart(config, other) {
            return false;
        }
        rest = left;
    }
    true
}

impl Segment {
    /// A segment without hosts, with capacity for `room` packets under way, and the seed 1. All memory for these is
    /// allocated here.
    ///
    /// # Errors
    ///
    /// `AllocError` if host memory can't be allocated; then nothing stays allocated.
    pub fn new(alloc: Global, room: u16) -> Result<Segment, AllocError>
        ensures { IfOk result (λ s. view s ≡ no_hosts room) }
    {
        let flight = Flight::new(alloc, room)?;
        Ok(Segment {
            directory: Directory::new(alloc),
            stacks: Vec::new(alloc),
            links: Vec::new(alloc),
            flight,
            impairment: Impairment {
                chances: Vec::new(alloc),
                random: seeded(1),
                tallies: Vec::new(alloc),
            },
        })
    }

    /// A host joins: its stack boots, and it gets the next place, from 0 on. Allocates all memory that the host will
    /// ever need.
    ///
    /// # Errors
    ///
    /// In this order, and then the segment is unchanged: `TooManyHosts` if it has 64 hosts; `OtherLink` if a host is on
    /// an Ethernet; `AddressTaken` if a host has the same address, or one of the two has the other's address as its
    /// broadcast address; `Unbooted` if there is no stack with this configuration, or host memory can't be allocated.
    pub fn join(&mut self, alloc: Global, config: Config) -> Result<(), JoinFault>
        ensures { MatchResult result (λ _. IsJoined config (view self.old) (view self.new)) (λ fault.
            IsJoinRefused (view self.old) config fault × (view self.new ≡ view self.old)) }
    {
        if self.stacks.len() >= MAX_HOSTS {
            return Err(JoinFault::TooManyHosts);
        }
        if self.is_ether() {
            return Err(JoinFault::OtherLink);
        }
        if !is_apart(&config, self.directory.configs.as_slice()) {
            return Err(JoinFault::AddressTaken);
        }
        if self.directory.reserve().is_err()
            || self.stacks.reserve(1).is_err()
            || self.impairment.chances.reserve(1).is_err()
            || self.impairment.tallies.reserve(1).is_err()
        {
            return Err(JoinFault::Unbooted(BootFault::Memory));
        }
        match Stack::boot(alloc, config) {
            Ok(stack) => {
                self.directory.add(config);
                self.stacks.push_reserved(stack);
                self.impairment.chances.push_reserved(NO_CHANCES);
                self.impairment.tallies.push_reserved(NOTHING);
                Ok(())
            }
            Err(fault) => Err(JoinFault::Unbooted(fault)),
        }
    }

    /// The stack of the host at a place, for any call on it: a packet passed to its `rx` comes from outside. `None` if
    /// there is no such host.
    pub fn stack(&mut self, place: usize) -> Option<&mut Stack>
        ensures* writes_back { sem 𝓛 (lends_stack self.entry place result) }
        ensures value { option_map (λ stack. stack.now) result ≡ slice_get (view self.entry.now).stacks place }
    {
        self.stacks.get_mut(place)
    }

    /// Starts the generator of all choices to come with a seed.
    pub fn seed(&mut self, seed: u64)
        ensures { view self.new ≡ record (view self.old) { random = seeded seed } }
    {
        self.impairment.random = seeded(seed);
    }

    /// Sets the chances for what the host at a place sends from now on. Returns whether there is such a host.
    pub fn impair(&mut self, place: usize, chances: Chances) -> bool
        ensures is { result ≡ nat_lt place (length (view self.old).chances) }
        ensures set { view self.new
            ≡ record (view self.old) { chances = slice_set (view self.old).chances place chances } }
    {
        match self.impairment.chances.get_mut(place) {
            Some(now) => {
                *now = chances;
                true
            }
            None => false,
        }
    }

    /// The chances for what the host at a place sends. `None` if there is no such host.
    pub fn chances(&self, place: usize) -> Option<Chances>
        ensures { result ≡ slice_get (view self.now).chances place }
    {
        self.impairment.chances.get(place).copied()
    }

    /// The counters of the packets of the host at a place. `None` if there is no such host.
    pub fn tally(&self, place: usize) -> Option<Tally>
        ensures { result ≡ slice_get (view self.now).tallies place }
    {
        self.impairment.tallies.get(place).copied()
    }

    /// Whether its hosts are on an Ethernet. One without hosts isn't.
    pub fn is_ether(&self) -> bool
        ensures { result ≡ is_ether (view self.now) }
    {
        !self.links.is_empty()
    }

    /// How many hosts it has.
    pub fn hosts(&self) -> usize
        ensures { result ≡ length (view self.now).stacks }
    {
        self.stacks.len()
    }

    /// Frees all that the hosts and the segment hold.
    pub fn end(self) {
        let Segment {
            directory: _,
            mut stacks,
            links: _links,
            flight: _,
            impairment: _,
        } = self;
        while let Some(stack) = stacks.pop() {
            let _ = stack.end();
        }
        stacks.destroy_empty();
    }
}
