//! The claim of a host to its address (RFC 5227).
ghost use Rattle.std.specs.Prelude.{◌≡◌};
ghost use Rattle.flat_ether.specs.Claims.{address_state, claim_due, claim_sent, claim_ticks, claim_up, conflicts, is_claimed};

use crate::sizes::{ANNOUNCE_TICKS, ANNOUNCEMENTS, ARP_PROBES, DEFEND_TICKS, PROBE_TICKS};

/// The state of a host's claim to its address.
#[derive(Clone, Copy, Debug, PartialEq, Eq)]
pub enum AddressState {
    /// It probes whether another host has the address, and doesn't use it yet.
    Probing,
    /// Another host has it, or probes for it at the same time: this host doesn't use it.
    Conflict,
    /// It uses the address.
    InUse,
}

/// What a host sends by itself for its address.
#[derive(Clone, Copy, Debug, PartialEq, Eq)]
pub enum ClaimFrame {
    /// A request whether another host has the address.
    Probe,
    /// That this host has it.
    Announcement,
    /// Nothing now.
    Nothing,
}

/// What is still to be sent for the address, and when.
#[derive(Clone, Copy, Debug, PartialEq, Eq)]
pub struct Claim {
    /// How many probes are left to send.
    pub probes: u8,
    /// How many announcements are left to send.
    pub announcements: u8,
    /// In how many ticks the next of these is sent.
    pub wait: u8,
    /// In how many ticks the address may be defended again.
    pub defence: u8,
    /// Another host had the address, or probed for it, before it was in use.
    pub lost: bool,
}

impl Claim {
    /// That of a host that has just started, with probes or without.
    pub fn new(probe: bool) -> Claim
        ensures { result ≡ claim_up probe }
    {
        Claim {
            probes: if probe { ARP_PROBES } else { 0 },
            announcements: ANNOUNCEMENTS,
            wait: 0,
            defence: 0,
            lost: false,
        }
    }

    /// Whether the address is in use: no probe is left to send, and the wait after the last one is over.
    pub fn is_claimed(&self) -> bool
        ensures { result ≡ is_claimed self.now }
    {
        !self.lost && self.probes == 0 && (self.wait == 0 || self.announcements < ANNOUNCEMENTS)
    }

    /// The state of the host's claim.
    pub fn state(&self) -> AddressState
        ensures { result ≡ address_state self.now }
    {
        if self.lost {
            return AddressState::Conflict;
        }
        if self.is_claimed() {
            return AddressState::InUse;
        }
        AddressState::Probing
    }

    /// What is to be sent now.
    pub fn due(&self) -> ClaimFrame
        ensures { result ≡ claim_due self.now }
    {
        if self.lost || self.wait > 0 {
            return ClaimFrame::Nothing;
        }
        if self.probes > 0 {
            return ClaimFrame::Probe;
        }
        if self.announcements > 0 {
            return ClaimFrame::Announcement;
        }
        ClaimFrame::Nothing
    }

    /// The claim after the due frame was sent.
    pub fn sent(self) -> Claim
        ensures { result ≡ claim_sent self }
    {
        if self.probes > 0 {
            return Claim {
                probes: self.probes - 1,
                wait: if self.probes == 1 {
                    ANNOUNCE_TICKS
                } else {
                    PROBE_TICKS
                },
                ..self
            };
        }
        Claim {
            announcements: self.announcements.saturating_sub(1),
            wait: ANNOUNCE_TICKS,
            ..self
        }
    }

    /// The claim a tick later.
    pub fn ticked(self) -> Claim
        ensures { result ≡ claim_ticks self }
    {
        Claim {
            wait: self.wait.saturating_sub(1),
            defence: self.defence.saturating_sub(1),
            ..self
        }
    }

    /// The claim after another host was seen with this address: given up if the address isn't in use yet, otherwise
    /// defended, at most once in ten seconds.
    pub fn contested(self) -> Claim
        ensures { result ≡ conflicts self }
    {
        if !self.is_claimed() {
            return Claim { lost: true, ..self };
        }
        if self.defence > 0 {
            return self;
        }
        Claim {
            announcements: self.announcements.max(1),
            defence: DEFEND_TICKS,
            ..self
        }
    }
}
