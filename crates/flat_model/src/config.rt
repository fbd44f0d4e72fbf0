//! The configuration of a host, and why it can be invalid.
ghost use Rattle.std.specs.Prelude.{MatchResult, IsTrue, ◌↔◌};
ghost use Rattle.flat_model.specs.Machine.State.{HasSizes, IsConfig, IsHost, IsConfigRefused};

use params::{FIRST_MULTICAST, LOOPBACK, MAX_CLUSTERS, MAX_MBUFS, MAX_MTU, MIN_MTU};
use thiserror::Error;

/// The parameters with which a host boots (this project's own).
#[derive(Clone, Copy, Debug, PartialEq, Eq)]
pub struct Config {
    /// The address of its only interface, in 1.0.0.0 to 223.255.255.255 and not in 127/8.
    pub addr: u32,
    /// The broadcast address of its network, in the same range and different from `addr`.
    pub bcast: u32,
    /// The MTU of the link: the longest packet in bytes, 68 to 4352.
    pub mtu: u16,
    /// The number of mbufs in the pool, 1 to 65,535.
    pub mbufs: u32,
    /// The number of clusters in the pool, 0 to 4,096.
    pub clusters: u32,
    /// The identification of the first datagram that it sends.
    pub first_id: u16,
}

/// Why a configuration is invalid (this project's own).
#[derive(Clone, Copy, Debug, PartialEq, Eq, Error)]
pub enum ConfigFault {
    /// The numbers of mbufs and clusters are out of range for a pool.
    #[error("bad sizes")]
    BadSizes,
    /// The addresses or the MTU are invalid for a host.
    #[error("bad config")]
    BadConfig,
}

impl Config {
    /// Checks whether a host can boot with this configuration.
    ///
    /// # Errors
    ///
    /// `BadSizes` if it has no mbuf, more than 65,535 mbufs, or more than 4,096 clusters. Otherwise `BadConfig` if its
    /// MTU isn't 68 to 4352, an address isn't a host address, or both addresses are equal.
    pub fn check(self) -> Result<(), ConfigFault>
        ensures { MatchResult result (λ done. IsConfig self) (λ fault. IsConfigRefused self fault) }
    {
        if !self.has_sizes() {
            return Err(ConfigFault::BadSizes);
        }
        if !self.has_addresses_and_mtu() {
            return Err(ConfigFault::BadConfig);
        }
        Ok(())
    }

    /// Returns whether a pool can have these numbers of mbufs and clusters.
    fn has_sizes(self) -> bool
        ensures { IsTrue result ↔ HasSizes self }
    {
        1 <= self.mbufs && self.mbufs <= MAX_MBUFS && self.clusters <= MAX_CLUSTERS
    }

    /// Returns whether the addresses and the MTU are valid.
    fn has_addresses_and_mtu(self) -> bool
        requires { HasSizes self }
        ensures { IsTrue result ↔ IsConfig self }
    {
        MIN_MTU <= self.mtu
            && self.mtu <= MAX_MTU
            && is_host(self.addr)
            && is_host(self.bcast)
            && self.addr != self.bcast
    }
}

/// Returns whether a host can have the address: it is in 1.0.0.0 to 223.255.255.255 and not in 127/8.
fn is_host(address: u32) -> bool
    ensures { IsTrue result ↔ IsHost address }
{
    let network = address >> 24;
    1 <= network && network < FIRST_MULTICAST >> 24 && network != LOOPBACK >> 24
}
