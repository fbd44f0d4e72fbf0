//! The link of a host: its addresses, and the route of a packet.
ghost use Rattle.std.specs.Prelude.{◌≡◌};
ghost use Rattle.flat_ether.specs.Routes.{is_near, is_neighbour, route};
ghost use Rattle.flat_ether.specs.Settings.{has_gateway, is_ether_mtu, is_host_address, is_mask, is_net_end, link_fault};

use crate::fault::LinkFault;
use crate::mac::{Mac, NO_MAC};
use crate::sizes::ETHER_MTU;
use flat_model::Config;
use params::{FIRST_MULTICAST, LIMITED_BROADCAST, LOOPBACK, MIN_MTU};

/// The configuration of a host's link, apart from the IP addresses.
#[derive(Clone, Copy, Debug, PartialEq, Eq)]
pub struct Link {
    /// Its own hardware address.
    pub mac: Mac,
    /// The mask of its network: addresses with the same bits under it are on the link.
    pub mask: u32,
    /// The address of the gateway, which is on the link, if there is one.
    pub gateway: Option<u32>,
    /// Whether it first probes if another host has its address (RFC 5227). For these 5.0 to 5.5 seconds the host sends
    /// only probes.
    pub probe: bool,
}

/// What a frame is for a host.
#[derive(Clone, Copy, Debug, PartialEq, Eq)]
pub enum FrameKind {
    /// An IPv4 packet.
    Packet,
    /// An IPv4 packet whose addresses can't come from a link (RFC 1122, section 3.2.1.3).
    Martian,
    /// An ARP packet.
    Arp,
    /// Ignored: to another address, too short for a header, or of another type.
    Other,
}

/// The route of a packet on the link.
#[derive(Clone, Copy, Debug, PartialEq, Eq)]
pub enum Route {
    /// To the broadcast address.
    All,
    /// To the neighbour with this address.
    Hop(u32),
    /// It isn't for the link, and there is no gateway.
    NoRoute,
}

/// Whether a host on an Ethernet can have this MTU.
fn is_ether_mtu(mtu: u16) -> bool
    ensures { result ≡ is_ether_mtu mtu }
{
    MIN_MTU <= mtu && u32::from(mtu) <= ETHER_MTU
}

/// Whether a host can have this address: it is in 1.0.0.0 to 223.255.255.255, and not in 127/8.
fn is_host_address(ip: u32) -> bool
    ensures { result ≡ is_host_address ip }
{
    ip >= 1 << 24 && ip < FIRST_MULTICAST && ip >> 24 != LOOPBACK >> 24
}

/// Whether it's the mask of a network: ones followed by zeros, at most 30 ones.
fn is_mask(mask: u32) -> bool
    ensures { result ≡ is_mask mask }
{
    let hosts = u64::from(!mask);
    hosts & (hosts + 1) == 0 && hosts >= 3
}

impl Link {
    /// Returns the first setting for which no host with this configuration and this link boots: in the order of
    /// `LinkFault`, by RFC 1122, section 3.2.1.3.
    pub fn fault(&self, config: &Config) -> Option<LinkFault>
        ensures { result ≡ link_fault config.now self.now }
    {
        if !is_ether_mtu(config.mtu) {
            return Some(LinkFault::Mtu);
        }
        if self.mac.high / 256 % 2 != 0 {
            return Some(LinkFault::GroupMac);
        }
        if self.mac.is(NO_MAC) {
            return Some(LinkFault::NoMac);
        }
        if !is_host_address(config.addr) {
            return Some(LinkFault::Addr);
        }
        if !is_mask(self.mask) {
            return Some(LinkFault::Mask);
        }
        if !is_host_address(config.addr | !self.mask) {
            return Some(LinkFault::WideMask);
        }
        if self.is_end(config, config.addr) {
            return Some(LinkFault::HostNumber);
        }
        if config.bcast != config.addr | !self.mask {
            return Some(LinkFault::Bcast);
        }
        if !self.has_gateway(config) {
            return Some(LinkFault::Gateway);
        }
        None
    }

    /// Whether an address is the first or the last one of the network.
    fn is_end(&self, config: &Config, ip: u32) -> bool
        ensures { result ≡ is_net_end config.now self.now ip }
    {
        ip == config.addr & self.mask || ip == config.addr | !self.mask
    }

    /// Whether the gateway is another host on the network, if there is one.
    fn has_gateway(&self, config: &Config) -> bool
        ensures { result ≡ has_gateway config.now self.now self.now.gateway }
    {
        match self.gateway {
            Some(gateway) => self.is_neighbour(config, gateway) && !self.is_end(config, gateway),
            None => true,
        }
    }

    /// Whether an address is on the link.
    fn is_near(&self, config: &Config, ip: u32) -> bool
        ensures { result ≡ is_near config.now self.now ip }
    {
        ip & self.mask == config.addr & self.mask
    }

    /// Whether an address may be that of another host on the link.
    pub fn is_neighbour(&self, config: &Config, ip: u32) -> bool
        ensures { result ≡ is_neighbour config.now self.now ip }
    {
        self.is_near(config, ip) && ip != 0 && ip != config.addr && ip != config.bcast
    }

    /// The route of a packet to this address (`ether_output` and `arpresolve` of volume 2, chapters 4 and 21).
    pub fn route(&self, config: &Config, ip: u32) -> Route
        ensures { result ≡ route config.now self.now ip }
    {
        if ip == config.bcast || ip == LIMITED_BROADCAST {
            return Route::All;
        }
        if self.is_near(config, ip) {
            return Route::Hop(ip);
        }
        match self.gateway {
            Some(gateway) => Route::Hop(gateway),
            None => Route::NoRoute,
        }
    }
}
