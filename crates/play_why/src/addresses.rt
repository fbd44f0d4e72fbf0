//! The addresses to which the datagrams of a capture go.
ghost use Rattle.std.specs.Prelude.{◌≡◌, [], IfOk, None};
ghost use Rattle.play_why.specs.Shares as shares;

use flat_plain::u32_at;
use params::{FIRST_MULTICAST, IP_HEADER, PROTOCOL_UDP};
use std::alloc::{AllocError, Global};

/// How many addresses are counted, the first ones in the capture.
const MOST_ADDRESSES: usize = 256;

/// How many datagrams go to an address.
#[derive(Clone, Copy)]
struct Share {
    address: u32,
    count: u64,
}

/// How many datagrams go to which address.
#[derive(Drop)]
pub struct Addresses {
    shares: Vec<Share>,
    all: u64,
}

/// The address to which most datagrams go.
#[derive(Clone, Copy)]
pub struct Busiest {
    pub address: u32,
    /// How many datagrams go to it.
    pub count: u64,
    /// How many go to any address of a host.
    pub all: u64,
}

/// Returns whether a packet carries UDP to the address of a host.
fn goes_to_host(packet: &[u8]) -> bool
    ensures { result ≡ shares.goes_to_host packet.now }
{
    IP_HEADER as usize <= packet.len()
        && (packet[9] == PROTOCOL_UDP && u32_at(packet, 16) < FIRST_MULTICAST)
}

/// Returns the busier one of an address and another.
fn busier(all: u64, most: Option<Busiest>, share: Share) -> Option<Busiest>
    ensures { result ≡ shares.busier all most share }
{
    let least = match most {
        Some(before) => before.count,
        None => 0,
    };
    if least < share.count {
        Some(Busiest {
            address: share.address,
            count: share.count,
            all,
        })
    } else {
        most
    }
}

impl Addresses {
    /// No datagram is counted yet. It allocates no memory.
    pub fn new(alloc: Global) -> Addresses
        ensures shares { result.shares.items ≡ [] }
        ensures all { result.all ≡ 0 }
    {
        Addresses {
            shares: Vec::new(alloc),
            all: 0,
        }
    }

    /// Returns the index of an address that was counted before.
    fn place_of(&self, address: u32) -> Option<usize>
        ensures { result ≡ shares.share_place address self.now.shares.items }
    {
        self.shares
            .as_slice()
            .iter()
            .position(|share| share.address == address)
    }

    /// Counts one more for an address, if it was counted before or fewer than 256 are.
    fn count(&mut self, address: u32) -> Result<(), AllocError>
        ensures counted { IfOk result (λ done. self.new.shares.items
            ≡ shares.share_counted address self.old.shares.items (shares.share_place address self.old.shares.items)) }
        ensures all { self.new.all ≡ self.old.all }
    {
        match self.place_of(address) {
            Some(at) => {
                if let Some(share) = self.shares.get_mut(at) {
                    share.count = share.count.saturating_add(1);
                }
                Ok(())
            }
            None if self.shares.len() < MOST_ADDRESSES => {
                self.shares.push(Share { address, count: 1 })?;
                Ok(())
            }
            None => Ok(()),
        }
    }

    /// Counts a packet if it carries UDP to the address of a host, which is below 224.0.0.0. Only the first 256
    /// addresses are counted. Fails if the host has no memory.
    pub fn count_packet(&mut self, packet: &[u8]) -> Result<(), AllocError>
        ensures shares { IfOk result (λ done. self.new.shares.items
            ≡ shares.shares_after packet.now self.old.shares.items) }
        ensures all { self.new.all ≡ shares.all_after packet.now self.old.all }
    {
        if !goes_to_host(packet) {
            return Ok(());
        }
        self.all = self.all.saturating_add(1);
        self.count(u32_at(packet, 16))
    }

    /// Returns the address to which most datagrams went, the first of several. `None` if none went to a host.
    pub fn busiest(&self) -> Option<Busiest>
        ensures { result ≡ shares.busiest_after self.now.all None self.now.shares.items }
    {
        let mut most = None;
        let mut rest = self.shares.as_slice();
        'shares: while let [share, left @ ..] = rest {
            most = busier(self.all, most, *share);
            rest = left;
        }
        most
    }
}
