//! Conversions from and to the structs of C for a link.
ghost use Rattle.std.specs.Prelude.{◌≡◌};
ghost use Rattle.libbsdudp.specs.LinkPlain.{plain_link, c_neighbour, c_tallies};

use crate::link_plain::{CLink, CNeighbour, CTallies};
use flat_ether::{Link, Mac, NO_MAC, Neighbour, Tallies};

impl CLink {
    pub(crate) fn link(&self) -> Link
        ensures { result ≡ plain_link self.now }
    {
        let gateway = if self.gateway == 0 {
            None
        } else {
            Some(self.gateway)
        };
        Link {
            mac: Mac {
                high: self.mac_high,
                low: self.mac_low,
            },
            mask: self.mask,
            gateway,
            probe: self.probe != 0,
        }
    }
}

impl CNeighbour {
    pub(crate) fn of(neighbour: Neighbour) -> CNeighbour
        ensures { result ≡ c_neighbour neighbour }
    {
        let mac = neighbour.mac.unwrap_or(NO_MAC);
        CNeighbour {
            ip: neighbour.ip,
            mac_low: mac.low,
            mac_high: mac.high,
            ticks: neighbour.ticks,
            tries: neighbour.tries,
            known: u8::from(neighbour.mac.is_some()),
        }
    }
}

impl CTallies {
    pub(crate) fn of(tallies: Tallies) -> CTallies
        ensures { result ≡ c_tallies tallies }
    {
        CTallies {
            ignored: tallies.ignored,
            martians: tallies.martians,
            bad_arp: tallies.bad_arp,
            conflicts: tallies.conflicts,
            replies_dropped: tallies.replies_dropped,
            no_route: tallies.no_route,
            held_dropped: tallies.held_dropped,
            unresolved: tallies.unresolved,
            too_long: tallies.too_long,
            echoes: tallies.echoes,
            unreachable: tallies.unreachable,
            limited: tallies.limited,
            icmp_dropped: tallies.icmp_dropped,
            expired: tallies.expired,
        }
    }
}
