//! The table of neighbours.
ghost use Rattle.std.specs.Prelude.{◌≡◌, position};
ghost use Rattle.flat_ether.specs.Links.{asked_again, asked_at, is_request_due, is_poll_due, mac_of, neighbour_place, put};

use arrayvec::ArrayVec;
use flat_ether::{
    ARP_POLLS, ARP_RETRY_TICKS, ARP_TRIES, ETHER_BROADCAST, Mac, NEIGHBOURS, Neighbour,
};

/// The place of the neighbour with this address.
pub(crate) fn place_of(neighbours: &[Neighbour], ip: u32) -> Option<usize>
    ensures { result ≡ neighbour_place ip neighbours.now }
{
    neighbours.iter().position(|n| n.ip == ip)
}

/// The hardware address last received for an address.
pub(crate) fn mac_of(neighbours: &[Neighbour], ip: u32) -> Option<Mac>
    ensures { result ≡ mac_of ip neighbours.now }
{
    match place_of(neighbours, ip) {
        Some(at) => neighbours[at].mac,
        None => None,
    }
}

/// Whether a known neighbour gets another request before its entry expires.
fn is_poll_due(neighbour: &Neighbour) -> bool
    ensures { result ≡ is_poll_due neighbour.now }
{
    let retry = u32::from(ARP_RETRY_TICKS);
    let ticks = u32::from(neighbour.ticks) + u32::from(neighbour.tries) * retry;
    neighbour.tries < ARP_POLLS && ticks <= u32::from(ARP_POLLS) * retry
}

/// Whether a request for it is due.
fn is_due(neighbour: &Neighbour) -> bool
    ensures { result ≡ is_request_due neighbour.now }
{
    if neighbour.mac.is_some() {
        return is_poll_due(neighbour);
    }
    neighbour.ticks == 0 && neighbour.tries < ARP_TRIES
}

/// The neighbour after a request for it was sent.
pub(crate) fn asked_again(neighbour: Neighbour) -> Neighbour
    ensures { result ≡ asked_again neighbour }
{
    let tries = neighbour.tries.saturating_add(1);
    if neighbour.mac.is_some() {
        return Neighbour { tries, ..neighbour };
    }
    Neighbour {
        ticks: ARP_RETRY_TICKS,
        tries,
        ..neighbour
    }
}

/// The destination of a request for it: the neighbour itself if it's known, otherwise the broadcast address.
pub(crate) fn asked_at(mac: Option<Mac>) -> Mac
    ensures { result ≡ asked_at mac }
{
    match mac {
        Some(mac) => mac,
        None => ETHER_BROADCAST,
    }
}

/// The place of the first neighbour for which a request is due.
pub(crate) fn due(neighbours: &[Neighbour]) -> Option<usize>
    ensures { result ≡ position is_request_due neighbours.now }
{
    neighbours.iter().position(|n| is_due(n))
}

/// Replaces the neighbour with its address, or adds it at the end; a full table loses its first entry.
pub(crate) fn put(neighbours: &mut ArrayVec<Neighbour, NEIGHBOURS>, neighbour: Neighbour)
    ensures { neighbours.new.items ≡ put neighbour neighbours.old.items }
{
    match place_of(neighbours.as_slice(), neighbour.ip) {
        Some(at) => neighbours[at] = neighbour,
        None => {
            if neighbours.is_full() {
                neighbours.remove(0);
            }
            neighbours.push(neighbour);
        }
    }
}
