//! How many free buffers a send takes.
ghost use Rattle.std.specs.Prelude.{◌≡◌, ◌+◌, ◌-◌, ◌*◌, ◌/◌, ◌<◌, ◌≤◌};
ghost use Rattle.flat_model.specs.Amounts.Layout.{need, need_bcast};
ghost use Rattle.ip_out.specs.Inside.{Counts, IsSend};

use crate::fragments::cut_of;
use chain_ops::next_room;
use flat_model::Need;
use params::{
    CLUSTER_LEADING_SPACE, IP_HEADER, IP_UDP_HEADERS, MCLBYTES, MHLEN, MIN_MTU, MLEN, UDP_HEADER,
    UDP_MAX_DATA,
};

/// The longest datagram that shares its mbuf with its headers.
const MAX_SHARED: u32 = MHLEN - IP_UDP_HEADERS;

/// A limit above the length of any packet. It is the chunk of a datagram that isn't cut.
const UNCUT: u32 = 131_072;

/// Returns how many fragments after the first, which begin at 20 + `chunk`, 20 + 2 `chunk` and so on, share a byte with
/// the bytes of the packet from `at` up to `end`.
fn later_met(chunk: u32, at: u32, end: u32) -> u32
    requires chunk { MIN_MTU - IP_HEADER ≤ chunk }
    requires end { end ≤ UNCUT }
    ensures value { result ≡ (end - (IP_HEADER + 1)) / chunk - ((at - IP_HEADER) / chunk - 1) }
    ensures most { result ≤ UNCUT / (MIN_MTU - IP_HEADER) }
{
    let last = end.saturating_sub(IP_HEADER + 1) / chunk;
    let before = (at.saturating_sub(IP_HEADER) / chunk).saturating_sub(1);
    last.saturating_sub(before)
}

/// Returns how many bytes of a send of `n` bytes each fragment except the last carries, and how many fragments there
/// are after the first.
fn later_of(n: u32, mtu: u32) -> (u32, u32)
    requires { IsSend n mtu }
    ensures counts { Counts n mtu result.0 result.1 }
    ensures chunk { MIN_MTU - IP_HEADER ≤ result.0 }
    ensures most { result.1 ≤ 65536 }
{
    if n + IP_UDP_HEADERS <= mtu {
        return (UNCUT, 0);
    }
    let cut = cut_of(n + UDP_HEADER, mtu);
    (cut.chunk, cut.count - 1)
}

/// See `need`. It takes one step for each mbuf of the datagram.
fn count(n: u32, mtu: u32) -> Need
    requires { IsSend n mtu }
    ensures need { result ≡ need n mtu }
    ensures most { result.mbufs ≤ 200000000 }
{
    let (chunk, later) = later_of(n, mtu);
    if n <= MAX_SHARED {
        return Need {
            mbufs: 1 + later + later_met(chunk, 0, IP_UDP_HEADERS + n),
            clusters: 0,
        };
    }
    let mut mbufs = 1 + later + later_met(chunk, 0, IP_UDP_HEADERS);
    let mut clusters = 0;
    let mut left = n;
    let mut large = MCLBYTES - CLUSTER_LEADING_SPACE;
    let mut small = MHLEN;
    'rooms: while left > 0 {
        let at = IP_UDP_HEADERS + (n - left);
        let (size, is_large) = next_room(large, small, left);
        mbufs += 1 + later_met(chunk, at, at + size);
        clusters += u32::from(is_large);
        left -= size;
        large = MCLBYTES;
        small = MLEN;
    }
    Need { mbufs, clusters }
}

/// Returns the number of free mbufs and clusters that a send of `n` bytes takes, with packets of at most `mtu` bytes:
/// those of the datagram, and for each fragment after the first an mbuf for its header and one for each mbuf that
/// contains some of its bytes. Clusters are shared. `n` is at most 65,507, `mtu` at least 68.
///
/// It takes one step for each mbuf of the datagram; the number of fragments doesn't count (`sosend`, `ip_output` of
/// TCP/IP Illustrated volume 2, chapters 16 and 8).
pub fn need(n: u32, mtu: u16) -> Need
    requires short { n ≤ UDP_MAX_DATA }
    requires least { MIN_MTU ≤ mtu }
    ensures { result ≡ need n mtu }
{
    // A short datagram is one mbuf and one packet, so there is nothing to count.
    if n <= MAX_SHARED && n + IP_UDP_HEADERS <= mtu as u32 {
        return Need {
            mbufs: 1,
            clusters: 0,
        };
    }
    count(n, mtu as u32)
}

/// Returns the number of free mbufs and clusters that a send of `n` bytes to the broadcast address takes, in one
/// packet: those of the datagram, and the same number of mbufs for the copy that comes back. Clusters are shared. `n`
/// is at most 65,507.
///
/// It takes one step for each mbuf of the datagram (`ether_output` and `looutput` of TCP/IP Illustrated volume 2,
/// chapters 4 and 5).
pub fn need_bcast(n: u32) -> Need
    requires { n ≤ UDP_MAX_DATA }
    ensures { result ≡ need_bcast n }
{
    let need = count(n, u16::MAX as u32);
    Need {
        mbufs: 2 * need.mbufs,
        ..need
    }
}
