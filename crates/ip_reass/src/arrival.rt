//! What happens to a fragment that arrives.

use flat_model::Why;
use ip_out::IpHead;
use mbuf_chain::Chain;

/// What happened to a fragment.
pub enum Arrival {
    /// It waits for the others of its datagram.
    Kept,
    /// Its datagram is whole: the datagram's chain without IP header, and its header.
    Whole(Chain, IpHead),
    /// It was dropped, for this cause, and its chain is freed.
    Dropped(Why),
}
