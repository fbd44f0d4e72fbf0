//! An entry of the neighbour table.
use crate::mac::Mac;

/// A neighbour whose hardware address is known or requested (`llinfo_arp` of volume 2, chapter 21).
#[derive(Clone, Copy, Debug, Default, PartialEq, Eq)]
pub struct Neighbour {
    /// Its address.
    pub ip: u32,
    /// Its hardware address, once it was received.
    pub mac: Option<Mac>,
    /// For how many ticks it's still known; if it isn't known, in how many ticks the next request is sent.
    pub ticks: u16,
    /// How many requests for it were sent.
    pub tries: u8,
}

/// A host to which an ARP reply is due.
#[derive(Clone, Copy, Debug, Default, PartialEq, Eq)]
pub struct PendingReply {
    /// Its hardware address.
    pub mac: Mac,
    /// Its address.
    pub ip: u32,
}
