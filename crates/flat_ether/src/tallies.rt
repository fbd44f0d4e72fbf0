//! The counters of a host's link.

/// Counters since boot. Each stops at 2^64 - 1.
#[derive(Clone, Copy, Debug, Default, PartialEq, Eq)]
pub struct Tallies {
    /// Frames that aren't for the host, or are neither IPv4 nor ARP.
    pub ignored: u64,
    /// IPv4 packets with a source that is a broadcast or multicast address or in 0/8 or 127/8, or with a destination in
    /// 127/8.
    pub martians: u64,
    /// ARP packets that aren't for Ethernet and IPv4, or whose sender's hardware address is this host's, a group's or
    /// all zeros.
    pub bad_arp: u64,
    /// ARP packets of another host that claims this one's address, or probes for it while this one does.
    pub conflicts: u64,
    /// ARP replies that were dropped because their queue was full.
    pub replies_dropped: u64,
    /// Packets without a route.
    pub no_route: u64,
    /// Packets that waited for a hardware address and were dropped for another.
    pub held_dropped: u64,
    /// Packets that waited for a hardware address that never arrived.
    pub unresolved: u64,
    /// Packets that are longer than a frame can carry; no machine of this link has such packets.
    pub too_long: u64,
    /// Echo requests that got a reply.
    pub echoes: u64,
    /// Datagrams for which "port unreachable" or "protocol unreachable" was sent.
    pub unreachable: u64,
    /// Datagrams for which no error was sent, because the limit for one tick was reached.
    pub limited: u64,
    /// ICMP replies that were dropped: another one was being sent, or a newer one took the place of one that waited for
    /// a hardware address, or that address never arrived.
    pub icmp_dropped: u64,
    /// Unfinished datagrams for which "time exceeded" was sent.
    pub expired: u64,
}
