//! The structs that are shared with C, for a host on an Ethernet.

/// The settings of a link from C. The hardware address is two numbers, for its first two bytes and for its last four.
#[repr(C)]
#[derive(Clone, Copy)]
pub struct CLink {
    /// The first two bytes of the hardware address, as a number.
    pub mac_high: u16,
    /// Its last four bytes, as a number.
    pub mac_low: u32,
    /// The mask of its network.
    pub mask: u32,
    /// The address of its gateway, 0 for no gateway.
    pub gateway: u32,
    /// 0 if it uses its address at once; otherwise it first probes whether another host has it.
    pub probe: u8,
}

/// A neighbour for C.
#[repr(C)]
#[derive(Clone, Copy)]
pub struct CNeighbour {
    /// Its address.
    pub ip: u32,
    /// The last four bytes of its hardware address, as a number; 0 while the address isn't known.
    pub mac_low: u32,
    /// The first two bytes, as a number; 0 while the address isn't known.
    pub mac_high: u16,
    /// How many more ticks the hardware address is valid; while it isn't known, how many ticks remain until the next
    /// request.
    pub ticks: u16,
    /// The number of requests sent for it.
    pub tries: u8,
    /// 1 if its hardware address is known, otherwise 0.
    pub known: u8,
}

/// The counters of a link since boot: those of `struct bsdudp_tallies`, and `expired`.
#[repr(C)]
#[derive(Clone, Copy)]
pub struct CTallies {
    /// Frames for other hosts, or of a type other than IPv4 and ARP.
    pub ignored: u64,
    /// Packets with addresses that can't come from a link.
    pub martians: u64,
    /// ARP packets that aren't for Ethernet and IPv4, or whose sender address is this host's or a broadcast address.
    pub bad_arp: u64,
    /// ARP packets of another host that claims this host's address.
    pub conflicts: u64,
    /// ARP replies dropped because their queue was full.
    pub replies_dropped: u64,
    /// Packets without a route.
    pub no_route: u64,
    /// Packets that waited for a hardware address and were dropped for another packet.
    pub held_dropped: u64,
    /// Packets that waited for a hardware address and got no reply.
    pub unresolved: u64,
    /// Packets that are longer than a frame can carry.
    pub too_long: u64,
    /// Echo requests that got a reply.
    pub echoes: u64,
    /// Datagrams for which "port unreachable" or "protocol unreachable" was sent to the sender.
    pub unreachable: u64,
    /// Datagrams for which no error was sent, because the limit for this tick was reached.
    pub limited: u64,
    /// ICMP replies dropped because their place was taken.
    pub icmp_dropped: u64,
    /// Unfinished datagrams for which "time exceeded" was sent to the sender.
    pub expired: u64,
}
