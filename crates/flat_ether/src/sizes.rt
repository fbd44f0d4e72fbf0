//! Sizes, limits and well-known numbers of an Ethernet. They are here and not in `params`, because no crate below the
//! link reads them. A tick is half a second. A time that must not be shorter has one tick more, because the first tick
//! may follow at once.
ghost use Rattle.std.specs.Prelude.{◌≡◌, ◌+◌, ◌*◌};

/// Bytes of an Ethernet header: destination, source and type (volume 2, chapter 4, `ether_header`).
pub const ETHER_HEADER: u32 = 14;
/// The most bytes after the header of a frame, `ETHERMTU` (RFC 894, "Frame Format").
pub const ETHER_MTU: u32 = 1_500;
/// The type of a frame with an IPv4 packet (RFC 894, "Frame Format").
pub const ETHER_TYPE_IP: u16 = 0x0800;
/// The type of a frame with an ARP packet, `ETHERTYPE_ARP` (RFC 1700, "Ether Types").
pub const ETHER_TYPE_ARP: u16 = 0x0806;
/// Bytes of an ARP packet for Ethernet and IPv4 (RFC 826, "Packet format").
pub const ARP_BYTES: u32 = 28;
/// The operation of an ARP request (RFC 826, "Definitions").
pub const ARP_REQUEST: u16 = 1;
/// The operation of an ARP reply (RFC 826, "Definitions").
pub const ARP_REPLY: u16 = 2;
/// How many neighbours the table has at most (this project's own).
pub const NEIGHBOURS: usize = 32;
/// For how many ticks a hardware address is kept after it was received, 20 minutes: `arpt_keep` (volume 2, chapter 21).
pub const ARP_KEEP_TICKS: u16 = 2_400;
/// At least this many ticks are between two requests for one address, more than a second (RFC 1122, section 2.3.2.1).
pub const ARP_RETRY_TICKS: u16 = 3;
/// After this many requests without a reply an address is given up, `arp_maxtries` (volume 2, chapter 21).
pub const ARP_TRIES: u8 = 5;
/// How many requests are sent to a known neighbour before its entry expires, `ARP_RETRY_TICKS` apart: the unicast polls
/// of RFC 1122, section 2.3.2.1, typically two.
pub const ARP_POLLS: u8 = 2;
/// How many probes a host sends if it checks that its address is free, `PROBE_NUM` (RFC 5227, section 1.1).
pub const ARP_PROBES: u8 = 3;
/// How many ticks are between two probes, at least a second: `PROBE_MIN` (RFC 5227, section 1.1).
pub const PROBE_TICKS: u8 = 3;
/// How often a host announces its address after boot, `ANNOUNCE_NUM` (RFC 5227, section 1.1).
pub const ANNOUNCEMENTS: u8 = 2;
/// How many ticks are between the last probe and the first announcement, and between two announcements, at least two
/// seconds: `ANNOUNCE_WAIT` and `ANNOUNCE_INTERVAL` (RFC 5227, section 1.1).
pub const ANNOUNCE_TICKS: u8 = 5;
/// How many ticks are between two defences of the address, at least ten seconds: `DEFEND_INTERVAL` (RFC 5227, section
/// 1.1).
pub const DEFEND_TICKS: u8 = 21;
/// How many ICMP errors are sent at most between two ticks (this project's own; RFC 1812, section 4.3.2.8, demands such
/// a limit).
pub const ERRORS_A_TICK: u8 = 10;
/// How many packets are held for addresses that aren't known yet (this project's own).
pub const HELD_PACKETS: usize = 8;
/// How many first fragments are kept for errors (this project's own).
pub const FIRST_FRAGMENTS: usize = 2;
/// How many of the datagrams that expire in one tick get an error at most: the oldest ones (this project's own).
pub const EXPIRED_DATAGRAMS: usize = 8;
/// How many ARP replies may wait for the link (this project's own).
pub const PENDING_REPLIES: usize = 8;
/// The protocol number of ICMP, `IPPROTO_ICMP` (RFC 792, "Message Formats").
pub const PROTOCOL_ICMP: u8 = 1;
/// Bytes of an ICMP header: type, code, checksum and four bytes more (RFC 792, each message).
pub const ICMP_HEADER: u32 = 8;
/// The type of an echo reply (RFC 792, "Echo or Echo Reply Message").
pub const ECHO_REPLY: u8 = 0;
/// The type of an echo request (RFC 792, "Echo or Echo Reply Message").
pub const ECHO_REQUEST: u8 = 8;
/// The type "destination unreachable" (RFC 792, "Destination Unreachable Message").
pub const UNREACHABLE: u8 = 3;
/// Its code "protocol unreachable" (RFC 792, "Destination Unreachable Message").
pub const UNREACHABLE_PROTOCOL: u8 = 2;
/// Its code "port unreachable" (RFC 792, "Destination Unreachable Message").
pub const UNREACHABLE_PORT: u8 = 3;
/// Its code "fragmentation needed" (RFC 792, "Destination Unreachable Message").
pub const FRAGMENT_NEEDED: u8 = 4;
/// The type "time exceeded" (RFC 792, "Time Exceeded Message").
pub const TIME_EXCEEDED: u8 = 11;
/// Its code "fragment reassembly time exceeded" (RFC 792, "Time Exceeded Message").
pub const REASSEMBLY_EXCEEDED: u8 = 1;
/// The most bytes that an error quotes of a packet: a header of 15 words, and 8 bytes (RFC 792, "Destination
/// Unreachable Message").
pub const QUOTE: usize = 68;
/// Bytes of an ICMP error with the header and the ports of a datagram: 8, 20 and 8 (RFC 792, "Destination Unreachable
/// Message").
pub const ICMP_ERROR: u32 = 36;
/// The option that ends the list of options (RFC 791, section 3.1, "Options").
pub const OPTION_END: u8 = 0;
/// The option that does nothing (RFC 791, section 3.1, "Options").
pub const OPTION_NONE: u8 = 1;
/// The option "record route" (RFC 791, section 3.1, "Options").
pub const OPTION_RECORD_ROUTE: u8 = 7;
/// The option "loose source and record route" (RFC 791, section 3.1, "Options").
pub const OPTION_LOOSE_ROUTE: u8 = 131;
/// The option "strict source and record route" (RFC 791, section 3.1, "Options").
pub const OPTION_STRICT_ROUTE: u8 = 137;
/// How many errors are kept until a call fetches them (this project's own).
pub const SOCKET_ERRORS: usize = 8;

/// Lists the constants of this file next to the values that their sources give: a time is two ticks for each second,
/// and one more if it must not be shorter. The function does nothing; its contract is the list.
pub const fn numbers()
    ensures frames { (ETHER_HEADER ≡ 6 + 6 + 2) × (ETHER_MTU ≡ 1500) × (ETHER_TYPE_IP ≡ 0x0800)
        × (ETHER_TYPE_ARP ≡ 0x0806) }
    ensures arp { (ARP_BYTES ≡ 28) × (ARP_REQUEST ≡ 1) × (ARP_REPLY ≡ 2) × (ARP_KEEP_TICKS ≡ 2 * (20 * 60))
        × (ARP_RETRY_TICKS ≡ 2 * 1 + 1) × (ARP_TRIES ≡ 5) × (ARP_POLLS ≡ 2) }
    ensures claims { (ARP_PROBES ≡ 3) × (PROBE_TICKS ≡ 2 * 1 + 1) × (ANNOUNCEMENTS ≡ 2)
        × (ANNOUNCE_TICKS ≡ 2 * 2 + 1) × (DEFEND_TICKS ≡ 2 * 10 + 1) }
    ensures icmp { (PROTOCOL_ICMP ≡ 1) × (ICMP_HEADER ≡ 8) × (ECHO_REPLY ≡ 0) × (ECHO_REQUEST ≡ 8)
        × (UNREACHABLE ≡ 3) × (UNREACHABLE_PROTOCOL ≡ 2) × (UNREACHABLE_PORT ≡ 3) × (FRAGMENT_NEEDED ≡ 4)
        × (TIME_EXCEEDED ≡ 11) × (REASSEMBLY_EXCEEDED ≡ 1) × (QUOTE ≡ 15 * 4 + 8) × (ICMP_ERROR ≡ 8 + 20 + 8) }
    ensures options { (OPTION_END ≡ 0) × (OPTION_NONE ≡ 1) × (OPTION_RECORD_ROUTE ≡ 7)
        × (OPTION_LOOSE_ROUTE ≡ 128 + 3) × (OPTION_STRICT_ROUTE ≡ 128 + 9) }
    ensures limits { (NEIGHBOURS ≡ 32) × (HELD_PACKETS ≡ 8) × (PENDING_REPLIES ≡ 8) × (FIRST_FRAGMENTS ≡ 2)
        × (EXPIRED_DATAGRAMS ≡ 8) × (SOCKET_ERRORS ≡ 8) × (ERRORS_A_TICK ≡ 10) }
{}
