//! The sizes, limits and well-known addresses of the stack. They have the names that the book and the RFCs use, if
//! there is one. The code and the definitions above this crate use these names. Values that follow from others are
//! computed from them.
//!
//! "Volume 2" is TCP/IP Illustrated, volume 2. "This project's own" marks a value that this project chose and no source
//! gives.
#![tactic(auto)]

ghost use Rattle.std.specs.Prelude.{◌≡◌, ◌+◌, ◌-◌, ◌*◌, ◌^◌};

mod ways;

pub use ways::{
    appends_fragments, indexes_fragments, indexes_sockets, reads_in_place, tries_one_buffer,
};

/// The size of an mbuf in bytes, including its header (volume 2, chapter 2).
pub const MSIZE: u32 = 128;
/// The size of an mbuf's header in bytes, `m_hdr` (volume 2, chapter 2).
pub const MBUF_HEADER: u32 = 20;
/// The size in bytes of a packet header in the first mbuf of a chain, `pkthdr` (volume 2, chapter 2).
pub const PACKET_HEADER: u32 = 8;
/// The data bytes of a plain mbuf without a packet header: 108.
pub const MLEN: u32 = MSIZE - MBUF_HEADER;
/// The data bytes of a plain mbuf with a packet header: 100. This is also the most that one pull-up or one prepend can
/// handle.
pub const MHLEN: u32 = MLEN - PACKET_HEADER;
/// The number of bytes from which a cluster is used: 208 (volume 2, chapter 2).
pub const MINCLSIZE: u32 = MHLEN + MLEN;
/// The size of a cluster in bytes (volume 2, chapter 2).
pub const MCLBYTES: u32 = 2048;
/// Free bytes before the data that a send stores in its first cluster, so that headers can be prepended (this project's
/// own).
pub const CLUSTER_LEADING_SPACE: u32 = 56;
/// The offset at which the data of a plain mbuf with a packet header begins, if it has no leading space: 28.
pub const PACKET_START: u32 = MBUF_HEADER + PACKET_HEADER;
/// The bytes that a pull-up moves into a new first mbuf, if the chain has that many: `max_protohdr` (volume 2, chapter
/// 2).
pub const MAX_PROTOCOL_HEADER: u32 = 40;
/// The most mbufs that a pool can have (this project's own).
pub const MAX_MBUFS: u32 = 65_535;
/// The most clusters that a pool can have (this project's own).
pub const MAX_CLUSTERS: u32 = 4_096;

/// The size of an IPv4 header without options, in bytes (RFC 791, section 3.1).
pub const IP_HEADER: u32 = 20;
/// The size of a UDP header in bytes (RFC 768).
pub const UDP_HEADER: u32 = 8;
/// The size of both headers: 28 bytes.
pub const IP_UDP_HEADERS: u32 = IP_HEADER + UDP_HEADER;
/// The longest IP packet: 65,535 bytes (RFC 791, section 3.1).
pub const IP_MAX_PACKET: u32 = 65_535;
/// The most bytes after the header of an IP packet: 65,515.
pub const IP_MAX_DATA: u32 = IP_MAX_PACKET - IP_HEADER;
/// The most bytes of a UDP datagram after its header: 65,507.
pub const UDP_MAX_DATA: u32 = IP_MAX_DATA - UDP_HEADER;
/// The time to live of packets that the stack sends, `IPDEFTTL` (volume 2, chapter 8; RFC 1340).
pub const IP_DEFAULT_TTL: u8 = 64;
/// The protocol number of UDP, `IPPROTO_UDP` (RFC 768; RFC 790).
pub const PROTOCOL_UDP: u8 = 17;
/// The unit of fragment offsets in bytes. Every fragment except the last carries a multiple of it (RFC 791, section 3.1
/// "Fragment Offset").
pub const FRAGMENT_UNIT: u32 = 8;
/// The number of ticks after which an unfinished datagram is dropped, `IPFRAGTTL` (volume 2, chapter 10).
pub const FRAGMENT_TICKS: u32 = 60;

/// The address of the loopback interface: 127.0.0.1 (RFC 1122, section 3.2.1.3).
pub const LOOPBACK: u32 = 0x7f00_0001;
/// The limited broadcast address: 255.255.255.255 (RFC 919, section 7).
pub const LIMITED_BROADCAST: u32 = 0xffff_ffff;
/// The first address above the host addresses: 224.0.0.0 (RFC 1112, section 4).
pub const FIRST_MULTICAST: u32 = 0xe000_0000;

/// The MTU of the loopback interface, `LOMTU` (volume 2, chapter 5).
pub const LOOPBACK_MTU: u16 = 1536;
/// The smallest MTU of a link (RFC 791, section 3.2 "Fragmentation").
pub const MIN_MTU: u16 = 68;
/// The largest MTU of a link, which is FDDI's (RFC 1191, section 7.1).
pub const MAX_MTU: u16 = 4352;
/// The most packets in the output queue, `ifqmaxlen` (volume 2, chapter 3).
pub const OUTPUT_QUEUE_PACKETS: u32 = 50;

/// The first ephemeral port, `IPPORT_RESERVED` (volume 2, chapter 22).
pub const FIRST_EPHEMERAL_PORT: u16 = 1024;
/// The last ephemeral port, `IPPORT_USERRESERVED` (volume 2, chapter 22).
pub const LAST_EPHEMERAL_PORT: u16 = 5000;

/// The most sockets that can be open (this project's own).
pub const MAX_SOCKETS: u32 = 64;
/// The first descriptor of a socket. 0, 1 and 2 are a process's standard streams.
pub const FIRST_DESCRIPTOR: u32 = 3;
/// The most bytes that one send accepts, `udp_sendspace` (volume 2, chapter 23).
pub const UDP_SEND_SPACE: u32 = 9_216;
/// The size of a receive queue in bytes, including 16 for each sender's address: `udp_recvspace`, 40 datagrams of 1,024
/// bytes with their addresses (volume 2, chapter 23).
pub const UDP_RECEIVE_SPACE: u32 = 40 * (1024 + SOCKADDR_BYTES);
/// The most memory in bytes that the datagrams of a receive queue can occupy, `sb_mbmax`: twice the queue's size
/// (volume 2, chapter 16).
pub const UDP_RECEIVE_MEMORY: u32 = 2 * UDP_RECEIVE_SPACE;
/// The largest size of a receive queue that a program can choose, in bytes. It has room for the longest datagram.
/// 4.4BSD's own is 246,723 (`sbreserve` of volume 2, chapter 16); two bytes are this project's own.
pub const MOST_RECEIVE_SPACE: u32 = 65_535;
/// The size in bytes of a sender's address in a receive queue, a `sockaddr_in` (volume 2, chapter 6).
pub const SOCKADDR_BYTES: u32 = 16;

/// The most bytes in a script line that holds a request: two digits for each byte of the longest packet, plus the
/// line's other words (this project's own).
pub const LONGEST_REQUEST: u32 = 131_200;

/// Lists the constants of this crate next to the values that their sources give. The function does nothing; its
/// contract is the list.
pub const fn numbers()
    ensures mbufs { (MSIZE ≡ 128) × (MBUF_HEADER ≡ 20) × (PACKET_HEADER ≡ 8) × (MLEN ≡ 108) × (MHLEN ≡ 100)
        × (MINCLSIZE ≡ 208) × (PACKET_START ≡ 28) × (MAX_PROTOCOL_HEADER ≡ 40) }
    ensures clusters { (MCLBYTES ≡ 2048) × (CLUSTER_LEADING_SPACE ≡ 56) }
    ensures pool { (MAX_MBUFS ≡ 65535) × (MAX_CLUSTERS ≡ 4096) }
    ensures packets { (IP_HEADER ≡ 20) × (UDP_HEADER ≡ 8) × (IP_UDP_HEADERS ≡ 28)
        × (IP_MAX_PACKET ≡ 65535) × (IP_MAX_DATA ≡ 65515) × (UDP_MAX_DATA ≡ 65507) × (IP_DEFAULT_TTL ≡ 64)
        × (PROTOCOL_UDP ≡ 17) }
    ensures fragments { (FRAGMENT_UNIT ≡ 8) × (FRAGMENT_TICKS ≡ 60) }
    ensures addresses { (LOOPBACK ≡ 127 * 2 ^ 24 + 1) × (LIMITED_BROADCAST ≡ 2 ^ 32 - 1)
        × (FIRST_MULTICAST ≡ 224 * 2 ^ 24) }
    ensures links { (LOOPBACK_MTU ≡ 1536) × (MIN_MTU ≡ 68) × (MAX_MTU ≡ 4352) × (OUTPUT_QUEUE_PACKETS ≡ 50) }
    ensures ports { (FIRST_EPHEMERAL_PORT ≡ 1024) × (LAST_EPHEMERAL_PORT ≡ 5000) }
    ensures sockets { (MAX_SOCKETS ≡ 64) × (FIRST_DESCRIPTOR ≡ 3) × (UDP_SEND_SPACE ≡ 9216)
        × (UDP_RECEIVE_SPACE ≡ 41600) × (UDP_RECEIVE_MEMORY ≡ 83200) × (SOCKADDR_BYTES ≡ 16) }
    ensures most { MOST_RECEIVE_SPACE ≡ 2 ^ 16 - 1 }
    ensures scripts { LONGEST_REQUEST ≡ 131200 }
{}
