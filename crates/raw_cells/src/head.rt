//! The contents of the first bytes of an mbuf.

/// The head of an mbuf, after `struct m_hdr` and `struct pkthdr` (TCP/IP Illustrated, volume 2, chapter 2). Links are
/// mbuf numbers instead of addresses. README.md gives the layout in bytes.
#[derive(Clone, Copy, Debug, PartialEq, Eq)]
pub struct Head {
    /// The next mbuf of the chain. A number is below 0xffff_ffff, which in memory encodes `None`.
    pub next: Option<u32>,
    /// The first mbuf of the next packet in a queue. A number is below 0xffff_ffff.
    pub next_packet: Option<u32>,
    /// The number of data bytes in the mbuf.
    pub len: u32,
    /// The offset of the data, in the mbuf or in its cluster.
    pub start: u32,
    /// The type of the mbuf's contents. This crate only stores the number.
    pub kind: u16,
    /// The packet header, in an mbuf that begins a packet. It takes the 8 bytes from offset 20.
    pub packet: Option<PacketHeader>,
    /// The cluster that holds the data, in an mbuf that refers to one. Its number takes the 4 bytes from offset 28.
    pub cluster: Option<u32>,
}

/// What the first mbuf of a packet records about the packet.
#[derive(Clone, Copy, Debug, PartialEq, Eq)]
pub struct PacketHeader {
    /// The number of bytes in the whole chain.
    pub len: u32,
    /// A number stored with the packet. This crate only stores it. 4.4BSD keeps the interface here on which the packet
    /// arrived.
    pub arrival: u32,
}

/// A change to some fields of a head. The other fields stay as they are.
#[derive(Clone, Copy, Debug, PartialEq, Eq)]
pub enum Change {
    /// A new link to the next mbuf of the chain. A number must be below 0xffff_ffff.
    Next(Option<u32>),
    /// A new link to the next packet of a queue. A number must be below 0xffff_ffff.
    NextPacket(Option<u32>),
    /// A new offset and a new length of the data.
    Data {
        /// The offset of the data, in the mbuf or in its cluster.
        start: u32,
        /// The number of data bytes in the mbuf.
        len: u32,
    },
    /// A new packet length, in a head that has a packet header.
    PacketLen(u32),
    /// A new number stored with the packet, in a head that has a packet header.
    Arrival(u32),
    /// No packet header. The 8 bytes of the packet header become part of the data area, with their contents unchanged.
    NoPacket,
}
