//! The link types that the reader knows.
ghost use Rattle.std.specs.Prelude.{◌≡◌};
ghost use Rattle.capture.specs.Types.{link_number, link_type_of};

/// What the bytes of a record contain (tcpdump.org/linktypes.html).
#[derive(Clone, Copy, Debug, PartialEq, Eq)]
pub enum LinkType {
    /// 0: four bytes of protocol family in the byte order of some host, then the packet.
    Null,
    /// 1: an Ethernet frame, without preamble.
    Ethernet,
    /// 9: a PPP frame, with or without its address and control bytes, which are ff 03.
    Ppp,
    /// 12, 14 and 101: an IPv4 or IPv6 packet, by its version.
    Raw,
    /// 108: four bytes of protocol family, the high byte first, then the packet.
    Loop,
    /// 113: Linux "cooked", 16 bytes of header, then the packet.
    LinuxCooked,
    /// 228: an IPv4 packet.
    Ipv4,
    /// 276: Linux "cooked", version 2, 20 bytes of header, then the packet.
    LinuxCooked2,
}

impl LinkType {
    /// Returns the link type with a number, or `None` if the reader doesn't know it.
    #[tactic(auto, unfolding(crate::specs::Types::link_type_of))]
    pub fn of(number: u16) -> Option<LinkType>
        ensures { result ≡ link_type_of number }
    {
        match number {
            0 => Some(LinkType::Null),
            1 => Some(LinkType::Ethernet),
            9 => Some(LinkType::Ppp),
            12 | 14 | 101 => Some(LinkType::Raw),
            108 => Some(LinkType::Loop),
            113 => Some(LinkType::LinuxCooked),
            228 => Some(LinkType::Ipv4),
            276 => Some(LinkType::LinuxCooked2),
            _ => None,
        }
    }

    /// Returns the number of the link type; 101 for `Raw`.
    pub fn number(self) -> u16
        ensures { result ≡ link_number self }
    {
        match self {
            LinkType::Null => 0,
            LinkType::Ethernet => 1,
            LinkType::Ppp => 9,
            LinkType::Raw => 101,
            LinkType::Loop => 108,
            LinkType::LinuxCooked => 113,
            LinkType::Ipv4 => 228,
            LinkType::LinuxCooked2 => 276,
        }
    }
}
