//! What can be wrong with the settings of a host.
ghost use Rattle.std.specs.Prelude.{◌≡◌, ◌≤◌, bytes_eq, codes, false, length};

/// Why no host on an Ethernet can have its settings: the first setting that is wrong. There is one text for each, in
/// every language.
#[derive(Clone, Copy, Debug, PartialEq, Eq)]
pub enum LinkFault {
    /// The MTU isn't 68 to 1,500.
    Mtu,
    /// The hardware address is that of a group.
    GroupMac,
    /// The hardware address is all zeros.
    NoMac,
    /// The address isn't in 1.0.0.0 to 223.255.255.255, or is in 127/8.
    Addr,
    /// The mask isn't ones followed by zeros, or has 31 or 32 ones. A network of two addresses has no broadcast address
    /// (RFC 3021), and the stack needs one.
    Mask,
    /// The mask has so few ones that the last address of its network is in 127/8 or above 223.255.255.255.
    WideMask,
    /// The address has the host number 0 or all ones (RFC 1122, section 3.2.1.3).
    HostNumber,
    /// The broadcast address isn't the last address of the network.
    Bcast,
    /// The gateway isn't the address of another host on the network.
    Gateway,
}

impl LinkFault {
    /// Returns the setting's name, and what it must be. It's never the text of a host that has no memory.
    pub fn text(self) -> &'static str
        ensures short { length result.now ≤ 80 }
        ensures other { bytes_eq result.now (codes "no memory") ≡ false }
    {
        match self {
            LinkFault::Mtu => "mtu must be 68 to 1500 on an Ethernet",
            LinkFault::GroupMac => "mac must not be a group address: its first byte is odd",
            LinkFault::NoMac => "mac must not be 0",
            LinkFault::Addr => "addr must be 1.0.0.0 to 223.255.255.255, and not in 127/8",
            LinkFault::Mask => "mask must be ones followed by zeros, at most 30 ones",
            LinkFault::WideMask =>
                "mask must have more ones: its network's last address is in 127/8 or above 223/8",
            LinkFault::HostNumber => "addr must not be the first or last address of mask's network",
            LinkFault::Bcast => "bcast must be the last address of mask's network",
            LinkFault::Gateway =>
                "gateway must be a neighbour: another host's address on mask's network",
        }
    }
}
