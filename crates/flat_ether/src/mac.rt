//! Hardware addresses.
ghost use Rattle.std.specs.Prelude.{◌≡◌};
ghost use Rattle.flat_ether.specs.Frames.{is_host_mac, same_mac};

/// An Ethernet address of 48 bits: `aa:bb:cc:dd:ee:ff` is 0xaabb and 0xccddeeff.
#[derive(Clone, Copy, Debug, Default, PartialEq, Eq)]
pub struct Mac {
    /// Its first two bytes, as a number.
    pub high: u16,
    /// Its last four bytes, as a number.
    pub low: u32,
}

/// ff:ff:ff:ff:ff:ff, the broadcast address.
pub const ETHER_BROADCAST: Mac = Mac {
    high: 0xffff,
    low: 0xffff_ffff,
};

/// 00:00:00:00:00:00, which a request has instead of the hardware address that it looks for.
pub const NO_MAC: Mac = Mac { high: 0, low: 0 };

impl Mac {
    /// Whether it's the same address.
    pub fn is(self, other: Mac) -> bool
        ensures { result ≡ same_mac self other }
    {
        self.high == other.high && self.low == other.low
    }

    /// Whether it can be the address of one host: it isn't a group's, as the broadcast address is, and not all zeros.
    pub fn is_host(self) -> bool
        ensures { result ≡ is_host_mac self }
    {
        self.high / 256 % 2 == 0 && !self.is(NO_MAC)
    }
}
