//! Why a line of many machines does nothing.
ghost use Rattle.std.specs.Prelude.{◌≡◌, ◌≤◌, length};
ghost use Rattle.play_wire.specs.Reports.{IsReason, is_lacking};

use net_stack::BootFault;
use play_script::SettingFault;
use segment::{JoinFault, LinkFault};

/// Why a line does nothing (this project's own).
#[derive(Clone, Copy)]
pub(crate) enum Fault {
    /// It has no request. Advice is printed instead.
    Nothing,
    /// No host has this name.
    NoHost,
    /// The word isn't a name.
    NoName,
    /// A host has this name.
    NameTaken,
    /// Its settings are invalid, for this reason.
    Setting(SettingFault),
    /// There are 64 hosts.
    TooManyHosts,
    /// Another host has one of these addresses.
    AddressTaken,
    /// There is no wire yet.
    NoWire,
    /// There is a wire already.
    Wired,
    /// The words aren't the names of all hosts, each once.
    NotAll,
    /// The word isn't a chance or a delay.
    NoChance,
    /// No packet in flight has this place, or there's no space for a copy.
    NoPacket,
    /// It names a capture.
    NoCapture,
    /// It has settings.
    NoSettings,
    /// A word after `ether` isn't one of a link.
    NoLinkWord,
    /// The word isn't a hardware address.
    BadMac,
    /// The word isn't a mask.
    BadMask,
    /// The word isn't an address.
    BadGateway,
    /// No host on an Ethernet can have these settings.
    Link(LinkFault),
    /// Another host has this hardware address.
    MacTaken,
    /// Some hosts are on an Ethernet, and this one isn't, or the other way round.
    OtherLink,
    /// It's a request to a link, and the host has none.
    NoLink,
    /// It brings or takes a packet without a frame, and the host is on an Ethernet.
    OnEthernet,
}

impl Fault {
    /// Returns the reason in words.
    pub(crate) fn words(self) -> &'static str
        ensures short { length result.now ≤ 80 }
        ensures reason { IsReason self result.now }
    {
        match self {
            Fault::Nothing => "",
            Fault::NoHost => "unknown host",
            Fault::NoName => "a name must be a letter, then letters, digits and _, at most 32",
            Fault::NameTaken => "another host has this name",
            Fault::Setting(fault) => fault.words(),
            Fault::TooManyHosts => "at most 64 hosts are possible",
            Fault::AddressTaken =>
                "--addr (default 10.0.0.1) must differ from each other host's --addr and --bcast",
            Fault::NoWire => "missing wire: join the hosts with `wire NAME ..`",
            Fault::Wired => "there is a wire already: define hosts before `wire`",
            Fault::NotAll => "`wire` must name each host once, after all `host` lines",
            Fault::NoChance => "expected a chance (10%, 0.1 or 1/10) or a delay (0-3)",
            Fault::NoPacket => "no packet is under way at this place",
            Fault::NoCapture => "`rx pcap` needs a script without hosts",
            Fault::NoSettings => "a host's settings must be in its `host` line",
            Fault::NoLinkWord => {
                "expected `mac M`, `mask M`, `gateway A` or `probe`, then settings"
            }
            Fault::BadMac => "`mac` must be a host's hardware address, such as 02:00:00:00:00:01",
            Fault::BadMask => "`mask` must be ones, then zeros, such as 255.255.255.0",
            Fault::BadGateway => "`gateway` must be an address, such as 10.0.0.254",
            Fault::Link(fault) => fault.text(),
            Fault::MacTaken => "another host has this hardware address",
            Fault::OtherLink => "all hosts must be on an Ethernet, or none",
            Fault::NoLink => "this needs a host on an Ethernet: `host NAME ether ..`",
            Fault::OnEthernet => "a host on an Ethernet needs frames: use `frame BYTES` or `carry`",
        }
    }

    /// Returns whether the host refused memory.
    pub(crate) fn is_lack(self) -> bool
        ensures { result ≡ is_lacking self }
    {
        match self {
            Fault::Setting(fault) => fault.is_lack(),
            _ => false,
        }
    }

    /// Returns the reason why a host can't join.
    pub(crate) fn of_join(fault: JoinFault) -> Fault {
        match fault {
            JoinFault::TooManyHosts => Fault::TooManyHosts,
            JoinFault::AddressTaken => Fault::AddressTaken,
            JoinFault::OtherLink => Fault::OtherLink,
            JoinFault::MacTaken => Fault::MacTaken,
            JoinFault::BadLink(fault) => Fault::Link(fault),
            JoinFault::Unbooted(BootFault::Memory) => Fault::Setting(SettingFault::Memory),
            JoinFault::Unbooted(BootFault::BadSizes) => Fault::Setting(SettingFault::BadSizes),
            JoinFault::Unbooted(BootFault::BadConfig) => Fault::Setting(SettingFault::BadConfig),
        }
    }
}
