//! Errors in settings.
ghost use Rattle.std.specs.Prelude.{◌≡◌, ◌≤◌, bytes_eq, codes, length};
ghost use Rattle.play_script.specs.Settings.{fault_words, is_lack};

/// The first error in the settings of a line (this project's own).
#[derive(Clone, Copy, Debug, PartialEq, Eq)]
pub enum SettingFault {
    /// The settings come after a line that requests something.
    Late,
    /// A word isn't the name of a setting.
    Unknown,
    /// The last name has no value.
    NoValue,
    /// The value isn't an address.
    NotAddress,
    /// The value isn't a number, or it is above 65,535 for `--mtu` and `--id`, or above 4,294,967,295 for the others.
    NotNumber,
    /// The line sets an address, but no broadcast address, and the two differ in their first three octets.
    OtherNetwork,
    /// No pool has these numbers of mbufs or clusters.
    BadSizes,
    /// Another value that no host can have.
    BadConfig,
    /// The host refuses memory for this configuration.
    Memory,
}

impl SettingFault {
    /// Returns the error message, at most 80 bytes.
    pub fn words(self) -> &'static str
        ensures is { result.now ≡ fault_words self }
        ensures lack { bytes_eq result.now (codes "no memory") ≡ is_lack self }
        ensures short { length result.now ≤ 80 }
    {
        match self {
            SettingFault::Late => "settings must come before all other lines",
            SettingFault::Unknown => "unknown setting",
            SettingFault::NoValue => "missing value",
            SettingFault::NotAddress => "expected an address, such as 10.0.0.2",
            SettingFault::NotNumber => "expected a number, at most 65535 for --mtu and --id",
            SettingFault::OtherNetwork =>
                "--addr must be in the network of --bcast: set --bcast too",
            SettingFault::BadSizes => "--mbufs must be 1 to 65535, --clusters 0 to 4096",
            SettingFault::BadConfig =>
                "--mtu must be 68 to 4352, --addr a host's address, --bcast another address",
            SettingFault::Memory => "no memory",
        }
    }

    /// Returns whether the host refused memory.
    pub fn is_lack(self) -> bool
        ensures { result ≡ is_lack self }
    {
        matches!(self, SettingFault::Memory)
    }
}
