//! A machine's configuration, and its counters by name.
use flat_model::{Config, ConfigFault, Counter, Counters, Why};

/// The host 10.0.0.1 of the network 10.0.0.0/24.
const HOST: Config = Config {
    addr: 0x0a00_0001,
    bcast: 0x0a00_00ff,
    mtu: 1500,
    mbufs: 512,
    clusters: 64,
    first_id: 1,
};

/// Returns how often a wrong header checksum was counted after one such packet: 1.
pub fn wrong_checksums() -> Result<u64, ConfigFault> {
    HOST.check()?;
    let mut counters = Counters::none();
    counters.count_more(Counter::IpTotal, 1);
    counters.count_ended(Why::BadSum);
    Ok(counters.value(Counter::IpBadsum))
}
