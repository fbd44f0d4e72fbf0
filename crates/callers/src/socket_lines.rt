//! A script of socket calls.
use flat_model::Config;
use link_script::run;
use script_loop::RunFault;
use std::alloc::Global;

/// The host 10.0.0.1 of the network 10.0.0.0/24.
const HOST: Config = Config {
    addr: 0x0a00_0001,
    bcast: 0x0a00_00ff,
    mtu: 1500,
    mbufs: 512,
    clusters: 64,
    first_id: 1,
};

/// Returns the output for two lines: `ok 3` and `ok`.
pub fn answered(alloc: Global) -> Result<Vec<u8>, RunFault> {
    let mut reader = b"socket\nbind 3 0.0.0.0 7\n".as_slice();
    let mut written = Vec::new(alloc);
    run(alloc, HOST, &mut reader, &mut written)?;
    Ok(written)
}
