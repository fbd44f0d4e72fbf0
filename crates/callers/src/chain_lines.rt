//! A script of calls on chains.
use chain_script::run_chains;
use mbuf_pool::Sizes;
use script_loop::RunFault;
use std::alloc::Global;

/// Returns the output for two lines: `ok` and `len 2 P2`.
pub fn shown(alloc: Global) -> Result<Vec<u8>, RunFault> {
    let sizes = Sizes {
        mbufs: 512,
        clusters: 64,
    };
    let mut reader = b"user 0 6869\nshow 0\n".as_slice();
    let mut written = Vec::new(alloc);
    run_chains(alloc, sizes, &mut reader, &mut written)?;
    Ok(written)
}
