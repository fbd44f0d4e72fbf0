//! How many clusters a user's bytes go into.
use params::{MCLBYTES, MINCLSIZE};

/// Returns their number for `len` bytes.
pub fn clusters_for(len: u32) -> u32 {
    if len >= MINCLSIZE {
        len.div_ceil(MCLBYTES)
    } else {
        0
    }
}
