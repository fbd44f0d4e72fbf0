//! The memory for the work on one line.
ghost use Rattle.std.specs.Prelude.{◌≡◌, ◌*◌, vec_len, IfOk};
ghost use Rattle.params.specs.declared.TheConstants.{IP_MAX_PACKET};

use params::IP_MAX_PACKET;
use std::alloc::{AllocError, Global};

/// The most bytes that a line can contain as data: those of the longest packet.
const MOST_BYTES: usize = IP_MAX_PACKET as usize;

/// Memory for the work on one line, allocated once for all lines.
#[derive(Drop)]
pub struct LineBuffers {
    /// 65,535 bytes: the data of a line, or the data copied out for its reply.
    pub bytes: Vec<u8>,
    /// Space for their digits, two for each byte.
    pub digits: Vec<u8>,
    ghost bytes_len: { vec_len bytes ≡ IP_MAX_PACKET },
    ghost digits_len: { vec_len digits ≡ 2 * IP_MAX_PACKET },
}

/// Allocates memory of this many bytes.
fn buffer(alloc: Global, len: usize) -> Result<Vec<u8>, AllocError>
    ensures { IfOk result (λ bytes. vec_len bytes ≡ len) }
{
    vec![in alloc; 0; len]
}

impl LineBuffers {
    /// Allocates all the memory. Returns `AllocError` only if the host refuses a part of it.
    pub fn new(alloc: Global) -> Result<LineBuffers, AllocError> {
        Ok(LineBuffers {
            bytes: buffer(alloc, MOST_BYTES)?,
            digits: buffer(alloc, 2 * MOST_BYTES)?,
        })
    }
}
