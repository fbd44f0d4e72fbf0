//! Memory for judging records.
ghost use Rattle.std.specs.Prelude.{◌≡◌, vec_len};
ghost use Rattle.params.specs.declared.TheConstants.{IP_MAX_PACKET};

use crate::object::Strings;
use crate::sums::COVERED;
use params::IP_MAX_PACKET;
use script_loop::Buffer;
use std::alloc::{AllocError, Global};

/// Memory for judging records.
#[derive(Drop)]
pub(crate) struct Scratch {
    /// For the bytes of a datagram that is read.
    pub(crate) packet: Vec<u8>,
    /// For what a checksum covers.
    pub(crate) covered: Buffer<COVERED>,
    /// For the strings of an object.
    pub(crate) strings: Strings,
    ghost packet_len: { vec_len packet ≡ IP_MAX_PACKET },
}

impl Scratch {
    /// All of it. Fails if the host has no memory.
    pub(crate) fn new(alloc: Global) -> Result<Scratch, AllocError> {
        Ok(Scratch {
            packet: vec![in alloc; 0; IP_MAX_PACKET as usize]?,
            covered: Buffer::new(alloc)?,
            strings: Strings::new(alloc)?,
        })
    }
}
