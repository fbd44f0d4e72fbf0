//! A spare stack, and buffers for the requests of hosts' lines and their replies.
ghost use Rattle.std.specs.Prelude.{◌≡◌, vec_len};
ghost use Rattle.params.specs.declared.TheConstants.{IP_MAX_PACKET};

use flat_model::Config;
use net_stack::Stack;
use play_packet::PACKET;
use play_script::{DEFAULTS, DROPS, zero_bytes};
use script_loop::Buffer;
use std::alloc::Global;

/// The spare stack's configuration.
const SPARE: Config = Config {
    mbufs: 1,
    clusters: 0,
    ..DEFAULTS
};

/// The stack and the buffer for finding out why a host dropped packets.
pub(crate) struct Counting {
    /// A stack that the host has instead of its own while its counters are read, or a line of it is executed.
    pub(crate) stack: Stack,
    /// A buffer for why packets were dropped.
    pub(crate) drops: Buffer<DROPS>,
}

impl Counting {
    /// Boots the stack. `None` if the host refuses memory.
    fn new(alloc: Global) -> Option<Counting> {
        let Ok(drops) = Buffer::new(alloc) else {
            return None;
        };
        match Stack::boot(alloc, SPARE) {
            Ok(stack) => Some(Counting { stack, drops }),
            Err(_) => None,
        }
    }

    /// Frees it.
    fn end(self) {
        let Counting {
            stack,
            drops: _drops,
        } = self;
        let _ = stack.end();
    }
}

/// The stack and the buffers for executing a line of a host.
pub(crate) struct Spare {
    pub(crate) counting: Counting,
    /// A buffer for the bytes that a line names.
    pub(crate) bytes: Vec<u8>,
    /// A buffer for the bytes of a reply.
    pub(crate) buffer: Vec<u8>,
    ghost bytes_len: { vec_len bytes ≡ IP_MAX_PACKET },
    ghost buffer_len: { vec_len buffer ≡ IP_MAX_PACKET },
}

impl Spare {
    /// Boots it. `None` if the host refuses memory.
    pub(crate) fn new(alloc: Global) -> Option<Spare> {
        let Ok(bytes) = zero_bytes(alloc, PACKET) else {
            return None;
        };
        let Ok(buffer) = zero_bytes(alloc, PACKET) else {
            return None;
        };
        let counting = Counting::new(alloc)?;
        Some(Spare {
            counting,
            bytes,
            buffer,
        })
    }

    /// Frees it.
    pub(crate) fn end(self) {
        let Spare {
            counting,
            bytes: _bytes,
            buffer: _buffer,
        } = self;
        counting.end();
    }
}
