//! The quick ways that a small build leaves out. Each function chooses between two ways to do the same. In a library
//! for small flash, `portable/core` replaces its result by `false`. No clause says what it returns, so what is proved
//! holds for both.
#![tactic(auto)]

/// Whether a packet from the wire is read before it's stored. Otherwise it's stored first, and read from its chain.
#[inline(always)]
pub fn reads_in_place() -> bool {
    true
}

/// Whether arrays find a socket. Otherwise the sockets are walked, the youngest first.
#[inline(always)]
pub fn indexes_sockets() -> bool {
    true
}

/// Whether a hash finds an unfinished datagram. Otherwise they are walked, the oldest first.
#[inline(always)]
pub fn indexes_fragments() -> bool {
    true
}

/// Whether a fragment that goes after the others is put there at once. Otherwise its place is found by a walk.
#[inline(always)]
pub fn appends_fragments() -> bool {
    true
}

/// Whether the case that all bytes are in one buffer, or fit into one, is tried first. Otherwise buffers are walked,
/// one by one.
#[inline(always)]
pub fn tries_one_buffer() -> bool {
    true
}
