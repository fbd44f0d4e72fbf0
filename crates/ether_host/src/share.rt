//! How a message is fragmented for the link.
ghost use Rattle.std.specs.Prelude.{◌≡◌, ◌*◌, ◌<◌, ◌≤◌};
ghost use Rattle.flat_ether.specs.declared.sizes.TheConstants.{ETHER_MTU};
ghost use Rattle.flat_model.specs.Fragments.Cuts.{part};
ghost use Rattle.ether_host.specs.Replies.{part_seen};

/// The part of a message that one packet carries: its first byte, its length, and whether another part follows.
#[derive(Clone, Copy)]
pub(crate) struct Share {
    pub(crate) offset: usize,
    pub(crate) size: usize,
    pub(crate) more: bool,
}

/// The share at a place, of a message of `len` bytes that is cut into chunks.
pub(crate) fn share_at(len: usize, chunk: usize, at: usize) -> Share
    requires inside { at * chunk < len }
    requires len { len ≤ ETHER_MTU }
    requires chunk { chunk ≤ 65535 }
    ensures { part_seen result ≡ part len chunk at }
{
    let offset = at * chunk;
    let end = offset + chunk;
    let size = chunk.min(len - offset);
    Share {
        offset,
        size,
        more: end < len,
    }
}
