//! A packet in a buffer of its own.
ghost use Rattle.std.specs.Prelude.{◌≡◌, ◌+◌, ◌<◌, ◌≤◌, length, remove, take, vec_capacity, vec_len};
ghost use Rattle.flat_ether.specs.declared.sizes.TheConstants.{ETHER_MTU};

use crate::bytes::put_bytes;
use flat_ether::ETHER_MTU;

/// The size of the buffer for an Ethernet packet.
pub(crate) const ROOM: usize = ETHER_MTU as usize;

/// A packet, and the next hop for whose hardware address it waits.
#[derive(Clone, Copy)]
pub(crate) struct PacketBuffer {
    pub(crate) hop: u32,
    pub(crate) len: u16,
    pub(crate) buffer: [u8; ROOM],
    ghost within: { len ≤ ETHER_MTU },
}

impl PacketBuffer {
    ghost use Rattle.ether_host.specs.Buffers.{held_in};

    /// A buffer without bytes.
    pub(crate) fn blank() -> PacketBuffer
        ensures { result.len ≡ 0 }
    {
        PacketBuffer {
            hop: 0,
            len: 0,
            buffer: [0; ROOM],
        }
    }

    /// Copies a packet, and its next hop, into the buffer.
    #[tactic(auto, using(crate::proofs::Rooms::written_front))]
    pub(crate) fn fill(&mut self, hop: u32, packet: &[u8])
        requires { length packet.now ≤ ETHER_MTU }
        ensures { held_in self.new ≡ record { hop = hop; packet = packet.now } }
    {
        self.hop = hop;
        self.len = packet.len() as u16;
        put_bytes(&mut self.buffer, 0, packet);
    }

    /// Its bytes.
    pub(crate) fn bytes(&self) -> &[u8]
        ensures is { result.now ≡ take self.now.len self.now.buffer }
        ensures long { length result.now ≡ self.now.len }
        ensures most { length result.now ≤ ETHER_MTU }
    {
        &self.buffer[..self.len as usize]
    }
}

/// Removes the packet at a place. Those after it move down one by one: `Vec::remove` would copy a packet of 1.5 KB to
/// the call stack.
pub(crate) fn drop_at(held: &mut Vec<PacketBuffer>, at: usize)
    requires { at < length held.old.items }
    ensures items { held.new.items ≡ remove held.old.items at }
    ensures len { vec_len held.new + 1 ≡ vec_len held.old }
    ensures capacity { vec_capacity held.new ≡ vec_capacity held.old }
{
    held.copy_within(at + 1.., at);
    held.truncate(held.len() - 1);
}
