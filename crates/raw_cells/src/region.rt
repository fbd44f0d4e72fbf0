//! The region: mbufs, and clusters after them, in one block.
ghost use Rattle.std.specs.Prelude.{◌≡◌, ◌+◌, ◌<◌, ◌≤◌, IfOk, length, take};
ghost use Rattle.std.specs.Borrow.{sem};
ghost use Rattle.raw_cells.specs.Cells.{zero_cells, cell_head, changed, IsChange, IsHead, IsCellPart, IsSized, SetsCellHead, head_size, read, cells_written, place};

use crate::block::Block;
use crate::head::{Change, Head};
use crate::layout::{clear_packet, encode, head_len, link_number, put_data, put_u32, read_head};
use crate::part::{Buffer, Part};
use params::{MAX_CLUSTERS, MAX_MBUFS, MBUF_HEADER, MCLBYTES, MSIZE, PACKET_START};
use std::alloc::{AllocError, Global};
use std::marker::Model;

/// The size of an mbuf in bytes.
const MBUF_LEN: usize = MSIZE as usize;

/// The size of a cluster in bytes.
const CLUSTER_LEN: usize = MCLBYTES as usize;

/// Copies the bytes of a head that belong to it.
// Each length is a constant, so the compiler makes a few stores of each copy instead of a call.
#[inline(always)]
fn copy_head(buffer: &mut [u8], bytes: &[u8; 32], head: &Head)
    requires sized { length buffer.old ≡ head_size head.now }
    ensures { buffer.new ≡ take (head_size head.now) bytes.now }
{
    if head.cluster.is_some() {
        buffer.copy_from_slice(bytes);
    } else if head.packet.is_some() {
        buffer.copy_from_slice(&bytes[..PACKET_START as usize]);
    } else {
        buffer.copy_from_slice(&bytes[..MBUF_HEADER as usize]);
    }
}

/// One block of memory, cut into mbufs and, after them, clusters. It is freed with its owner.
///
/// Contracts see it as `Cells`: the head of each mbuf, all bytes of the block, and the number of clusters.
#[derive(Drop)]
pub struct Region {
    block: Block,
    mbufs: u32,
    clusters: u32,
}

impl Model for Region {
    ghost use Rattle.raw_cells.specs.Cells.{Cells};

    ghost Value = { Cells };

    ghost use Rattle.raw_cells.specs.Inside.Layout.{cells_of, IsRegion};

    ghost view = { cells_of };

    ghost invariant = { IsRegion };
}

impl Region {
    ghost use Rattle.raw_cells.specs.Lending.{LendsCellPart};

    /// Allocates a region of `mbufs` mbufs, 1 to 65,535, and `clusters` clusters, at most 4,096. Every byte is 0, so
    /// each head also reads as zeros, without a packet header or a cluster. This is the only allocation. Returns
    /// `AllocError` if it fails.
    pub fn new(alloc: Global, mbufs: u32, clusters: u32) -> Result<Region, AllocError>
        requires mbufs { (0 < mbufs) × (mbufs ≤ MAX_MBUFS) }
        requires clusters { clusters ≤ MAX_CLUSTERS }
        ensures { IfOk result (λ r. r ≡ zero_cells mbufs clusters) }
    {
        let block = Block::new(
            alloc,
            MBUF_LEN * mbufs as usize + CLUSTER_LEN * clusters as usize,
        )?;
        Ok(Region {
            block,
            mbufs,
            clusters,
        })
    }

    /// Returns the head of mbuf `index`, which must be one of the region's. Its links are below 0xffff_ffff.
    // Inlined, so that a caller reads only the fields that it uses.
    #[inline(always)]
    pub fn head(&self, index: u32) -> Head
        requires { index < length self.now.heads }
        ensures value { result ≡ cell_head self.now index }
        ensures links { IsHead result }
        ensures sized { IsSized self.now }
    {
        let all = self.block.slice(0, self.block.len());
        read_head(all, MBUF_LEN * index as usize)
    }

    /// Sets the head of mbuf `index`, which must be one of the region's. The links of `head` must be below 0xffff_ffff.
    /// This writes the first 20 bytes of the mbuf, 28 if the head has a packet header, 32 if it has a cluster. All
    /// other bytes stay as they are.
    // Inlined, so that a head whose fields the caller knows takes only a few stores.
    #[inline(always)]
    pub fn set_head(&mut self, index: u32, head: Head)
        requires index { index < length self.old.heads }
        requires links { IsHead head }
        ensures change { SetsCellHead self.old self.new index head }
        ensures sized { IsSized self.new }
    {
        let bytes = encode(&head);
        let len = head_len(&head);
        copy_head(
            self.block.slice_mut(MBUF_LEN * index as usize, len),
            &bytes,
            &head,
        );
    }

    /// Changes some fields of the head of mbuf `index`, which must be one of the region's. The rest of its head stays
    /// as it is. [`Change`] gives the conditions of each change.
    // Inlined, so that a caller that knows the change takes only its store.
    #[inline(always)]
    pub fn change_head(&mut self, index: u32, change: Change)
        requires index { index < length self.old.heads }
        requires possible { IsChange (cell_head self.old index) change }
        ensures change { SetsCellHead self.old self.new index (changed (cell_head self.old index) change) }
        ensures sized { IsSized self.new }
    {
        let at = MBUF_LEN * index as usize;
        match change {
            Change::Next(next) => put_u32(self.block.slice_mut(at, 4), link_number(next)),
            Change::NextPacket(next) => put_u32(self.block.slice_mut(at + 4, 4), link_number(next)),
            Change::Data { start, len } => put_data(self.block.slice_mut(at + 8, 8), len, start),
            Change::PacketLen(len) => put_u32(self.block.slice_mut(at + 20, 4), len),
            Change::Arrival(arrival) => put_u32(self.block.slice_mut(at + 24, 4), arrival),
            Change::NoPacket => clear_packet(self.block.slice_mut(at + 18, 2)),
        }
    }

    /// Returns the offset in the block at which the part begins.
    #[inline(always)]
    fn start(&self, part: Part) -> usize
        requires { IsCellPart self.now part }
        ensures at { result ≡ place self.now part }
        ensures within { place self.now part + part.len ≤ length self.now.bytes }
    {
        let start = part.start as usize;
        match part.buffer {
            Buffer::Mbuf(index) => MBUF_LEN * index as usize + start,
            Buffer::Cluster(index) => {
                MBUF_LEN * self.mbufs as usize + CLUSTER_LEN * index as usize + start
            }
        }
    }

    /// Returns the bytes of a part, without copying. A part of an mbuf must be after its head, and the mbuf must not
    /// refer to a cluster.
    #[inline(always)]
    pub fn bytes(&self, part: Part) -> &[u8]
        requires { IsCellPart self.now part }
        ensures value { result.now ≡ read self.now part }
        ensures len { length result.now ≡ part.len }
        ensures sized { IsSized self.now }
    {
        let at = self.start(part);
        self.block.slice(at, part.len as usize)
    }

    /// Returns the bytes of a part, mutable. When the borrow ends, the part has the bytes written, and nothing outside
    /// the part has changed.
    // Inlined, so that a caller that knows the length compiles to stores.
    #[inline(always)]
    pub fn bytes_mut(&mut self, part: Part) -> &mut [u8]
        requires { IsCellPart self.old part }
        ensures* writes_back { sem 𝓛 (LendsCellPart self.entry part result) }
        ensures value { result.now ≡ read self.old part }
        ensures len { length result.now ≡ part.len }
        ensures sized { IsSized self.old }
    {
        let at = self.start(part);
        self.block.slice_mut(at, part.len as usize)
    }

    /// Copies the bytes of `from` over those of `to`, a part of the same length. Like `memmove`, it allows the parts to
    /// overlap.
    pub fn copy(&mut self, from: Part, to: Part)
        requires from { IsCellPart self.old from }
        requires to { IsCellPart self.old to }
        requires len { from.len ≡ to.len }
        ensures change { self.new ≡ cells_written self.old to (read self.old from) }
        ensures sized { IsSized self.new }
    {
        let at = self.start(from);
        let dest = self.start(to);
        let len = self.block.len();
        self.block
            .slice_mut(0, len)
            .copy_within(at..at + from.len as usize, dest);
    }
}
