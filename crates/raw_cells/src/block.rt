//! A block of bytes, all of them initialized: safe code over the raw memory.
ghost use Rattle.std.specs.Prelude.{◌≡◌, ◌+◌, ◌^◌, ◌<◌, ◌≤◌, [], length, take, drop, replicate, IfOk};
ghost use Rattle.std.specs.Borrow.{sem};

use crate::memory::{Address, Bytes, Deed, allocate, deallocate};
use std::alloc::{AllocError, Global};
use std::marker::Model;

/// One block of memory, freed with its owner. Contracts see it as the list of its bytes.
pub(crate) struct Block {
    address: Address,
    len: usize,
    bytes: Bytes,
    deed: Deed<Global>,
    alloc: Global,
}

impl Model for Block {
    ghost use Rattle.std.specs.Prelude.{List, ℕ};

    ghost Value = { List ℕ };

    ghost use Rattle.raw_cells.specs.Inside.Block.{IsBlock};

    ghost view = { λ b. b.bytes.written };

    ghost invariant = { IsBlock };
}

/// Writes 0 to each byte of a new block.
fn fill(bytes: &mut Bytes, address: Address, len: usize)
    requires { (address.ptr ≡ bytes.old.at) × (bytes.old.written ≡ [])
        × (bytes.old.blank ≡ len) }
    ensures { (bytes.new.at ≡ bytes.old.at) × (bytes.new.written ≡ replicate len 0)
        × (bytes.new.blank ≡ 0) }
{
    for i in 0..len {
        bytes.push(address, i, 0);
    }
}

impl Block {
    ghost use Rattle.raw_cells.specs.Inside.BlockLends.{LendsBytes};

    /// Allocates a block of `len` zero bytes. Returns `AllocError` if the allocation fails.
    pub(crate) fn new(alloc: Global, len: usize) -> Result<Block, AllocError>
        requires { len < 2 ^ 63 }
        ensures { IfOk result (λ b. b ≡ replicate len 0) }
    {
        let (address, bytes, deed) = allocate(&alloc, len)?;
        let mut bytes = bytes;
        fill(&mut bytes, address, len);
        Ok(Block {
            address,
            len,
            bytes,
            deed,
            alloc,
        })
    }

    #[inline(always)]
    pub(crate) fn len(&self) -> usize
        ensures { result ≡ length self.now }
    {
        self.len
    }

    /// Returns the `len` bytes from index `at`.
    #[inline(always)]
    pub(crate) fn slice(&self, at: usize, len: usize) -> &[u8]
        requires { at + len ≤ length self.now }
        ensures value { result.now ≡ take len (drop at self.now) }
        ensures len { length result.now ≡ len }
    {
        self.bytes.slice(self.address, at, len)
    }

    /// Returns the `len` bytes from index `at`, mutable.
    #[inline(always)]
    pub(crate) fn slice_mut(&mut self, at: usize, len: usize) -> &mut [u8]
        requires { at + len ≤ length self.old }
        ensures* writes_back { sem 𝓛 (LendsBytes self.entry at len result) }
        ensures value { result.now ≡ take len (drop at self.old) }
        ensures len { length result.now ≡ len }
    {
        self.bytes.slice_mut(self.address, at, len)
    }
}

impl Drop for Block {
    fn drop(self) {
        let Block {
            address,
            len,
            bytes,
            deed,
            alloc,
        } = self;
        deallocate(&alloc, address, len, bytes, deed);
    }
}
