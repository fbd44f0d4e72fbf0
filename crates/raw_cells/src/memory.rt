//! The raw memory of a block. Every raw pointer into the pool's memory is in this file.
//!
//! The pointer and the memory that it points to are separate values. An `Address` is the pointer: it can be copied and
//! owns nothing. `Bytes` owns the memory, and a `Deed` is the right to free it. `Bytes` and `Deed` take no space at run
//! time, and neither of them can be dropped, so a block can't be leaked by mistake. The toolchain's library
//! `circular_buffer` has the same three parts.
ghost use Rattle.std.specs.Prelude.{◌≡◌, ℕ, ◌+◌, ◌^◌, ◌<◌, ◌≤◌, List, [], ◌∷◌, ◌++◌, length, take, drop, IfOk};
ghost use Rattle.std.specs.Borrow.{sem};
ghost use denote.RawPtr.{Ptr};
ghost use Rattle.raw_cells.specs.Inside.Memory.{bytes_owned, bytes_lent, block_type};

use std::alloc::{AllocError, Allocator};
use std::marker::{Model, PhantomData};
use std::slice;

/// The beginning of a block.
#[derive(Clone, Copy)]
pub(crate) struct Address {
    pub(crate) ptr: *mut u8,
}

/// The bytes of a block: the initialized bytes, and the number of uninitialized bytes after them.
pub(crate) struct Bytes {
    ghost at: { Ptr },
    ghost written: { List ℕ },
    ghost blank: { ℕ },
}

impl Model for Bytes {
    ghost also_owns = { λ b. bytes_owned b.at b.written b.blank };

    ghost also_shares = { λ b _ κ. bytes_lent b.at b.written b.blank κ };
}

/// The right to return a block of `len` bytes to `alloc`.
pub(crate) struct Deed<A: Allocator> {
    mark: PhantomData<A>,
    ghost alloc: { A },
    ghost at: { Ptr },
    ghost len: { ℕ },
}

impl<A: Allocator> Model for Deed<A> {
    ghost also_owns = { λ d. A.dealloc_token d.alloc (block_type d.len) d.at };
}

/// Allocates a block of `len` uninitialized bytes.
pub(crate) fn allocate<A: Allocator>(
    alloc: &A,
    len: usize,
) -> Result<(Address, Bytes, Deed<A>), AllocError>
    requires { len < 2 ^ 63 }
    ensures { IfOk result (λ r.
        (r.1.at ≡ r.0.ptr) × (r.1.written ≡ []) × (r.1.blank ≡ len)
        × (r.2.at ≡ r.0.ptr) × (r.2.len ≡ len) × (r.2.alloc ≡ alloc.now)) }
{
    match alloc.allocate(len, 1) {
        Ok(ptr) => Ok((Address { ptr }, Bytes {}, Deed { mark: PhantomData })),
        Err(error) => Err(error),
    }
}

/// Frees a block.
pub(crate) fn deallocate<A: Allocator>(
    alloc: &A,
    address: Address,
    len: usize,
    bytes: Bytes,
    deed: Deed<A>,
)
    requires { (bytes.at ≡ address.ptr) × (length bytes.written + bytes.blank ≡ len)
        × (deed.at ≡ address.ptr) × (deed.len ≡ len) × (deed.alloc ≡ alloc.now) }
{
    let Bytes {} = bytes;
    let Deed { mark: _ } = deed;
    unsafe { alloc.deallocate(address.ptr, len, 1) }
}

impl Bytes {
    ghost use Rattle.raw_cells.specs.Inside.MemoryLends.{LendsRun};

    /// Initializes the first uninitialized byte, which is at index `index`.
    pub(crate) fn push(&mut self, address: Address, index: usize, byte: u8)
        requires { (address.ptr ≡ self.old.at) × (index ≡ length self.old.written)
            × (0 < self.old.blank) }
        ensures { (self.new.at ≡ self.old.at)
            × (self.new.written ≡ self.old.written ++ byte ∷ [])
            × (self.new.blank + 1 ≡ self.old.blank) }
    {
        unsafe { address.ptr.add(index).write(byte) }
    }

    /// Returns the `len` bytes from index `from`.
    #[inline(always)]
    pub(crate) fn slice(&self, address: Address, from: usize, len: usize) -> &[u8]
        requires { (address.ptr ≡ self.now.at) × (from + len ≤ length self.now.written) }
        ensures { result.now ≡ take len (drop from self.now.written) }
    {
        unsafe { slice::from_raw_parts(address.ptr.add(from), len) }
    }

    /// Returns the `len` bytes from index `from`, mutable.
    #[inline(always)]
    pub(crate) fn slice_mut(&mut self, address: Address, from: usize, len: usize) -> &mut [u8]
        requires { (address.ptr ≡ self.old.at) × (from + len ≤ length self.old.written) }
        ensures* writes_back { sem 𝓛 (LendsRun self.entry from len result) }
        ensures value { result.now ≡ take len (drop from self.old.written) }
    {
        unsafe { slice::from_raw_parts_mut(address.ptr.add(from), len) }
    }
}
