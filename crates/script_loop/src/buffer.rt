//! A list of bytes with a fixed capacity.
ghost use Rattle.std.specs.Prelude.{◌≡◌, ℕ, ◌+◌, ◌<◌, ◌≤◌, List, [], ◌∷◌, ◌++◌, length, IfOk, IsTrue, ◌↔◌, vec_capacity};

use std::alloc::{AllocError, Global};
use std::marker::Model;

/// Up to `N` bytes. The memory is allocated when it is created.
#[derive(Drop)]
pub struct Buffer<const N: usize> {
    bytes: Vec<u8>,
}

impl<const N: usize> Model for Buffer<N> {
    ghost Value = { List ℕ };

    ghost view = { λ b. b.bytes.items };

    ghost invariant = { λ b. (length b.bytes.items ≤ N) × (N ≤ vec_capacity b.bytes) };
}

impl<const N: usize> Buffer<N> {
    /// Creates an empty buffer. It allocates the memory for all `N` bytes, and fails only if that allocation fails.
    pub fn new(alloc: Global) -> Result<Buffer<N>, AllocError>
        ensures { IfOk result (λ b. b ≡ []) }
    {
        Ok(Buffer {
            bytes: Vec::with_capacity(alloc, N)?,
        })
    }

    /// Returns the current bytes, without copying.
    pub fn as_slice(&self) -> &[u8]
        ensures { result.now ≡ self.now }
    {
        self.bytes.as_slice()
    }

    /// Returns the number of bytes, at most `N`.
    pub fn len(&self) -> usize
        ensures is { result ≡ length self.now }
        ensures most { result ≤ N }
    {
        self.bytes.len()
    }

    /// Returns whether there is no byte.
    pub fn is_empty(&self) -> bool
        ensures { IsTrue result ↔ (self.now ≡ []) }
    {
        self.bytes.is_empty()
    }

    /// Drops all bytes, and keeps the memory.
    pub fn clear(&mut self)
        ensures { self.new ≡ [] }
    {
        self.bytes.clear();
    }

    /// Appends a byte. There must be space for it.
    pub fn push(&mut self, byte: u8)
        requires { length self.old < N }
        ensures items { self.new ≡ self.old ++ byte ∷ [] }
        ensures len { length self.new ≡ length self.old + 1 }
    {
        let _ = self.bytes.push(byte);
    }

    /// Appends bytes. There must be space for all of them.
    pub fn append(&mut self, bytes: &[u8])
        requires { length self.old + length bytes.now ≤ N }
        ensures items { self.new ≡ self.old ++ bytes.now }
        ensures len { length self.new ≡ length self.old + length bytes.now }
    {
        let _ = self.bytes.extend_from_slice(bytes);
    }
}
