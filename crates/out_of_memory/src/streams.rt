//! A reader and a writer that count their calls, and allocate no memory.
use std::io::{self, Read, Write};

/// Yields its bytes, and counts its calls.
#[derive(Drop)]
pub struct Counted<'a> {
    left: &'a [u8],
    pub reads: u32,
}

impl Counted<'_> {
    /// Yields these bytes; it hasn't been called yet.
    pub fn new(bytes: &[u8]) -> Counted<'_> {
        Counted {
            left: bytes,
            reads: 0,
        }
    }
}

impl Read for Counted<'_> {
    fn read(&mut self, buf: &mut [u8]) -> io::Result<usize> {
        self.reads = self.reads.wrapping_add(1);
        self.left.read(buf)
    }
}

/// The most bytes that are kept.
const ROOM: usize = 64;

/// Keeps the bytes that are written, up to its capacity, and counts its calls.
#[derive(Drop)]
pub struct Page {
    bytes: [u8; ROOM],
    len: usize,
    pub writes: u32,
}

impl Page {
    /// Nothing has been written, and it hasn't been called yet.
    pub fn new() -> Page {
        Page {
            bytes: [0; ROOM],
            len: 0,
            writes: 0,
        }
    }

    /// Returns the bytes that were written.
    pub fn text(&self) -> &[u8] {
        match self.bytes.get(..self.len) {
            Some(text) => text,
            None => &[],
        }
    }
}

impl Write for Page {
    fn write(&mut self, buf: &[u8]) -> io::Result<usize> {
        self.writes = self.writes.wrapping_add(1);
        let Some(&byte) = buf.first() else {
            return Ok(0);
        };
        let Some(place) = self.bytes.get_mut(self.len) else {
            return Ok(0);
        };
        *place = byte;
        self.len = self.len.wrapping_add(1);
        Ok(1)
    }

    fn flush(&mut self) -> io::Result<()> {
        Ok(())
    }
}
