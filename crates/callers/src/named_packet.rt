//! The packet that a line describes.
use play_line::{LONGEST, SyntaxError};
use play_packet::{LineReader, PACKET};
use script_loop::Buffer;
use std::alloc::{AllocError, Global};

/// Returns the length of the packet that a line describes, 0 if it describes none, or the error in the line.
pub fn named_len(alloc: Global, line: &[u8]) -> Result<Result<usize, SyntaxError>, AllocError> {
    let mut reader = LineReader::new(alloc)?;
    let mut words: Buffer<LONGEST> = Buffer::new(alloc)?;
    let mut packet: Buffer<PACKET> = Buffer::new(alloc)?;
    match reader.plain_line(line) {
        Ok(plain) => words.append(plain),
        Err(error) => return Ok(Err(error)),
    }
    match reader.put_packet(line, words.as_slice(), &mut packet) {
        Ok(true) => Ok(Ok(packet.len())),
        Ok(false) => Ok(Ok(0)),
        Err(error) => Ok(Err(error)),
    }
}
