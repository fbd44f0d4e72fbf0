//! The plain line of a line with a text.
use play_line::{Reader, SyntaxError};
use std::alloc::{AllocError, Global};

/// Returns the length of the plain line, or the error in the line.
pub fn plain_len(alloc: Global, line: &[u8]) -> Result<Result<usize, SyntaxError>, AllocError> {
    let mut reader = Reader::new(alloc)?;
    match reader.plain_line(line) {
        Ok(plain) => Ok(Ok(plain.len())),
        Err(error) => Ok(Err(error)),
    }
}
