//! Reading whole files into memory.
ghost use Rattle.std.specs.Prelude.{◌≡◌, ◌≤◌, ℕ, List, length, IfOk, IfErr, MatchResult};
ghost use Rattle.std.specs.Io.KnownBytes.{Consumes, IsAtEnd};
ghost use Rattle.params.specs.declared.TheConstants.{IP_MAX_PACKET};
ghost use Rattle.play_pcap.specs.Files.{IsAvailable, IsUnread, no_folder};

use crate::fault::CaptureFault;
use script_loop::{Source, bytes};
use std::alloc::Global;

/// The longest capture that can be played: 16 MiB, in bytes.
const LONGEST_FILE: usize = 16_777_216;

/// The number of bytes read at a time.
const CHUNK: usize = 8192;

/// Reads everything that a reader has left. Returns `NotRead` if the reader returns an error, `TooLong` if it has more
/// than 16 MiB, and `Memory` if the host refuses memory. On error some bytes have been read.
pub fn read_whole<R: Source>(alloc: Global, reader: &mut R) -> Result<Vec<u8>, CaptureFault>
    ensures all { IfOk result (λ v. Consumes (R.remaining reader.old) (R.remaining reader.new) v.items) }
    ensures ended { IfOk result (λ v. IsAtEnd (R.remaining reader.new)) }
    ensures most { IfOk result (λ v. length v.items ≤ LONGEST_FILE) }
    ensures unread { IfErr result IsUnread }
{
    let mut file = Vec::new(alloc);
    let mut chunk = [0; CHUNK];
    'chunks: loop {
        let Ok(n) = reader.read_some(&mut chunk) else {
            return Err(CaptureFault::NotRead);
        };
        if n == 0 {
            return Ok(file);
        }
        if n > LONGEST_FILE - file.len() {
            return Err(CaptureFault::TooLong);
        }
        if file.extend_from_slice(&chunk[..n]).is_err() {
            return Err(CaptureFault::Memory);
        }
    }
}

/// The files that lines may name.
pub trait Folder: Drop {
    /// The bytes that the file with a name may have.
    ghost may_have: { List ℕ → List ℕ → Type 0 };

    /// Reads all bytes of the file with this name. Returns `NotOpened`, `NotRead`, `TooLong` or `Memory`, as
    /// [`CaptureFault`] defines them.
    fn load(&self, alloc: Global, name: &[u8]) -> Result<Vec<u8>, CaptureFault>
        ensures { MatchResult result (λ v. may_have name.now v.items) IsUnread };
}

/// No files: none can be opened.
#[derive(Drop)]
pub struct NoFolder;

impl Folder for NoFolder {
    ghost may_have = { no_folder };

    fn load(&self, _alloc: Global, _name: &[u8]) -> Result<Vec<u8>, CaptureFault> {
        Err(CaptureFault::NotOpened)
    }
}

/// Reads all bytes of the file that a word of a plain line names. If the word is hexadecimal digits, as it is when the
/// name was written as a text, the name has the bytes that they encode. Otherwise the name is the word itself. The
/// errors are those of [`Folder::load`]. The contents of `buffer`, which has exactly 65,535 bytes, may be lost.
pub fn load_named<F: Folder>(
    alloc: Global,
    folder: &F,
    word: &[u8],
    buffer: &mut [u8],
) -> Result<Vec<u8>, CaptureFault>
    requires { length buffer.old ≡ IP_MAX_PACKET }
    ensures { MatchResult result (λ v. IsAvailable F.may_have word.now v.items) IsUnread }
{
    match bytes(word, buffer) {
        Some(len) => folder.load(alloc, &buffer[..len]),
        None => folder.load(alloc, word),
    }
}
