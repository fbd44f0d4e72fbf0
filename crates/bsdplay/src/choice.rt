//! Chooses the player of a script by its first line with a request: one machine, or many hosts.
ghost use Rattle.std.specs.Io.{ReadsAtMost};
ghost use Rattle.std.specs.Prelude.{◌≡◌, ◌≤◌, [], ◌∷◌, bytes_eq, if◌then◌else◌, length, take};

use play_script::Source;
use std::io::{self, Read};

/// How many bytes are read ahead at most.
const AHEAD: usize = 4096;

/// The byte order mark of UTF-8, which editors may write at the beginning of a script (RFC 3629 section 6).
const MARK: &[u8] = b"\xef\xbb\xbf";

/// The first bytes of captures: of pcap with microseconds and with nanoseconds, in both byte orders, and of pcapng.
const CAPTURES: [[u8; 4]; 5] = [
    [0xd4, 0xc3, 0xb2, 0xa1],
    [0xa1, 0xb2, 0xc3, 0xd4],
    [0x4d, 0x3c, 0xb2, 0xa1],
    [0xa1, 0xb2, 0x3c, 0x4d],
    [0x0a, 0x0d, 0x0d, 0x0a],
];

/// The word that a script of many machines begins with.
const HOST: &[u8] = b"host";

/// The place of the next byte in a script.
#[derive(Clone, Copy)]
enum Place {
    /// Before a line's first word.
    Front,
    Comment,
    /// After this many bytes of the word `host`.
    Word(usize),
}

/// Returns how many bytes of a script are a byte order mark at its head.
fn mark_len(script: &[u8]) -> usize
    ensures is { result ≡ (if bytes_eq (take 3 script.now) (239 ∷ 187 ∷ 191 ∷ []) then 3 else 0) }
    ensures most { result ≤ length script.now }
{
    if script.starts_with(MARK) {
        MARK.len()
    } else {
        0
    }
}

/// Returns whether the first line with a request begins with the word `host`. `None` if these bytes don't show it yet.
fn begins_with_host(script: &[u8]) -> Option<bool> {
    if script.len() < MARK.len() && MARK.starts_with(script) {
        return None;
    }
    let mut place = Place::Front;
    for byte in &script[mark_len(script)..] {
        let is_blank = byte.is_ascii_whitespace();
        place = match place {
            Place::Comment if *byte != b'\n' => Place::Comment,
            Place::Comment => Place::Front,
            Place::Front if is_blank => Place::Front,
            Place::Front if *byte == b'#' => Place::Comment,
            Place::Front if *byte == b'h' => Place::Word(1),
            Place::Front => return Some(false),
            Place::Word(matched) => match HOST.get(matched) {
                Some(sought) if *sought == *byte => Place::Word(matched.saturating_add(1)),
                Some(_) => return Some(false),
                None => return Some(is_blank),
            },
        };
    }
    None
}

/// Returns whether a file that begins with these bytes is a capture. `None` if these bytes don't show it yet.
fn begins_capture(front: &[u8]) -> Option<bool> {
    for magic in CAPTURES {
        if front.starts_with(&magic) {
            return Some(true);
        }
        if magic.starts_with(front) {
            return None;
        }
    }
    Some(false)
}

/// The text that is appended to a script if a summary was requested.
const SUMMARY: &[u8] = b"\nsummary\n";

/// A script whose first bytes were read ahead.
#[derive(Drop)]
pub(crate) struct Ahead<R> {
    inner: R,
    /// Whether the line `summary` is appended to it.
    summary: bool,
    front: [u8; AHEAD],
    /// How many bytes were read ahead, and how many of them were given.
    len: usize,
    given: usize,
}

impl<R: Read> Ahead<R> {
    /// Returns a script of which nothing was read yet.
    pub(crate) fn over(inner: R) -> Ahead<R> {
        Ahead {
            inner,
            summary: false,
            front: [0; AHEAD],
            len: 0,
            given: 0,
        }
    }

    /// Returns the script that it reads.
    pub(crate) fn inner(&self) -> &R {
        &self.inner
    }

    /// Requests the line `summary` after the script.
    pub(crate) fn ask_for_summary(&mut self) {
        self.summary = true;
    }

    /// Returns whether this is a script of many machines: its first line with a request begins with `host`. Reads as
    /// far as needed, at most 4,096 bytes; a script that doesn't show it by then has one machine. A byte order mark at
    /// the beginning of the script is skipped.
    pub(crate) fn has_hosts(&mut self) -> bool {
        let found = self.look_ahead();
        let len = self.len;
        if len <= AHEAD {
            self.given = mark_len(&self.front[..len]);
        }
        found
    }

    /// Returns whether this is a capture and not a script. Reads as far as needed: of a script, the first line.
    pub(crate) fn is_capture(&mut self) -> bool {
        for _ in 0..AHEAD {
            if let Some(found) = begins_capture(self.front.get(..self.len).unwrap_or_default()) {
                return found;
            }
            if !self.read_more() {
                return false;
            }
        }
        false
    }

    /// Reads ahead once. Returns whether that brought bytes.
    fn read_more(&mut self) -> bool {
        let len = self.len;
        if len >= AHEAD {
            return false;
        }
        match self.inner.read(&mut self.front[len..]) {
            Ok(0) | Err(_) => false,
            Ok(more) => {
                self.len = len + more;
                true
            }
        }
    }

    /// Returns whether the bytes read so far show a script of many machines.
    fn look_ahead(&mut self) -> bool {
        for _ in 0..AHEAD {
            let len = self.len;
            if len > AHEAD {
                return false;
            }
            if let Some(found) = begins_with_host(&self.front[..len]) {
                return found;
            }
            if !self.read_more() {
                return false;
            }
        }
        false
    }
}

impl<R: Read> Ahead<R> {
    /// Reads what wasn't read ahead, and then the line `summary` if it's wanted.
    fn read_on(&mut self, buf: &mut [u8]) -> io::Result<usize>
        ensures { ReadsAtMost result buf.new }
    {
        let count = self.inner.read(buf)?;
        if count != 0 || !self.summary || buf.len() < SUMMARY.len() {
            return Ok(count);
        }
        self.summary = false;
        buf[..SUMMARY.len()].copy_from_slice(SUMMARY);
        Ok(SUMMARY.len())
    }
}

impl<R: Read> Read for Ahead<R> {
    fn read(&mut self, buf: &mut [u8]) -> io::Result<usize> {
        let (given, len) = (self.given, self.len);
        if given >= len || len > AHEAD {
            return self.read_on(buf);
        }
        let rest = &self.front[given..len];
        let count = if rest.len() < buf.len() {
            rest.len()
        } else {
            buf.len()
        };
        buf[..count].copy_from_slice(&rest[..count]);
        self.given = given + count;
        Ok(count)
    }
}

impl<R: Read> Source for Ahead<R> {
    fn read_some(&mut self, buf: &mut [u8]) -> io::Result<usize> {
        self.read(buf)
    }
}
