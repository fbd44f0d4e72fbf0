//! Exercises: scripts in which `?` is expected of a line, or is the answer to a question.
use crate::hand_in::unmarked;
use memchr::{memchr, memchr_iter, memrchr};
use play_grade::{Marker, first_line};
use std::alloc::{AllocError, Global};
use std::io::{self, Read};

/// How many bytes are read at once.
const CHUNK: usize = 4096;

/// A line that is longer is passed on without a look at its end. The player rejects it.
const LONGEST_HELD: usize = 1 << 21;

/// What is open in a script.
#[derive(Clone, Copy)]
pub(crate) struct Open {
    /// The first line that expects `?`.
    pub(crate) first: Option<u64>,
    pub(crate) replies: u64,
    pub(crate) questions: u64,
}

/// A script that ends before the first line that expects `?`, so that no reply is shown to a student who has yet to
/// find it. The rest is only counted.
#[derive(Drop)]
pub(crate) struct Unsolved<R> {
    inner: R,
    alloc: Global,
    /// Allocated for the first line that has a `?`.
    marker: Option<Marker>,
    /// The line that is being read, and its number.
    line: Vec<u8>,
    number: u64,
    /// Whole lines, of which `given` bytes have been passed on.
    ready: Vec<u8>,
    given: usize,
    ended: bool,
    /// Whether memory for a line was refused. Then each read fails, because the line is lost.
    lacks: bool,
    open: Open,
}

/// Returns whether a line expects `?`. The first line may begin with a byte order mark.
fn is_awaiting(marker: &mut Marker, line: &[u8], is_first: bool) -> bool {
    let text = if is_first { unmarked(line) } else { line };
    marker.awaits(text)
}

impl<R: Read + Drop> Unsolved<R> {
    /// Returns a script of which nothing was read yet. It has space for lines of up to 4,096 bytes; a longer one takes
    /// more memory when it's read. Fails with `AllocError` without memory for this.
    pub(crate) fn over(alloc: Global, inner: R) -> Result<Unsolved<R>, AllocError> {
        let line = Vec::with_capacity(alloc, CHUNK)?;
        let ready = Vec::with_capacity(alloc, 2 * CHUNK)?;
        Ok(Unsolved {
            inner,
            alloc,
            marker: None,
            line,
            number: 0,
            ready,
            given: 0,
            ended: false,
            lacks: false,
            open: Open {
                first: None,
                replies: 0,
                questions: 0,
            },
        })
    }
}

impl<R: Read> Unsolved<R> {
    /// Returns what is open in the lines that were read so far.
    pub(crate) fn open(&self) -> Open {
        self.open
    }

    /// Returns whether the line expects `?`. Without memory for a look at it, it doesn't.
    fn awaits(&mut self) -> bool {
        if memchr(b'?', self.line.as_slice()).is_none() {
            return false;
        }
        if self.marker.is_none() {
            self.marker = Marker::new(self.alloc).ok();
        }
        let is_first = self.number == 1;
        match &mut self.marker {
            Some(marker) => is_awaiting(marker, self.line.as_slice(), is_first),
            None => false,
        }
    }

    /// Counts the line if it's open, and passes it on if none before it is.
    fn end_line(&mut self, end: &[u8]) -> io::Result<()> {
        self.number = self.number.saturating_add(1);
        if self.awaits() {
            if self.line.as_slice().starts_with(b"#") {
                self.open.questions = self.open.questions.saturating_add(1);
            } else {
                self.open.replies = self.open.replies.saturating_add(1);
                if self.open.first.is_none() {
                    self.open.first = Some(self.number);
                }
            }
        }
        if self.open.first.is_none() {
            self.ready.extend_from_slice(self.line.as_slice())?;
            self.ready.extend_from_slice(end)?;
        }
        self.line.clear();
        Ok(())
    }

    /// Takes more bytes of the script, line by line.
    fn take_lines(&mut self, chunk: &[u8]) -> io::Result<()> {
        let mut left = chunk;
        for _ in 0..chunk.len().saturating_add(1) {
            let (piece, more) = first_line(left);
            self.line.extend_from_slice(piece)?;
            let Some(rest) = more else {
                break;
            };
            self.end_line(b"\n")?;
            left = rest;
        }
        Ok(())
    }

    /// Takes more bytes of lines without a `?`, all of which are passed on together.
    fn take_solved(&mut self, chunk: &[u8]) -> io::Result<()> {
        let len = match memrchr(b'\n', chunk) {
            Some(last) => last.saturating_add(1),
            None => 0,
        };
        let lines = chunk.get(..len).unwrap_or_default();
        if !lines.is_empty() {
            let count = memchr_iter(b'\n', lines).count();
            self.number = self.number.saturating_add(count as u64);
            self.ready.extend_from_slice(self.line.as_slice())?;
            self.ready.extend_from_slice(lines)?;
            self.line.clear();
        }
        self.line
            .extend_from_slice(chunk.get(len..).unwrap_or_default())?;
        Ok(())
    }

    /// Takes more bytes of the script.
    fn take(&mut self, chunk: &[u8]) -> io::Result<()> {
        let asks = memchr(b'?', chunk).is_some() || memchr(b'?', self.line.as_slice()).is_some();
        if asks || self.open.first.is_some() {
            self.take_lines(chunk)?;
        } else {
            self.take_solved(chunk)?;
        }
        if self.line.len() > LONGEST_HELD {
            self.ready.extend_from_slice(self.line.as_slice())?;
            self.line.clear();
        }
        Ok(())
    }

    /// Reads until there are lines to pass on, or the script ends.
    fn refill(&mut self) -> io::Result<()> {
        self.ready.clear();
        self.given = 0;
        let mut chunk = [0u8; CHUNK];
        for _ in 0..u64::MAX {
            if self.ended || !self.ready.is_empty() {
                break;
            }
            match self.inner.read(&mut chunk)? {
                0 => {
                    self.ended = true;
                    if !self.line.is_empty() {
                        self.end_line(b"")?;
                    }
                }
                count => self.take(chunk.get(..count).unwrap_or_default())?,
            }
        }
        Ok(())
    }
}

impl<R: Read> Read for Unsolved<R> {
    fn read(&mut self, buf: &mut [u8]) -> io::Result<usize> {
        if self.lacks {
            return Err(AllocError.into());
        }
        if self.given >= self.ready.len()
            && let Err(error) = self.refill()
        {
            self.lacks = error.kind() == io::ErrorKind::OutOfMemory;
            return Err(error);
        }
        let rest = self.ready.as_slice().get(self.given..).unwrap_or_default();
        let count = if rest.len() < buf.len() {
            rest.len()
        } else {
            buf.len()
        };
        buf[..count].copy_from_slice(&rest[..count]);
        self.given = self.given.saturating_add(count);
        Ok(count)
    }
}
