//! What scripts bring to a terminal: a byte that isn't part of a printable character is printed as `\x1b`, so no script
//! can change the terminal's colours, title or contents.
use play_script::{Form, Sink};
use std::io::{self, Write};

/// The colours that the players themselves print, and the end of one.
const COLOURS: [&[u8]; 4] = [b"\x1b[31m", b"\x1b[32m", b"\x1b[33m", b"\x1b[0m"];

/// What stands between a line and its outcome.
const ARROW: &[u8] = b" => ";

const DIGITS: &[u8; 16] = b"0123456789abcdef";

/// Returns the length of the colour that stands here; 0 if none does.
fn colour_len(bytes: &[u8]) -> usize {
    for colour in COLOURS {
        if bytes.starts_with(colour) {
            return colour.len();
        }
    }
    0
}

/// Returns whether the bytes from the second one on begin with this many continuation bytes of UTF-8.
fn is_continued(bytes: &[u8], count: usize) -> bool {
    for at in 1..count.saturating_add(1) {
        match bytes.get(at) {
            Some(byte) if *byte & 0xc0 == 0x80 => {}
            _ => return false,
        }
    }
    true
}

/// Returns the length of the character of UTF-8 that stands here (RFC 3629), or 0: if none does, and if it's a control
/// character.
fn char_len(bytes: &[u8]) -> usize {
    let Some(first) = bytes.first() else {
        return 0;
    };
    let (len, longest) = match *first {
        b'\n' | b'\t' | 0x20..=0x7e => return 1,
        0xc2 => match bytes.get(1) {
            Some(second) if *second >= 0xa0 => (2, true),
            _ => return 0,
        },
        0xc3..=0xdf => (2, true),
        0xe0..=0xef => (3, true),
        0xf0..=0xf4 => (4, true),
        _ => (0, false),
    };
    if longest && is_continued(bytes, len - 1) {
        len
    } else {
        0
    }
}

/// Returns the length of what is printed as it is here; 0 if the first byte isn't.
fn shown_len(bytes: &[u8], colours: bool) -> usize {
    let len = char_len(bytes);
    if len == 0 && colours {
        return colour_len(bytes);
    }
    len
}

/// How many bytes are looked at together.
const BLOCK: usize = 16;

/// Returns whether all of these bytes are characters of ASCII that are printed as they are. It looks at each of them,
/// so that the compiler compares them as vectors.
fn is_plain(block: &[u8]) -> bool {
    let mut other = false;
    for byte in block {
        let printable = byte.wrapping_sub(0x20) < 0x5f;
        other = other | !(printable | (*byte == b'\n') | (*byte == b'\t'));
    }
    !other
}

/// Returns how many of the first bytes are printed as they are, only of the first line if that is wanted.
fn plain_len(bytes: &[u8], colours: bool, one_line: bool) -> usize {
    let mut at = 0usize;
    for _ in 0..bytes.len() {
        let rest = bytes.get(at..).unwrap_or_default();
        let step = match rest.get(..BLOCK) {
            Some(block) if !one_line && is_plain(block) => BLOCK,
            _ => shown_len(rest, colours),
        };
        if step == 0 {
            break;
        }
        at = at.saturating_add(step);
        if one_line && rest.first() == Some(&b'\n') {
            break;
        }
    }
    at
}

/// Returns the length of a line's number and text, up to its outcome; 0 if no outcome stands here.
fn echo_len(bytes: &[u8]) -> usize {
    match bytes.first() {
        Some(byte) if byte.is_ascii_digit() => {}
        _ => return 0,
    }
    for at in 0..bytes.len() {
        let rest = bytes.get(at..).unwrap_or_default();
        if rest.starts_with(b"\n") {
            return 0;
        }
        if rest.starts_with(ARROW) {
            return at.saturating_add(ARROW.len());
        }
    }
    0
}

/// A writer of text.
#[derive(Drop)]
pub(crate) struct Screen<W> {
    inner: W,
    /// Whether the players print colours.
    colours: bool,
    /// Whether the lines were typed here, so that they needn't be printed again.
    typed: bool,
    at_front: bool,
}

impl<W: Write> Screen<W> {
    /// Returns a screen for this form.
    pub(crate) fn over(inner: W, form: Form, typed: bool) -> Screen<W> {
        Screen {
            inner,
            colours: matches!(form, Form::Coloured | Form::QuietColoured),
            typed,
            at_front: true,
        }
    }

    /// Prints a byte by its number.
    fn print_code(&mut self, byte: u8) -> io::Result<()> {
        let (high, low) = (usize::from(byte >> 4), usize::from(byte & 15));
        self.inner
            .write_all(&[b'\\', b'x', DIGITS[high], DIGITS[low]])
    }
}

impl<W: Write> Write for Screen<W> {
    fn write(&mut self, buf: &[u8]) -> io::Result<usize> {
        let echo = if self.typed && self.at_front {
            echo_len(buf)
        } else {
            0
        };
        if echo != 0 {
            self.at_front = false;
            return Ok(echo.min(buf.len()));
        }
        let plain = &buf[..plain_len(buf, self.colours, self.typed).min(buf.len())];
        if let Some(last) = plain.last() {
            self.at_front = *last == b'\n';
            return self.inner.write(plain);
        }
        match buf.first() {
            Some(byte) => {
                self.at_front = false;
                self.print_code(*byte)?;
                Ok(1)
            }
            None => Ok(0),
        }
    }

    fn flush(&mut self) -> io::Result<()> {
        self.inner.flush()
    }
}

impl<W: Write> Sink for Screen<W> {
    fn write_some(&mut self, buf: &[u8]) -> io::Result<usize> {
        self.write(buf)
    }
}
