//! Scripts that are read whole before they are played: hand-ins, keys, and those that are played strictly.
use crate::choice::Ahead;
use crate::hosts::play_uncaptured;
use play_pcap::{CaptureFault, read_whole};
use play_script::{DEFAULTS, Form, Played, Silent, Style, play};
use std::fs;

/// The most bytes of a hand-in, and of a key.
const LONGEST: usize = 65_536;

/// The mark at the beginning of a text in UTF-8 that some editors write.
const MARK: &[u8] = b"\xef\xbb\xbf";

/// The message if host memory is refused.
pub(crate) const REFUSED: &str = "no memory";

/// Reads a file that is graded. On error, returns the message.
pub(crate) fn load(rt: &HostRuntime, name: &str) -> Result<Vec<u8>, &'static str> {
    let Ok(file) = fs::open(rt, name) else {
        return Err("can't be opened");
    };
    match read_whole(rt.alloc(), &mut Silent(file)) {
        Ok(file) => {
            if file.len() > LONGEST {
                Err("longer than 65536 bytes")
            } else if is_wide(file.as_slice()) {
                Err("UTF-16: save it as UTF-8")
            } else {
                Ok(file)
            }
        }
        Err(CaptureFault::TooLong) => Err("longer than 65536 bytes"),
        Err(CaptureFault::Memory) => Err(REFUSED),
        Err(_) => Err("can't be read"),
    }
}

/// Returns whether a text is marked as UTF-16.
fn is_wide(text: &[u8]) -> bool {
    text.starts_with(b"\xff\xfe") || text.starts_with(b"\xfe\xff")
}

/// Returns a text without the mark that it begins with, if it has one.
pub(crate) fn unmarked(text: &[u8]) -> &[u8] {
    if text.starts_with(MARK) {
        text.get(MARK.len()..).unwrap_or_default()
    } else {
        text
    }
}

/// Plays a script without a capture and without files, on one machine or on many. What is printed of it is added to
/// `written`.
pub(crate) fn play_quietly(
    rt: &HostRuntime,
    script: &[u8],
    name: &str,
    written: &mut Vec<u8>,
) -> Played {
    let style = Style {
        form: Form::Quiet,
        name: name.as_bytes(),
    };
    let mut reader = Ahead::over(script);
    if reader.has_hosts() {
        play_uncaptured(rt, style, 1, &mut reader, written).played
    } else {
        play(rt.alloc(), DEFAULTS, style, &mut reader, written)
    }
}
