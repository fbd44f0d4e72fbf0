//! Messages on standard error.
use std::{fmt, io};

/// A name of the command line, for a terminal: a control character in it is printed like `\x1b`.
#[derive(Clone, Copy)]
pub(crate) struct Shown<'a>(pub(crate) &'a str);

impl fmt::Display for Shown<'_> {
    fn fmt<W: fmt::Write>(&self, f: &mut fmt::Formatter<W>) -> fmt::Result {
        for letter in self.0.chars() {
            if letter.is_control() {
                write!(f, "\\x{:02x}", u32::from(letter))?;
            } else {
                write!(f, "{letter}")?;
            }
        }
        Ok(())
    }
}

/// Prints a message, and returns the status.
pub(crate) fn fail(rt: &HostRuntime, message: &str, status: u8) -> io::Result<u8> {
    eprintln!(rt; "bsdplay: {message}")?;
    Ok(status)
}

/// Prints a message on a file, and returns the status.
pub(crate) fn fail_on(rt: &HostRuntime, name: &str, message: &str, status: u8) -> io::Result<u8> {
    let name = Shown(name);
    eprintln!(rt; "bsdplay: {name}: {message}")?;
    Ok(status)
}
