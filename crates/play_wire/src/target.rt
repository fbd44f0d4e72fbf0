//! The host that a line names.
ghost use Rattle.std.specs.Prelude.{◌≤◌, length};
ghost use Rattle.play_wire.specs.Inside.{named_by};
ghost use Rattle.play_wire.specs.Reports.{IsParted};

use crate::names::{NAME, named};
use script_loop::Buffer;
use std::alloc::{AllocError, Global};

/// The host that a line names.
#[derive(Drop)]
pub(crate) struct Target {
    /// Whether it names one.
    pub(crate) named: bool,
    pub(crate) host: Buffer<NAME>,
}

impl Target {
    /// Allocates the memory for a target; no host is named yet.
    pub(crate) fn new(alloc: Global) -> Result<Target, AllocError> {
        Ok(Target {
            named: false,
            host: Buffer::new(alloc)?,
        })
    }

    /// Sets the target to the host that a line names, and returns the rest of the line; the whole line if it names no
    /// host.
    pub(crate) fn take<'a>(&mut self, line: &'a [u8]) -> &'a [u8]
        ensures parted { IsParted line.now (named_by self.new) result.now }
        ensures shorter { length result.now ≤ length line.now }
    {
        self.host.clear();
        match named(line) {
            Some((name, part)) => {
                self.named = true;
                self.host.append(name);
                part
            }
            None => {
                self.named = false;
                line
            }
        }
    }
}
