//! The files that a script names.
ghost use Rattle.play_pcap.specs.Files.{IsUnread};

use crate::formats::{Unread, load_file};
use crate::messages::Shown;
use play_script::{CaptureFault, Folder};
use std::alloc::Global;
use std::str;

/// The folder of a script. A name that begins with `/` is that of any file of the host.
#[derive(Drop)]
pub(crate) struct HostFolder<'a> {
    rt: &'a HostRuntime,
    /// The folder of the script, with which names are completed: its own name up to its last `/`.
    front: &'a [u8],
}

impl<'a> HostFolder<'a> {
    /// Returns the folder of the script of this name. That of standard input is the one that the program was called in.
    pub(crate) fn of(rt: &'a HostRuntime, script: &'a str) -> HostFolder<'a> {
        HostFolder {
            rt,
            front: front_of(script.as_bytes()),
        }
    }
}

/// Returns the front of a name up to its last `/`.
fn front_of(name: &[u8]) -> &[u8] {
    let mut front = &name[..0];
    for at in 0..name.len() {
        if name[at] == b'/' {
            front = &name[..at + 1];
        }
    }
    front
}

/// Returns whether a name says by itself where its file is.
fn is_absolute(name: &[u8]) -> bool {
    match name {
        [first, ..] => *first == b'/',
        [] => false,
    }
}

/// Returns the fault for a file that couldn't be read.
fn unread(fault: CaptureFault) -> CaptureFault
    ensures { IsUnread result }
{
    match fault {
        CaptureFault::NotOpened => CaptureFault::NotOpened,
        CaptureFault::TooLong => CaptureFault::TooLong,
        CaptureFault::Memory => CaptureFault::Memory,
        _ => CaptureFault::NotRead,
    }
}

impl Folder for HostFolder<'_> {
    ghost may_have = { λ name file. Unit {0} };

    fn load(&self, alloc: Global, name: &[u8]) -> Result<Vec<u8>, CaptureFault> {
        let mut path = Vec::new(alloc);
        if !is_absolute(name) && path.extend_from_slice(self.front).is_err() {
            return Err(CaptureFault::Memory);
        }
        if path.extend_from_slice(name).is_err() {
            return Err(CaptureFault::Memory);
        }
        let Ok(path) = str::from_utf8(path.as_slice()) else {
            return Err(CaptureFault::NotOpened);
        };
        match load_file(self.rt, alloc, path) {
            Ok(file) => Ok(file),
            Err(Unread::Whole(fault)) => Err(unread(fault)),
            Err(Unread::Bad(fault)) => {
                let path = Shown(path);
                let _reported = eprintln!(self.rt; "bsdplay: {path}: {fault}");
                Err(CaptureFault::NotRead)
            }
        }
    }
}
