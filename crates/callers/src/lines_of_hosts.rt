//! A script of two hosts and a wire between them.
use play_script::{Form, Style};
use play_wire::{Nowhere, Start, play_hosts};
use std::alloc::Global;

/// A datagram from a to b, and its expectation.
const SCRIPT: &[u8] = b"host a --addr 10.0.0.1
host b --addr 10.0.0.2
wire a b
b: socket
b: bind 3 0.0.0.0 7
a: socket
a: sendto 3 10.0.0.2 7 \"hi\"
carry
b: recvfrom 3 100 => from 10.0.0.1 _ \"hi\"
";

/// Returns whether all expectations of the script are met.
pub fn arrives(alloc: Global) -> bool {
    let style = Style {
        form: Form::Quiet,
        name: b"script",
    };
    let mut reader = SCRIPT;
    let mut written = Vec::new(alloc);
    let start = Start {
        seed: 1,
        capture: Nowhere,
    };
    let done = play_hosts(alloc, style, start, &mut reader, &mut written);
    done.played.status() == 0
}
