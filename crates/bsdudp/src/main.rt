//! The program. It passes its words and the three standard streams to `link_script`, which interprets them.
#![tactic(auto)]

use link_script::{Silent, program};
use std::process::ExitCode;
use std::{env, io};

/// Returns the words of the command line, the program's name first. The error is `OutOfMemory` if memory ran out,
/// and another one if a word isn't UTF-8.
fn words(rt: &HostRuntime) -> io::Result<Vec<String>> {
    Ok(env::args(rt)?.collect(rt.alloc())?)
}

fn main(rt: HostRuntime) -> ExitCode {
    let words = words(&rt);
    let (mut reader, mut writer) = (Silent(rt.stdin()), Silent(rt.stdout()));
    ExitCode::from(program(
        rt.alloc(),
        words,
        &mut reader,
        &mut writer,
        &mut rt.stderr(),
    ))
}
