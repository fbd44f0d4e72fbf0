//! A script in which the reply to a line is the line itself.
use script_loop::{Answers, Buffer, RunFault, serve_script};
use std::alloc::Global;

/// Replies to a line of up to 100 bytes with the line itself, and to a longer one with an empty line.
#[derive(Drop)]
pub struct Repeater;

impl Answers<131_072> for Repeater {
    ghost State = { Unit {0} };

    ghost state = { λ r. tt };

    ghost may_answer = { λ old line text new. Unit {0} };

    fn answer(&mut self, line: &[u8], text: &mut Buffer<131_072>) {
        if line.len() <= 100 {
            text.append(line);
        }
        text.append(b"\n");
    }
}

/// Returns the output for a script.
pub fn echo(alloc: Global, script: &[u8]) -> Result<Vec<u8>, RunFault> {
    let mut reader = script;
    let mut written = Vec::new(alloc);
    serve_script(alloc, &mut Repeater, &mut reader, &mut written)?;
    Ok(written)
}
