//! The state of a stack, in words.
use net_stack::Stack;
use play_show::{SHOWN, topic_of, write_topic};
use script_loop::Buffer;
use std::alloc::{AllocError, Global};

/// Returns the length of the output for a line such as `show pool`, with the lines below it. Returns `None` if the line
/// requests something different.
pub fn reported_len(
    alloc: Global,
    stack: &Stack,
    line: &[u8],
) -> Result<Option<usize>, AllocError> {
    let Some(topic) = topic_of(line) else {
        return Ok(None);
    };
    let mut reply = Buffer::<SHOWN>::new(alloc)?;
    let mut below = Buffer::<SHOWN>::new(alloc)?;
    write_topic(stack, topic, &mut reply, &mut below);
    Ok(Some(reply.len() + below.len()))
}
