//! The output for a line as a JSON object, and the description of a packet's headers.
ghost use Rattle.std.specs.Prelude.{◌≡◌, [], false, IfOk, None, codes};
ghost use Rattle.play_text.specs.Texts.{outcome_object};

use play_text::{Form, Outcome, put_outcome, put_packet};
use script_loop::Buffer;
use std::alloc::{AllocError, Global};

/// Returns the text for a line 7 with this reply.
pub fn line_7(alloc: Global, line: &[u8; 6], reply: &[u8; 2]) -> Result<Buffer<512>, AllocError>
    ensures { IfOk result (λ text. text ≡ outcome_object (codes "script.txt") 7 line.now None false reply.now []) }
{
    let mut text = Buffer::new(alloc)?;
    let outcome = Outcome {
        number: 7,
        line: line.as_slice(),
        reply: reply.as_slice(),
        below: b"",
        texts: false,
        expects: false,
        wanted: b"",
        met: false,
    };
    put_outcome(&mut text, Form::Json, b"script.txt", &outcome);
    Ok(text)
}

/// Returns the length of a packet's description. Returns `None` for more bytes than a packet can have.
pub fn words_len(alloc: Global, packet: &[u8]) -> Result<Option<usize>, AllocError> {
    if packet.len() > 65_535 {
        return Ok(None);
    }
    let mut text = Buffer::<1024>::new(alloc)?;
    put_packet(&mut text, packet);
    Ok(Some(text.len()))
}
