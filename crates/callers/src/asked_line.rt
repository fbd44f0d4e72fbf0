//! The request of a line.
ghost use Rattle.std.specs.Prelude.{◌≡◌, length};
ghost use Rattle.params.specs.declared.TheConstants.{IP_MAX_PACKET};

use request::{Request, request_of};

/// Returns how many bytes a line sends, and decodes them into `buffer`. Returns `None` if the line sends none.
pub fn sent_len(line: &[u8], buffer: &mut [u8]) -> Option<usize>
    requires { length buffer.old ≡ IP_MAX_PACKET }
{
    match request_of(line, buffer) {
        Some(Request::Send(_, _, bytes)) => Some(bytes.len()),
        _ => None,
    }
}
