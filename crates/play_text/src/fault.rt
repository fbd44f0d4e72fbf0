//! Messages about a wrong line.
ghost use Rattle.std.specs.Prelude.{◌≡◌, ◌+◌, ◌*◌, ◌≤◌, ◌++◌, length};
ghost use Rattle.play_text.specs.Texts.{fault_text, line_error_text, spot_fault};

use crate::colour::{ENDED, RED};
use crate::form::Form;
use crate::piece::Piece::{Either, Long, Maybe, Quoted, Text};
use crate::piece::put;
use play_line::SyntaxError;
use script_loop::Buffer;

/// The position of a line in a script, or of a byte in the line.
#[derive(Clone, Copy)]
struct Spot<'a> {
    name: &'a [u8],
    number: u64,
    column: Option<u64>,
}

/// Appends the message about a line, or about a byte of it, in this form.
fn put_spot_fault<'a, const N: usize>(
    text: &mut Buffer<N>,
    form: Form,
    spot: &'a Spot<'a>,
    what: &'a [u8],
)
    requires { length text.old + (6 * (length spot.now.name.now + length what.now) + 128) ≤ N }
    ensures { text.new
        ≡ text.old ++ spot_fault form spot.now.name.now spot.now.number spot.now.column what.now }
{
    if form.is_json() {
        put(
            text,
            &[
                Text(b"{\"number\":"),
                Long(spot.number),
                Text(b",\"file\":"),
                Quoted(spot.name),
                Text(b",\"column\":"),
                Maybe(spot.column, b"null"),
                Text(b",\"fault\":"),
                Quoted(what),
                Text(b"}\n"),
            ],
        );
    } else {
        let colours = form.is_coloured();
        put(
            text,
            &[
                Either(colours, RED, b""),
                Text(spot.name),
                Text(b":"),
                Long(spot.number),
                Either(spot.column.is_some(), b":", b""),
                Maybe(spot.column, b""),
                Text(b": "),
                Text(what),
                Either(colours, ENDED, b""),
                Text(b"\n"),
            ],
        );
    }
}

/// Appends the message about a line of a script, in this form: the script's name, the line's number, and the error.
/// There must be space for six bytes for each byte of both texts, and for 128 more.
pub fn put_fault<const N: usize>(
    text: &mut Buffer<N>,
    form: Form,
    name: &[u8],
    number: u64,
    what: &[u8],
)
    requires { length text.old + (6 * (length name.now + length what.now) + 128) ≤ N }
    ensures { text.new ≡ text.old ++ fault_text form name.now number what.now }
{
    let spot = Spot {
        name,
        number,
        column: None,
    };
    put_spot_fault(text, form, &spot, what);
}

/// Appends the message about the bytes of a line, in this form: the script's name, the line's number, the column and
/// the error. There must be space for six bytes for each byte of the name, and for 512 more.
pub fn put_error<const N: usize>(
    text: &mut Buffer<N>,
    form: Form,
    name: &[u8],
    number: u64,
    error: SyntaxError,
)
    requires { length text.old + (6 * length name.now + 512) ≤ N }
    ensures { text.new ≡ text.old ++ line_error_text form name.now number error }
{
    let spot = Spot {
        name,
        number,
        column: Some(error.column),
    };
    put_spot_fault(text, form, &spot, error.fault.words().as_bytes());
}
