//! JSON strings, with escapes.
ghost use Rattle.std.specs.Prelude.{◌≡◌, ◌+◌, ◌*◌, ◌/◌, ◌%◌, ◌≤◌, ◌++◌, [], ◌∷◌, length};
ghost use Rattle.std.specs.Char.{digit_char};
ghost use Rattle.play_text.specs.Strings.{code_text, escaped_byte, string_text};

use script_loop::Buffer;

/// Returns the two hexadecimal digits of a byte, in lower case.
fn digits(byte: u8) -> [u8; 2]
    ensures { result ≡ digit_char (byte / 16) ∷ digit_char (byte % 16) ∷ [] }
{
    let mut digits = [0; 2];
    let _ = hex::encode_to_slice(&[byte], &mut digits);
    digits
}

/// Appends the escape for a byte's number.
fn put_code<const N: usize>(text: &mut Buffer<N>, byte: u8)
    requires { length text.old + 6 ≤ N }
    ensures items { text.new ≡ text.old ++ code_text byte }
    ensures len { length text.new ≤ length text.old + 6 }
{
    text.append(b"\\u00");
    text.append(&digits(byte));
}

/// Appends a byte as it is represented in a string.
fn put_byte<const N: usize>(text: &mut Buffer<N>, byte: u8)
    requires { length text.old + 6 ≤ N }
    ensures items { text.new ≡ text.old ++ escaped_byte byte }
    ensures len { length text.new ≤ length text.old + 6 }
{
    if byte == b'"' || byte == b'\\' {
        text.append(&[b'\\', byte]);
    } else if byte < 0x20 || byte > 0x7e {
        put_code(text, byte);
    } else {
        text.push(byte);
    }
}

/// Appends a JSON string (RFC 8259 section 7). Each byte is the character with its number, 0 to 255. Characters outside
/// ASCII are written as `\u00` and two digits, so a reader restores all bytes by encoding the string as Latin-1. There
/// must be space for six bytes for each byte, and for the two quotes.
pub(crate) fn put_string<const N: usize>(text: &mut Buffer<N>, bytes: &[u8])
    requires { length text.old + (6 * length bytes.now + 2) ≤ N }
    ensures items { text.new ≡ text.old ++ string_text bytes.now }
    ensures len { length text.new ≤ length text.old + (6 * length bytes.now + 2) }
{
    text.push(b'"');
    for byte in bytes {
        put_byte(text, *byte);
    }
    text.push(b'"');
}
