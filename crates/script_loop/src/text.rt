//! Numbers and bytes as replies print them.
ghost use Rattle.std.specs.Prelude.{◌≡◌, ◌+◌, ◌*◌, ◌≤◌, ◌++◌, length, decimal};
ghost use Rattle.flat_model.specs.Scripts.Texts.{hex_text};

use crate::buffer::Buffer;

/// Appends the digits of a number to the text, at most ten. There must be space for ten.
pub fn put_number<const N: usize>(text: &mut Buffer<N>, n: u32)
    requires { length text.old + 10 ≤ N }
    ensures items { text.new ≡ text.old ++ decimal n }
    ensures len { length text.new ≤ length text.old + 10 }
{
    let mut digits = itoa::Buffer::new();
    text.append(digits.format(n).as_bytes());
}

/// Appends two lower-case digits for each byte to the text, or a dash if there is no byte. There must be space for all
/// digits and one more byte. `digits` is scratch memory for them, and its contents are lost.
pub fn put_hex<const N: usize>(text: &mut Buffer<N>, digits: &mut [u8], bytes: &[u8])
    requires room { length text.old + 2 * length bytes.now + 1 ≤ N }
    requires digits { 2 * length bytes.now ≤ length digits.old }
    ensures items { text.new ≡ text.old ++ hex_text bytes.now }
    ensures len { length text.new ≤ length text.old + (2 * length bytes.now + 1) }
{
    if bytes.is_empty() {
        text.append(b"-");
        return;
    }
    let written = &mut digits[..2 * bytes.len()];
    let _ = hex::encode_to_slice(bytes, &mut *written);
    text.append(written);
}
