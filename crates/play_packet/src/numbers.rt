//! Parsing numbers and bytes.
ghost use Rattle.std.specs.Prelude.{◌≡◌, ◌≤◌, length, IfSome};
ghost use Rattle.params.specs.declared.TheConstants.{IP_MAX_PACKET};
ghost use Rattle.play_packet.specs.Numbers as numbers;

use script_loop::{bytes, number};

/// Parses a number of at most `most`, in exactly the form in which it is printed.
pub(crate) fn number_in(word: &[u8], most: u32) -> Option<u32>
    requires { most ≤ 65535 }
    ensures is { result ≡ numbers.number_in most word.now }
    ensures most { IfSome result (λ n. n ≤ most) }
{
    number(word, most)
}

/// Decodes a word into `buffer`, and returns the number of bytes.
pub(crate) fn bytes_in(word: &[u8], buffer: &mut [u8]) -> Option<usize>
    requires { length buffer.old ≡ IP_MAX_PACKET }
    ensures is { numbers.front_of_room buffer.new result ≡ numbers.word_bytes word.now }
    ensures most { IfSome result (λ n. n ≤ IP_MAX_PACKET) }
    ensures len { length buffer.new ≡ IP_MAX_PACKET }
{
    bytes(word, buffer)
}
