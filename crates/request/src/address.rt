//! Addresses as words of a line.
ghost use Rattle.std.specs.Prelude.{◌≡◌, ℕ, ◌+◌, ◌≤◌, ◌++◌, MatchOption, length, decimal};
ghost use Rattle.flat_model.specs.Scripts.Grammar.{IsAddress, address_text};

use script_loop::Buffer;
use std::net::Ipv4Addr;

/// Parses an address.
pub fn address_of(word: &[u8]) -> Option<u32>
    ensures { MatchOption result ((ip : ℕ) → IsAddress word.now ip → ⊥) (λ ip. IsAddress word.now ip) }
{
    match Ipv4Addr::parse_ascii(word) {
        Ok(address) => Some(address.to_bits()),
        Err(_) => None,
    }
}

/// Appends one of the four numbers of an address to the text, at most three digits.
fn put_octet<const N: usize>(text: &mut Buffer<N>, n: u8)
    requires { length text.old + 3 ≤ N }
    ensures items { text.new ≡ text.old ++ decimal n }
    ensures len { length text.new ≤ length text.old + 3 }
{
    let mut digits = itoa::Buffer::new();
    text.append(digits.format(n).as_bytes());
}

/// Appends the four numbers of an address to the text, with dots between them. There must be space for 15 bytes.
pub fn put_address<const N: usize>(text: &mut Buffer<N>, ip: u32)
    requires { length text.old + 15 ≤ N }
    ensures items { text.new ≡ text.old ++ address_text ip }
    ensures len { length text.new ≤ length text.old + 15 }
{
    put_octet(text, (ip / 0x0100_0000) as u8);
    text.append(b".");
    put_octet(text, (ip / 0x0001_0000 % 0x0100) as u8);
    text.append(b".");
    put_octet(text, (ip / 0x0100 % 0x0100) as u8);
    text.append(b".");
    put_octet(text, (ip % 0x0100) as u8);
}
