//! The fold of the Internet checksum (RFC 1071): a plain program, and the law that ties the definition to the
//! standard's words.
ghost use Rattle.std.specs.Prelude.{◌≡◌, ℕ, ◌+◌, ◌/◌, ◌%◌, ◌<◌};
ghost use Rattle.flat_model.specs.Packets.Checksum.{fold16, folded_sum};

/// Returns the folded sum of the words of `bytes`, adding one pair of bytes at a time, as RFC 1071 section 1 describes.
///
/// It is slow on purpose: faster programs are compared with it.
pub fn fold(bytes: &[u8]) -> u16
    ensures { result ≡ folded_sum bytes.now }
{
    let mut sum = 0u16;
    let mut rest = bytes;
    while let [high, low, after @ ..] = rest {
        sum = add_word(sum, u16::from_be_bytes([*high, *low]));
        rest = after;
    }
    match rest {
        [high, ..] => add_word(sum, u16::from_be_bytes([*high, 0])),
        [] => sum,
    }
}

/// One's complement addition: the carry out of 16 bits is added at the low end.
fn add_word(sum: u16, word: u16) -> u16
    ensures { result ≡ fold16 (sum + word) }
{
    let wide = u32::from(sum) + u32::from(word);
    ((wide & 0xffff) + (wide >> 16)) as u16
}

/// `fold16` is the result of adding a sum's part above 16 bits to its low 16 bits until it fits into 16 bits. Each such
/// step makes a sum of more than 16 bits smaller, so the two clauses have one solution.
pub fn fold_law()
    ensures carried { (sum : ℕ) → fold16 (sum / 65536 + sum % 65536) ≡ fold16 sum }
    ensures fits { (sum : ℕ) → sum < 65536 → fold16 sum ≡ sum }
{}
