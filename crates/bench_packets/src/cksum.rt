//! The sums of in_cksum that `bench/cksum` times.

ghost use Rattle.std.specs.Prelude.{◌≡◌, ◌++◌};
ghost use Rattle.flat_model.specs.Packets.Checksum.{checksum, folded_sum};

use in_cksum::{Sum, sum_slice};

/// The folded sum of the bytes' words: `uint16_t bsdudp_sum_slice(const uint8_t *bytes, size_t len)`.
#[unsafe(no_mangle)]
pub extern "C" fn bsdudp_sum_slice(bytes: &[u8]) -> u16
    ensures { result ≡ folded_sum bytes.now }
{
    sum_slice(bytes)
}

/// The checksum of one piece: `uint16_t bsdudp_checksum(const uint8_t *bytes, size_t len)`.
#[unsafe(no_mangle)]
pub extern "C" fn bsdudp_checksum(bytes: &[u8]) -> u16
    ensures { result ≡ checksum bytes.now }
{
    let mut sum = Sum::new();
    sum.add(bytes);
    sum.finish()
}

/// The checksum of two pieces, one after the other: `uint16_t bsdudp_checksum_of_two(const uint8_t *front,
/// size_t front_len, const uint8_t *back, size_t back_len)`.
#[unsafe(no_mangle)]
pub extern "C" fn bsdudp_checksum_of_two(front: &[u8], back: &[u8]) -> u16
    ensures { result ≡ checksum (front.now ++ back.now) }
{
    let mut sum = Sum::new();
    sum.add(front);
    sum.add(back);
    sum.finish()
}
