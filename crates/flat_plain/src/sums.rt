//! The Internet checksum, with the fold of `flat_model`'s plain program.
ghost use Rattle.std.specs.Prelude.{◌≡◌};
ghost use Rattle.flat_model.specs.Packets.Checksum as Checksum;

use flat_model::fold;

/// Returns the checksum of bytes that contain 0 in the checksum field.
pub fn checksum(bytes: &[u8]) -> u16
    ensures { result ≡ Checksum.checksum bytes.now }
{
    65_535 - fold(bytes)
}
