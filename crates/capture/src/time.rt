//! Times of packets.
ghost use Rattle.std.specs.Prelude.{◌≡◌};
ghost use Rattle.capture.specs.Packets.{nanoseconds_of};

/// Converts ticks to nanoseconds, at most 18,446,744,073,709,551,615.
pub(crate) fn nanoseconds(ticks: u64, ticks_per_second: u64) -> u64
    ensures { result ≡ nanoseconds_of ticks ticks_per_second }
{
    if ticks_per_second == 0 {
        return 0;
    }
    let time = u128::from(ticks) * 1_000_000_000 / u128::from(ticks_per_second);
    time.min(0xffff_ffff_ffff_ffff) as u64
}
