//! Passing an outcome and the replies to the page.
ghost use Rattle.std.specs.Prelude.{◌≡◌, length};
ghost use Rattle.page.specs.Served.{outcome_number, kept_number, Handed};

use link_script::RunFault;

/// Returns the outcome as a number.
pub(crate) fn number_of(outcome: Result<(), RunFault>) -> u32
    ensures { result ≡ outcome_number outcome }
{
    match outcome {
        Ok(()) => 0,
        Err(RunFault::BadSizes) => 1,
        Err(RunFault::BadConfig) => 2,
        Err(RunFault::Memory) => 3,
        Err(RunFault::TooManyLines) => 4,
        Err(RunFault::Read) => 5,
        Err(RunFault::Write) => 6,
    }
}

/// Returns the outcome with a capture as a number. An incomplete capture counts as a failed write.
pub(crate) fn kept_number_of(whole: bool, outcome: Result<(), RunFault>) -> u32
    ensures { result ≡ kept_number whole outcome }
{
    if whole {
        number_of(outcome)
    } else {
        number_of(Err(RunFault::Write))
    }
}

/// Copies the bytes to the front of the buffer, if they fit; otherwise nothing. Returns their number.
pub(crate) fn hand_over(bytes: &[u8], buffer: &mut [u8]) -> usize
    ensures handed { Handed bytes.now buffer.old buffer.new }
    ensures len { result ≡ length bytes.now }
{
    if bytes.len() <= buffer.len() {
        buffer[..bytes.len()].copy_from_slice(bytes);
    }
    bytes.len()
}
