//! The error codes for C: the negative of 4.4BSD's error number.
ghost use Rattle.std.specs.Prelude.{◌≡◌};
ghost use Rattle.libbsdudp.specs.Answers.{count_code, done_code, is_queue_full, refusal_code};

use flat_model::{Errno, Lack};

/// ENXIO: the handle holds no stack; for boot, that it holds one already.
pub(crate) const NO_STACK: i32 = -6;

/// ENOMEM: an allocation failed.
pub(crate) const NO_MEMORY: i32 = -12;

/// EINVAL: for boot, a configuration that no host can have; for a counter, a number that no counter has.
pub(crate) const INVALID: i32 = -22;

/// EDOM: sizes that no pool can have.
pub(crate) const BAD_SIZES: i32 = -33;

/// EOPNOTSUPP: the stack has no link.
pub(crate) const NO_LINK: i32 = -45;

/// EADDRINUSE: another host has the address.
pub(crate) const IN_USE: i32 = -48;

/// ECONNREFUSED, as an error that another host reported: no socket receives a datagram there.
pub(crate) const CONNECTION_REFUSED: i32 = 61;

/// EHOSTUNREACH, likewise: no route leads there.
pub(crate) const HOST_UNREACHABLE: i32 = 65;

/// EMSGSIZE: a packet above the maximum length, or a buffer shorter than the longest packet.
pub(crate) const BAD_LENGTH: i32 = -40;

/// ENOBUFS of the output queue.
const QUEUE_FULL: i32 = -155;

/// Whether the output queue was full.
fn is_queue_full(errno: Errno) -> bool
    ensures { result ≡ is_queue_full errno }
{
    matches!(errno, Errno::NoBufs(Lack::Queue))
}

/// Returns the error code of a failed call. ENOBUFS of the pool is -55, and ENOBUFS of the output queue -155, because
/// they leave different states.
pub(crate) fn refused(errno: Errno) -> i32
    ensures { result ≡ refusal_code errno }
{
    if is_queue_full(errno) {
        QUEUE_FULL
    } else {
        -i32::from(errno.number())
    }
}

/// Returns the result of a call that only succeeds or fails.
pub(crate) fn done(answer: Result<(), Errno>) -> i32
    ensures { result ≡ done_code answer }
{
    match answer {
        Ok(()) => 0,
        Err(errno) => refused(errno),
    }
}

/// Returns a count as C has it. It would stop at 2 ^ 31 - 1, and no count comes near that.
pub(crate) fn count(n: usize) -> i32
    ensures { result ≡ count_code n }
{
    n.min(i32::MAX as usize) as i32
}
