//! Which ephemeral port is chosen next.
ghost use Rattle.std.specs.Prelude.{◌≡◌, ℕ, ◌<◌, ◌≤◌, true, IfNone, IfSome};
ghost use Rattle.std.specs.Option.{ForSome};
ghost use Rattle.flat_model.specs.Machine.Calls as Calls;
ghost use Rattle.flat_plain.specs.Ports.{ports_state};

use crate::lookup::{Pcb, best};
use flat_model::LookupKey;
use params::{FIRST_EPHEMERAL_PORT, LAST_EPHEMERAL_PORT};

/// The number of ports in the circle.
const CIRCLE: u16 = LAST_EPHEMERAL_PORT - FIRST_EPHEMERAL_PORT + 1;

/// Returns whether a lookup with wildcards finds a socket with this local address and port.
fn is_in_use(pcbs: &[Pcb], last: Option<u16>, local: Option<u32>, port: u16) -> bool
    ensures { result ≡ Calls.is_in_use (ports_state pcbs.now last) local port }
{
    best(
        LookupKey {
            local,
            port: Some(port),
            peer: None,
        },
        pcbs,
    )
    .is_some()
}

/// Returns the k-th port after the last one chosen.
fn port_after(last: Option<u16>, k: u16) -> u16
    requires known { ForSome last (λ p. FIRST_EPHEMERAL_PORT ≤ p) }
    requires small { ForSome last (λ p. p ≤ LAST_EPHEMERAL_PORT) }
    requires turns { k < CIRCLE }
    ensures { result ≡ Calls.port_after last k }
{
    match last {
        None => FIRST_EPHEMERAL_PORT + k % CIRCLE,
        Some(port) => FIRST_EPHEMERAL_PORT + (port - FIRST_EPHEMERAL_PORT + 1 + k) % CIRCLE,
    }
}

/// Returns the next ephemeral port for a socket with this local address, after the port `last`. Returns `None` if the
/// whole circle is in use, which 64 sockets can't cause.
pub fn next_port(pcbs: &[Pcb], last: Option<u16>, local: Option<u32>) -> Option<u16>
    requires known { ForSome last (λ p. FIRST_EPHEMERAL_PORT ≤ p) }
    requires small { ForSome last (λ p. p ≤ LAST_EPHEMERAL_PORT) }
    ensures found { IfSome result (λ port. Calls.IsNextPort (ports_state pcbs.now last) local port) }
    ensures none { IfNone result ((k : ℕ) → k < CIRCLE →
        Calls.is_in_use (ports_state pcbs.now last) local (Calls.port_after last k) ≡ true) }
{
    for k in 0..CIRCLE {
        let port = port_after(last, k);
        if !is_in_use(pcbs, last, local, port) {
            return Some(port);
        }
    }
    None
}
