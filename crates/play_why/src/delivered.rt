//! To which ports a packet's datagram was delivered.
ghost use Rattle.std.specs.Prelude.{◌≡◌, ◌+◌};
ghost use Rattle.net_stack.specs.Stack.{state_of};
ghost use Rattle.play_why.specs.Findings as findings;

use flat_model::Errno;
use net_stack::{NextDatagram, SocketName, Stack};
use params::{FIRST_DESCRIPTOR, MAX_SOCKETS};

/// How many sockets there can be.
const SOCKETS: usize = MAX_SOCKETS as usize;

/// A datagram that was delivered.
#[derive(Clone, Copy, Debug, PartialEq, Eq)]
pub struct Delivered {
    /// The port to which its socket is bound.
    pub port: u16,
    /// How many bytes it carries.
    pub len: u32,
}

/// Returns the port of a socket, or 0 if it has none.
fn port_of(port: Option<u16>) -> u16
    ensures { result ≡ findings.port_of port }
{
    match port {
        Some(port) => port,
        None => 0,
    }
}

/// Returns the datagram that waits in a socket with this name, if there is one.
fn delivered_in(
    name: Result<SocketName, Errno>,
    next: Result<NextDatagram, Errno>,
) -> Option<Delivered>
    ensures { result ≡ findings.delivered_in name next }
{
    match (name, next) {
        (Ok(name), Ok(next)) => Some(Delivered {
            port: port_of(name.port),
            len: next.len,
        }),
        (Ok(_), Err(_)) => None,
        (Err(_), _) => None,
    }
}

/// Returns the datagram that waits in the socket of a descriptor, if there is one.
fn delivered_at(machine: &Stack, fd: u32) -> Option<Delivered>
    ensures { result ≡ findings.delivered_at fd (state_of machine.now) }
{
    delivered_in(machine.socket_name(fd), machine.next_datagram(fd))
}

/// Returns the datagrams that wait in the sockets, that of descriptor 3 first.
pub(crate) fn deliveries_of(machine: &Stack) -> [Option<Delivered>; SOCKETS]
    ensures { findings.AreDeliveries (state_of machine.now) result }
{
    let mut delivered = [None; SOCKETS];
    'places: for place in 0..SOCKETS {
        delivered[place] = delivered_at(machine, FIRST_DESCRIPTOR + place as u32);
    }
    delivered
}
