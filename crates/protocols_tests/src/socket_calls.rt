//! Calls and their results, on sockets of 10.0.0.1 and broadcast address 10.0.0.255. They were worked out by hand.
mod host;
mod steps;

use flat_model::{Addr, Errno};
use steps::Step::{Bind, Close, Connect, Free, Receive, Send, Socket, Sockets, Tx};
use steps::{Step, play};

const HERE: u32 = 0x0a00_0001;

const BROADCAST: u32 = 0x0a00_00ff;

/// Another host.
const THERE: u32 = 0x0a00_0002;

/// 127.0.0.1.
const LOOPBACK: u32 = 0x7f00_0001;

/// The ports 7 and 9 of the other host.
const ECHO: Addr = Addr { ip: THERE, port: 7 };

const NEAR: Addr = Addr { ip: THERE, port: 9 };

static CALLS: [(&str, &[Step]); 3] = [
    // The lowest free descriptor is returned, 3 to 66.
    (
        "64 sockets",
        &[
            Sockets(66),
            Socket(Err(Errno::TooManyFiles)),
            Close(5, Ok(())),
            Socket(Ok(5)),
            Socket(Err(Errno::TooManyFiles)),
        ],
    ),
    // Another socket has port 7 and the peer's port 9.
    (
        "another socket's refusals in order",
        &[
            Socket(Ok(3)),
            Bind(3, HERE, 7, Ok(())),
            Bind(3, 0, 8, Err(Errno::Invalid)),
            Connect(3, THERE, 9, Ok(())),
            Send(3, Some(NEAR), b"a", Err(Errno::IsConnected)),
            Socket(Ok(4)),
            Bind(4, 0, 7, Err(Errno::AddressInUse)),
            Bind(4, 0x0a00_0009, 7, Err(Errno::AddressNotAvailable)),
            Bind(4, LOOPBACK, 7, Ok(())),
            Send(
                4,
                Some(Addr {
                    ip: BROADCAST,
                    ..NEAR
                }),
                b"a",
                Err(Errno::Access),
            ),
            Send(
                4,
                Some(Addr {
                    ip: LOOPBACK + 1,
                    ..NEAR
                }),
                b"a",
                Err(Errno::HostUnreachable),
            ),
            Connect(4, LOOPBACK + 1, 9, Err(Errno::HostUnreachable)),
            Connect(4, THERE, 9, Ok(())),
            // Its local address is cleared, so that it would be 10.0.0.1, port 7.
            Connect(4, THERE, 9, Err(Errno::AddressInUse)),
            Send(4, None, b"a", Err(Errno::DestinationRequired)),
            Receive(3, Errno::WouldBlock),
            Free(8),
        ],
    ),
    // The packet is "hi" from 10.0.0.1 port 1024 to 10.0.0.2 port 7, identification 1.
    (
        "a refused connect leaves the socket unconnected",
        &[
            Socket(Ok(3)),
            Connect(3, THERE, 7, Ok(())),
            Connect(3, THERE, 0, Err(Errno::AddressNotAvailable)),
            Send(3, None, b"hi", Err(Errno::DestinationRequired)),
            Send(3, Some(ECHO), b"hi", Ok(2)),
            Free(7),
            Tx(
                b"\x45\x00\x00\x1e\x00\x01\x00\x00\x40\x11\x66\xcc\x0a\x00\x00\x01\x0a\x00\x00\x02\
                \x04\x00\x00\x07\x00\x0a\x7f\x67hi",
            ),
            Free(8),
        ],
    ),
];

#[test]
fn calls_and_their_answers(rt: HostRuntime) {
    for (case, steps) in CALLS.iter() {
        assert!(rt; play(&rt, rt.alloc(), case, steps), "{case}");
    }
}
