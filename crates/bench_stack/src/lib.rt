//! A datagram from one stack to another, and from a stack to itself: `bench/stack` calls it from C. It's a separate
//! library, because the code that is compiled together decides what is inlined: it has only what a program with a
//! `Stack` has. No other crate depends on this one.
#![tactic(auto)]

ghost use Rattle.std.specs.Prelude.{◌≤◌};

use flat_model::{Addr, Config};
use net_stack::Stack;
use params::{MAX_CLUSTERS, MAX_MTU, UDP_HEADER};
use std::alloc::Global;

/// How many bytes a packet carries at most on a link of 1,500 bytes.
const CHUNK: usize = 1480;

/// The most bytes of a datagram.
const MOST: usize = 9216;

/// 10.0.0.1 and 10.0.0.2.
const SENDER: u32 = 0x0a00_0001;

const RECEIVER: u32 = 0x0a00_0002;

/// How many mbufs a stack has if its caller doesn't set them.
const MBUFS: u32 = 512;

/// The first socket of a stack, and its port. The others are numbered after it.
const SOCKET: u32 = 3;

const PORT: u16 = 7;

/// A stack with `mbufs` mbufs, an eighth of that number of clusters, and `sockets` sockets, each on a port of its own.
fn listening(alloc: Global, addr: u32, mbufs: u32, sockets: u8) -> Option<Stack> {
    let config = Config {
        addr,
        bcast: 0x0a00_00ff,
        mtu: 1500,
        mbufs,
        clusters: (mbufs / 8).min(MAX_CLUSTERS),
        first_id: 1,
    };
    let mut stack = Stack::boot(alloc, config).ok()?;
    'sockets: for at in 0..sockets {
        let port = PORT + u16::from(at);
        let _ = stack.socket();
        let _ = stack.bind(SOCKET + u32::from(at), Addr { ip: 0, port });
    }
    Some(stack)
}

/// A packet in flight.
type Packet = [u8; MAX_MTU as usize];

/// How many packets a datagram of `len` bytes needs.
fn packets_of(len: usize) -> usize {
    len.saturating_add(UDP_HEADER as usize).div_ceil(CHUNK)
}

/// Passes `packets` packets that wait in one stack to another.
fn carry(from: &mut Stack, to: &mut Stack, packet: &mut Packet, packets: usize) {
    'packets: for _ in 0..packets {
        from.laws();
        let Some(len) = from.tx(packet) else {
            break;
        };
        to.rx(&packet[..len]);
    }
}

/// Whether a datagram of `len` bytes waits in a socket; it's read into `buffer`.
fn has_received(stack: &mut Stack, socket: u32, len: usize, buffer: &mut [u8]) -> bool {
    match stack.recvfrom(socket, buffer) {
        Ok((_, read)) => read == len,
        Err(_) => false,
    }
}

/// Sends from the first socket, carries, and receives in the socket `at` places after the first, `times` times. Returns
/// how often all bytes arrived.
fn exchange(sender: &mut Stack, receiver: &mut Stack, at: u8, bytes: &[u8], times: u32) -> u32
    ensures { result ≤ times }
{
    let socket = SOCKET + u32::from(at);
    let to = Addr {
        ip: RECEIVER,
        port: PORT + u16::from(at),
    };
    let mut packet = [0; MAX_MTU as usize];
    let mut buffer = [0; MOST];
    let packets = packets_of(bytes.len());
    let mut well = 0;
    'turns: for _ in 0..times {
        let sent = sender.sendto(SOCKET, Some(to), bytes);
        carry(sender, receiver, &mut packet, packets);
        if sent.is_ok() && has_received(receiver, socket, bytes.len(), &mut buffer) {
            well += 1;
        }
    }
    well
}

/// Boots two stacks with `mbufs` mbufs and `sockets` sockets, and `times` times sends a datagram from the oldest socket
/// of one to the socket `at` of the other (0 is the oldest) and reads it there. Returns how often all of it arrived:
/// `uint32_t bsdudp_send_and_receive(const uint8_t *bytes, size_t len, uint32_t mbufs, uint8_t sockets, uint8_t at,
/// uint32_t times)`.
#[unsafe(no_mangle)]
pub extern "C" fn bsdudp_send_and_receive(
    alloc: Global,
    bytes: &[u8],
    mbufs: u32,
    sockets: u8,
    at: u8,
    times: u32,
) -> u32
    ensures { result ≤ times }
{
    let Some(mut sender) = listening(alloc, SENDER, mbufs, sockets) else {
        return 0;
    };
    let Some(mut receiver) = listening(alloc, RECEIVER, mbufs, sockets) else {
        let _ = sender.end();
        return 0;
    };
    let well = exchange(&mut sender, &mut receiver, at, bytes, times);
    let _ = sender.end();
    let _ = receiver.end();
    well
}

/// Boots a stack, and `times` times sends a datagram to its own socket and reads it there. Returns how often all of it
/// arrived: `uint32_t bsdudp_send_to_itself(const uint8_t *bytes, size_t len, uint32_t times)`.
#[unsafe(no_mangle)]
pub extern "C" fn bsdudp_send_to_itself(alloc: Global, bytes: &[u8], times: u32) -> u32
    ensures { result ≤ times }
{
    let Some(mut stack) = listening(alloc, SENDER, MBUFS, 1) else {
        return 0;
    };
    let to = Addr {
        ip: SENDER,
        port: PORT,
    };
    let mut buffer = [0; MOST];
    let mut well = 0;
    'turns: for _ in 0..times {
        let sent = stack.sendto(SOCKET, Some(to), bytes);
        if sent.is_ok() && has_received(&mut stack, SOCKET, bytes.len(), &mut buffer) {
            well += 1;
        }
    }
    let _ = stack.end();
    well
}
