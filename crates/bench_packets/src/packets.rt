//! What one packet or one send costs a stack.

use flat_model::{Addr, Config, Counter, Opt};
use net_stack::Stack;
use params::{IP_MAX_PACKET, MAX_MTU};
use std::alloc::Global;

/// The most bytes of a datagram.
const MOST: usize = 9216;

/// 10.0.0.1, 10.0.0.2 and 10.0.0.255.
const SENDER: u32 = 0x0a00_0001;

const RECEIVER: u32 = 0x0a00_0002;

const BROADCAST: u32 = 0x0a00_00ff;

/// The first socket of a stack. The others are numbered after it.
const SOCKET: u32 = 3;

/// The port of all sockets.
const PORT: u16 = 7;

/// The packets that the output queue of a stack holds.
const QUEUE: u32 = 50;

/// A stack with 4,096 mbufs and 512 clusters, and `sockets` sockets that share one port.
fn listening(alloc: Global, addr: u32, mtu: u16, sockets: u8) -> Option<Stack> {
    let config = Config {
        addr,
        bcast: BROADCAST,
        mtu,
        mbufs: 4096,
        clusters: 512,
        first_id: 1,
    };
    let mut stack = Stack::boot(alloc, config).ok()?;
    'sockets: for at in 0..sockets {
        let _ = stack.socket();
        let socket = SOCKET + u32::from(at);
        let _ = stack.setsockopt(socket, Opt::ReusePort, true);
        let _ = stack.bind(socket, Addr { ip: 0, port: PORT });
    }
    Some(stack)
}

/// The address of the receiver's sockets, or `None` after a `connect` to it.
fn destination_of(stack: &mut Stack, is_connected: bool) -> Option<Addr> {
    let to = Addr {
        ip: RECEIVER,
        port: PORT,
    };
    if !is_connected {
        return Some(to);
    }
    let _ = stack.connect(SOCKET, to);
    None
}

/// Passes all packets that wait in one stack to another.
fn carry(from: &mut Stack, to: &mut Stack, packet: &mut [u8; MAX_MTU as usize]) {
    'packets: for _ in 0..QUEUE {
        from.laws();
        let Some(len) = from.tx(packet) else {
            return;
        };
        to.rx(&packet[..len]);
    }
}

/// Sends from one stack, carries, and receives in the other, `times` times. Returns how often all succeeded.
fn exchange(
    sender: &mut Stack,
    receiver: &mut Stack,
    to: Option<Addr>,
    bytes: &[u8],
    times: u32,
) -> u32 {
    let mut packet = [0; MAX_MTU as usize];
    let mut buffer = [0; MOST];
    let mut well = 0u32;
    'turns: for _ in 0..times {
        let sent = sender.sendto(SOCKET, to, bytes);
        carry(sender, receiver, &mut packet);
        if sent.is_ok() && receiver.recvfrom(SOCKET, &mut buffer).is_ok() {
            well = well.saturating_add(1);
        }
    }
    well
}

/// Boots two stacks on a link with this MTU, and `times` times sends a datagram from one to the other and reads it
/// there. Returns how often all succeeded: `uint32_t bsdudp_exchange(const uint8_t *bytes, size_t len, uint16_t mtu,
/// bool is_connected, uint32_t times)`.
#[unsafe(no_mangle)]
pub extern "C" fn bsdudp_exchange(
    alloc: Global,
    bytes: &[u8],
    mtu: u16,
    is_connected: bool,
    times: u32,
) -> u32 {
    let Some(mut sender) = listening(alloc, SENDER, mtu, 1) else {
        return 0;
    };
    let Some(mut receiver) = listening(alloc, RECEIVER, mtu, 1) else {
        let _ = sender.end();
        return 0;
    };
    let to = destination_of(&mut sender, is_connected);
    let well = exchange(&mut sender, &mut receiver, to, bytes, times);
    let _ = sender.end();
    let _ = receiver.end();
    well
}

/// Boots a stack, and `times` times sends a datagram to its own socket and reads it there. Returns how often all
/// succeeded: `uint32_t bsdudp_loop_back(const uint8_t *bytes, size_t len, uint32_t times)`.
#[unsafe(no_mangle)]
pub extern "C" fn bsdudp_loop_back(alloc: Global, bytes: &[u8], times: u32) -> u32 {
    let Some(mut stack) = listening(alloc, RECEIVER, 1500, 1) else {
        return 0;
    };
    let to = destination_of(&mut stack, false);
    let mut buffer = [0; MOST];
    let mut well = 0u32;
    'turns: for _ in 0..times {
        let sent = stack.sendto(SOCKET, to, bytes);
        if sent.is_ok() && stack.recvfrom(SOCKET, &mut buffer).is_ok() {
            well = well.saturating_add(1);
        }
    }
    let _ = stack.end();
    well
}

/// Boots a stack and fills its output queue, and then `times` times sends a datagram to another host. Returns how often
/// the send failed: `uint32_t bsdudp_send_refused(const uint8_t *bytes, size_t len, uint32_t times)`.
#[unsafe(no_mangle)]
pub extern "C" fn bsdudp_send_refused(alloc: Global, bytes: &[u8], times: u32) -> u32 {
    let Some(mut stack) = listening(alloc, SENDER, 1500, 1) else {
        return 0;
    };
    let to = destination_of(&mut stack, false);
    'fill: for _ in 0..QUEUE {
        let _ = stack.sendto(SOCKET, to, bytes);
    }
    let mut refused = 0u32;
    'turns: for _ in 0..times {
        if stack.sendto(SOCKET, to, bytes).is_err() {
            refused = refused.saturating_add(1);
        }
    }
    let _ = stack.end();
    refused
}

/// Boots a stack with `sockets` sockets that share a port, and `times` times a packet arrives, which all sockets read
/// if they get it; `before` packets arrive first and aren't read. Returns how many datagrams were read, or if none was,
/// how many of the `times` packets were dropped: `uint32_t bsdudp_receive(const uint8_t *packet, size_t len, uint8_t
/// sockets, uint32_t before, bool is_read, uint32_t times)`.
#[unsafe(no_mangle)]
pub extern "C" fn bsdudp_receive(
    alloc: Global,
    packet: &[u8],
    sockets: u8,
    before: u32,
    is_read: bool,
    times: u32,
) -> u32 {
    if packet.len() > IP_MAX_PACKET as usize {
        return 0;
    }
    let Some(mut stack) = listening(alloc, RECEIVER, 1500, sockets) else {
        return 0;
    };
    'before: for _ in 0..before {
        stack.rx(packet);
    }
    let had = stack.counter(Counter::IpTotal);
    let mut buffer = [0; MOST];
    let readers = if is_read { sockets } else { 0 };
    let mut read = 0u32;
    'turns: for _ in 0..times {
        stack.rx(packet);
        'sockets: for at in 0..readers {
            if stack.recvfrom(SOCKET + u32::from(at), &mut buffer).is_ok() {
                read = read.saturating_add(1);
            }
        }
    }
    let came = stack.counter(Counter::IpTotal).wrapping_sub(had) % 4_294_967_296;
    let _ = stack.end();
    if is_read { read } else { came as u32 }
}
