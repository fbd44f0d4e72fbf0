//! A host that sends each datagram back to its sender.
ghost use Rattle.std.specs.Prelude.{◌≡◌, ◌≢◌, Err, IfOk, IfSome, Some, length};
ghost use Rattle.flat_model.specs.Machine.Send.{need_to, target};
ghost use Rattle.flat_model.specs.Machine.State.{IsConfig, Socket, boot, socket_at};
ghost use Rattle.flat_model.specs.Runs.Isolation.{PoolHasRoom};
ghost use Rattle.flat_model.specs.declared.config.Config.{Config};
ghost use Rattle.flat_model.specs.declared.errno.Errno.TheVariants.{NoBufs};
ghost use Rattle.flat_model.specs.declared.errno.Lack.TheVariants.{Pool};
ghost use Rattle.callers.specs.Limited.{IsOpenedWithLimit};
ghost use Rattle.net_stack.specs.Isolation.{IsLimited};
ghost use Rattle.net_stack.specs.Stack.{state_of};

use flat_model::{Addr, Config, Errno};
use net_stack::{BootFault, Stack, stacks_isolate_sockets};
use std::alloc::Global;

/// The host 10.0.0.1 of the network 10.0.0.0/24.
const HOST: Config = Config {
    addr: 0x0a00_0001,
    bcast: 0x0a00_00ff,
    mtu: 1500,
    mbufs: 512,
    clusters: 64,
    first_id: 1,
};

/// The longest datagram.
const LONGEST: usize = 9216;

/// Opens a socket on port 7, passes a packet to the stack, and sends the datagram in it back, if there is one. Bytes
/// after the packet's own length are ignored. If a call fails, this function returns its error, by `?`.
fn serve(stack: &mut Stack, packet: &[u8; 1500]) -> Result<usize, Errno> {
    let fd = stack.socket()?;
    stack.bind(fd, Addr { ip: 0, port: 7 })?;
    stack.rx(packet);
    let mut buffer = [0; LONGEST];
    let (sender, len) = stack.recvfrom(fd, &mut buffer)?;
    stack.sendto(fd, Some(sender), &buffer[..len])
}

/// Boots the host, lets it serve a packet, and copies the first packet that it sends into `link`. Returns the length of
/// that packet.
///
/// A stack must be consumed by `end`. So there is no `?` between `boot` and `end`: the calls that may fail are in a
/// function of their own, which borrows the stack.
pub fn answer(
    alloc: Global,
    packet: &[u8; 1500],
    link: &mut [u8; 4352],
) -> Result<Option<usize>, BootFault> {
    let mut stack = Stack::boot(alloc, HOST)?;
    let sent = match serve(&mut stack, packet) {
        Ok(_) => {
            stack.laws();
            stack.tx(link)
        }
        Err(_) => None,
    };
    let _ = stack.end();
    Ok(sent)
}

/// The size of the receive queue of the socket that `open_limited` opens.
const LIMIT: u16 = 4096;

/// Opens the first socket of a stack, with a receive limit, on port 7.
fn open_limited(stack: &mut Stack) -> Result<u32, Errno>
    requires boots { IsConfig HOST }
    requires starts { state_of stack.old ≡ boot HOST }
    ensures { IfOk result (λ fd. IsOpenedWithLimit fd stack.new) }
{
    let fd = stack.socket()?;
    stack.set_receive_limit(fd, LIMIT)?;
    stack.bind(fd, Addr { ip: 0, port: 7 })?;
    Ok(fd)
}

/// Boots the host, opens a socket with a receive limit, and sends four bytes to an address. The send isn't refused for
/// lack of buffers: the limit and the host's pool meet the conditions of `send_beside`. `None` if the socket can't be
/// opened.
pub fn send_first(
    alloc: Global,
    to: Addr,
    bytes: &[u8; 4],
) -> Result<Option<Result<usize, Errno>>, BootFault>
    ensures { IfOk result (λ sent. IfSome sent (λ answer. answer ≢ Err (NoBufs Pool))) }
{
    let mut stack = Stack::boot(alloc, HOST)?;
    let sent = match open_limited(&mut stack) {
        Ok(fd) => Some(send_beside(&mut stack, fd, to, bytes)),
        Err(_) => None,
    };
    let _ = stack.end();
    Ok(sent)
}

/// Sends to an address by an open socket. Each limit was set while that socket's queue was empty. The pool has room for
/// what the limits of all sockets allow, for the packets in the output queue, and for this send. So the send isn't
/// refused for lack of buffers, whatever has arrived.
pub fn send_beside(stack: &mut Stack, fd: u32, to: Addr, bytes: &[u8]) -> Result<usize, Errno>
    requires limited { (config : Config) × IsLimited config stack.old }
    requires room { (me : Socket) × (socket_at fd (state_of stack.old) ≡ Some me)
        × PoolHasRoom (need_to (state_of stack.old).config (target (state_of stack.old) me (Some to)).ip
        (length bytes.now)) (state_of stack.old) }
    ensures { result ≢ Err (NoBufs Pool) }
{
    stacks_isolate_sockets();
    stack.sendto(fd, Some(to), bytes)
}
