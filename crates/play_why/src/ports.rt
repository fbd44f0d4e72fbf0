//! The sockets of the machine: one for each destination port in a capture.
ghost use Rattle.std.specs.Prelude.{◌≡◌, ◌==◌, ◌≤◌, filter, not, IfOk, IfSome, length, true};
ghost use Rattle.params.specs.declared.TheConstants.{IP_MAX_PACKET, IP_UDP_HEADERS};
ghost use Rattle.flat_model.specs.Machine.Event.{Bind, Open};
ghost use Rattle.flat_model.specs.Machine.Replies.{done_reply, opened_reply};
ghost use Rattle.net_stack.specs.Stack.{state_of};
ghost use Rattle.play_why.specs.Sockets as sockets;
ghost use Rattle.stack_call.specs.Moves.{StackSteps};

use flat_model::{Addr, Errno};
use flat_plain::u16_at;
use net_stack::Stack;
use params::{IP_UDP_HEADERS, PROTOCOL_UDP};
use std::alloc::{AllocError, Global};

/// How many ports are bound at the same time. For one more, the port that was bound first is closed.
const MOST_PORTS: usize = 60;

/// A port, and the descriptor of the socket that is bound to it.
#[derive(Clone, Copy)]
struct Bound {
    fd: u32,
    port: u16,
}

/// The ports that are bound, and their sockets.
#[derive(Drop)]
pub(crate) struct Ports {
    /// In the order in which they were bound.
    bound: Vec<Bound>,
    /// The only port that may be bound, if the caller chose one.
    only: Option<u16>,
}

/// Returns the destination port of a packet that carries the first bytes of a UDP datagram.
pub(crate) fn port_in(packet: &[u8]) -> Option<u16>
    ensures is { result ≡ sockets.front_port packet.now }
    ensures least { IfSome result (λ port. IP_UDP_HEADERS ≤ length packet.now) }
{
    if packet.len() < IP_UDP_HEADERS as usize || packet[0] != 69 || packet[9] != PROTOCOL_UDP {
        return None;
    }
    if u16_at(packet, 6) % 8192 != 0 {
        return None;
    }
    Some(u16_at(packet, 22))
}

/// Opens a socket.
#[tactic(auto, unfolding(stack_call::specs::Moves::StackSteps))]
fn open(machine: &mut Stack) -> Result<u32, Errno>
    ensures { StackSteps (state_of machine.old) Open (opened_reply result) (state_of machine.new) }
{
    machine.socket()
}

/// Binds a socket to a port.
#[tactic(auto, unfolding(stack_call::specs::Moves::StackSteps))]
fn bind(machine: &mut Stack, fd: u32, port: u16) -> Result<(), Errno>
    ensures { StackSteps (state_of machine.old) (Bind fd (record { ip = 0; port = port })) (done_reply result)
        (state_of machine.new) }
{
    machine.bind(fd, Addr { ip: 0, port })
}

/// Closes a socket.
#[tactic(auto, unfolding(stack_call::specs::Moves::StackSteps))]
fn close(machine: &mut Stack, fd: u32)
    ensures { sockets.ClosesSocket fd (state_of machine.old) (state_of machine.new) }
{
    let _closed = machine.close(fd);
}

/// Reads the next datagram of a socket.
#[tactic(auto, unfolding(stack_call::specs::Moves::StackSteps))]
fn take(machine: &mut Stack, fd: u32, buffer: &mut [u8])
    ensures { sockets.ReadsSocket fd (length buffer.old) (state_of machine.old) (state_of machine.new) }
{
    let _taken = machine.recvfrom(fd, buffer);
}

/// Opens a socket and binds it to a port. `None` if the machine returns an error.
fn bound_to(machine: &mut Stack, port: u16) -> Option<Bound>
    ensures { sockets.TriesToBind port result (state_of machine.old) (state_of machine.new) }
{
    let Ok(fd) = open(machine) else {
        return None;
    };
    match bind(machine, fd, port) {
        Ok(()) => Some(Bound { fd, port }),
        Err(_) => {
            close(machine, fd);
            None
        }
    }
}

/// Returns whether a socket is bound to a port.
fn is_at(bound: &Bound, port: u16) -> bool
    ensures { result ≡ (bound.now.port == port) }
{
    bound.port == port
}

/// Removes the socket of a port.
fn retain_others(bound: &mut Vec<Bound>, port: u16)
    ensures { bound.new.items ≡ filter (λ (b : Bound). not (b.port == port)) bound.old.items }
{
    bound.retain(|it| !is_at(it, port));
}

impl Ports {
    /// No port is bound yet. It allocates no memory.
    pub(crate) fn new(alloc: Global, only: Option<u16>) -> Ports
        ensures { sockets.IsUnbound only result }
    {
        Ports {
            bound: Vec::new(alloc),
            only,
        }
    }

    /// Returns whether a port is bound.
    fn has(&self, port: u16) -> bool
        ensures { result ≡ sockets.is_bound port self.now.bound.items }
    {
        let mut rest = self.bound.as_slice();
        'bound: while let [bound, left @ ..] = rest {
            if bound.port == port {
                return true;
            }
            rest = left;
        }
        false
    }

    /// Returns whether this port may be bound: it's the only one, or all may be bound.
    fn may_bind(&self, port: u16) -> bool
        ensures { result ≡ sockets.may_bind self.now.only port }
    {
        match self.only {
            Some(only) => only == port,
            None => port != 0,
        }
    }

    /// Returns the port to bind for a packet, if it isn't bound yet.
    fn wanted(&self, packet: &[u8]) -> Option<u16>
        ensures { result ≡ sockets.wanted_port self.now packet.now }
    {
        match port_in(packet) {
            Some(port) if self.may_bind(port) && !self.has(port) => Some(port),
            _ => None,
        }
    }

    /// Closes the socket that was bound first, if 60 are bound.
    fn make_space(&mut self, machine: &mut Stack)
        ensures { sockets.MakesSpace self.old self.new (state_of machine.old) (state_of machine.new) }
    {
        if self.bound.len() >= MOST_PORTS {
            let oldest = self.bound.remove(0);
            close(machine, oldest.fd);
        }
    }

    /// Binds a socket to a port. If 60 are bound, the one that was bound first is closed.
    fn bind(&mut self, machine: &mut Stack, port: u16) -> Result<(), AllocError>
        ensures { IfOk result
            (λ u. sockets.BindsFor self.old port self.new (state_of machine.old) (state_of machine.new)) }
    {
        self.make_space(machine);
        if let Some(bound) = bound_to(machine, port) {
            self.bound.push(bound)?;
        }
        Ok(())
    }

    /// Returns the descriptor of the socket that is bound to a port.
    fn descriptor_of(&self, port: u16) -> Option<u32>
        ensures { result ≡ sockets.descriptor_of port self.now.bound.items }
    {
        let mut rest = self.bound.as_slice();
        'bound: while let [bound, left @ ..] = rest {
            if bound.port == port {
                return Some(bound.fd);
            }
            rest = left;
        }
        None
    }

    /// Closes the socket that is bound to the destination port of a packet, if there is one.
    fn close_for(&mut self, machine: &mut Stack, packet: &[u8])
        ensures { sockets.ClosesFor (sockets.front_port packet.now) self.old self.new (state_of machine.old)
            (state_of machine.new) }
    {
        let Some(port) = port_in(packet) else {
            return;
        };
        let Some(fd) = self.descriptor_of(port) else {
            return;
        };
        close(machine, fd);
        retain_others(&mut self.bound, port);
    }

    /// Binds a socket for a packet, or closes the one that it would arrive at if the host refused the packet.
    pub(crate) fn prepare(
        &mut self,
        machine: &mut Stack,
        packet: &[u8],
        refused: Option<u64>,
    ) -> Result<(), AllocError>
        ensures { IfOk result (λ u. sockets.Prepares refused packet.now self.old self.new (state_of machine.old)
            (state_of machine.new)) }
    {
        match refused {
            Some(_) => self.close_for(machine, packet),
            None => self.open_for(machine, packet)?,
        }
        Ok(())
    }

    /// Binds a socket to the destination port of a packet if it isn't bound yet.
    fn open_for(&mut self, machine: &mut Stack, packet: &[u8]) -> Result<(), AllocError>
        ensures { IfOk result (λ u. sockets.BindsIf self.old (sockets.wanted_port self.old packet.now) self.new
            (state_of machine.old) (state_of machine.new)) }
    {
        match self.wanted(packet) {
            Some(port) => self.bind(machine, port),
            None => Ok(()),
        }
    }

    /// Reads the next datagram of each socket.
    pub(crate) fn drain(&self, machine: &mut Stack, buffer: &mut [u8])
        requires { length buffer.old ≡ IP_MAX_PACKET }
        ensures { sockets.Drains self.now.bound.items (state_of machine.old) (state_of machine.new) }
    {
        let mut rest = self.bound.as_slice();
        'bound: while let [bound, left @ ..] = rest {
            take(machine, bound.fd, buffer);
            rest = left;
        }
    }
}
