//! The ICMP errors in a capture by which a host says that a port of it is closed.
ghost use Rattle.std.specs.Prelude.{◌≡◌, IfOk};
ghost use Rattle.play_why.specs.Refusals as refusals;

use crate::ports::port_in;
use flat_plain::{u16_at, u32_at};
use params::PROTOCOL_UDP;
use std::alloc::{AllocError, Global};

/// How many refusals are kept that were read ahead, and how many closed ports.
const MOST_REFUSALS: usize = 4096;

/// The protocol number of ICMP (RFC 792).
const ICMP: u8 = 1;

/// The type and the code of "port unreachable" (RFC 792).
const PORT_UNREACHABLE: u16 = 0x0303;

/// The ICMP error "port unreachable" of a host, for a datagram to it.
#[derive(Clone, Copy, Debug, PartialEq, Eq)]
pub struct Refusal {
    pub host: u32,
    /// The closed port.
    pub port: u16,
    /// The sender of the datagram, to which the error goes.
    pub peer: u32,
    pub peer_port: u16,
    /// The datagram's identification.
    pub id: u16,
}

/// A refusal, and the number of its record.
#[derive(Clone, Copy)]
struct Heard {
    refusal: Refusal,
    number: u64,
}

/// A closed port, and the number of the record that says so.
#[derive(Clone, Copy)]
struct Closed {
    host: u32,
    port: u16,
    number: u64,
}

/// Returns whether a packet is the ICMP error "port unreachable" of the host to which the UDP datagram went whose
/// headers it quotes (RFC 792; RFC 1122, section 3.2.2.1).
fn is_refusal(packet: &[u8]) -> bool
    ensures { result ≡ refusals.is_refusal packet.now }
{
    56 <= packet.len()
        && (packet[0] == 69 && (packet[9] == ICMP && u16_at(packet, 6) % 16_384 == 0))
        && (u16_at(packet, 20) == PORT_UNREACHABLE
            && (packet[28] == 69 && packet[37] == PROTOCOL_UDP))
        && (u16_at(packet, 34) % 8192 == 0
            && (u32_at(packet, 40) == u32_at(packet, 16)
                && u32_at(packet, 44) == u32_at(packet, 12)))
}

/// Returns what a packet says, if it's such an error.
pub fn refusal_of(packet: &[u8]) -> Option<Refusal>
    ensures { result ≡ refusals.refusal_of packet.now }
{
    if !is_refusal(packet) {
        return None;
    }
    Some(Refusal {
        host: u32_at(packet, 12),
        port: u16_at(packet, 50),
        peer: u32_at(packet, 16),
        peer_port: u16_at(packet, 48),
        id: u16_at(packet, 32),
    })
}

/// Returns whether an error is for the datagram that begins in this packet.
fn quotes(refusal: Refusal, packet: &[u8]) -> bool
    ensures { result ≡ refusals.quotes refusal packet.now }
{
    let Some(port) = port_in(packet) else {
        return false;
    };
    port == refusal.port
        && (u32_at(packet, 16) == refusal.host && u32_at(packet, 12) == refusal.peer)
        && (u16_at(packet, 20) == refusal.peer_port && u16_at(packet, 4) == refusal.id)
}

/// Returns the record of the first error after the record `number` that is for its packet.
fn first_after(heard: &[Heard], number: u64, packet: &[u8]) -> Option<u64>
    ensures { result ≡ refusals.first_after number packet.now heard.now }
{
    let mut rest = heard;
    'heard: while let [it, left @ ..] = rest {
        if number < it.number && quotes(it.refusal, packet) {
            return Some(it.number);
        }
        rest = left;
    }
    None
}

/// Returns the record that says that a port of a host is closed.
fn closed_by(closed: &[Closed], host: u32, port: u16) -> Option<u64>
    ensures { result ≡ refusals.closed_by host port closed.now }
{
    let mut rest = closed;
    'closed: while let [it, left @ ..] = rest {
        if it.host == host && it.port == port {
            return Some(it.number);
        }
        rest = left;
    }
    None
}

/// Returns the record that says that the port is closed to which a packet goes.
fn closed_for(closed: &[Closed], packet: &[u8]) -> Option<u64>
    ensures { result ≡ refusals.closed_for packet.now closed.now }
{
    match port_in(packet) {
        Some(port) => closed_by(closed, u32_at(packet, 16), port),
        None => None,
    }
}

/// Returns whether this port of a host is closed by an entry.
fn is_port(it: &Closed, host: u32, port: u16) -> bool
    ensures { result ≡ refusals.is_port host port it.now }
{
    it.host == host && it.port == port
}

/// Removes a port of a host.
fn retain_others(closed: &mut Vec<Closed>, host: u32, port: u16)
    ensures { closed.new.items ≡ refusals.others host port closed.old.items }
{
    closed.retain(|it| !is_port(it, host, port));
}

/// The refusals in a capture.
#[derive(Drop)]
pub struct Refusals {
    /// Those that were read ahead.
    heard: Vec<Heard>,
    /// The ports that a host refused, and from which it hasn't sent since.
    closed: Vec<Closed>,
}

impl Refusals {
    /// None is known. It allocates no memory.
    pub fn new(alloc: Global) -> Refusals
        ensures { refusals.KnowsNone result }
    {
        Refusals {
            heard: Vec::new(alloc),
            closed: Vec::new(alloc),
        }
    }

    /// Reads the packet of a record ahead. The first 4,096 refusals are kept. Fails if the host has no memory.
    pub fn read_ahead(&mut self, number: u64, packet: &[u8]) -> Result<(), AllocError>
        ensures { IfOk result (λ u. refusals.ReadsAhead number packet.now self.old self.new) }
    {
        match refusal_of(packet) {
            Some(refusal) if self.heard.len() < MOST_REFUSALS => {
                self.heard.push(Heard { refusal, number })?;
                Ok(())
            }
            _ => Ok(()),
        }
    }

    /// A port is closed from now on.
    fn close(&mut self, refusal: Refusal, number: u64) -> Result<(), AllocError>
        ensures { IfOk result (λ u. refusals.MarksClosed number refusal self.old self.new) }
    {
        retain_others(&mut self.closed, refusal.host, refusal.port);
        if self.closed.len() < MOST_REFUSALS {
            self.closed.push(Closed {
                host: refusal.host,
                port: refusal.port,
                number,
            })?;
        }
        Ok(())
    }

    /// The packet of a record passes: if it's a refusal, the port is closed; if it carries a datagram, the port that it
    /// comes from is open. Fails if the host has no memory.
    pub fn pass(&mut self, number: u64, packet: &[u8]) -> Result<(), AllocError>
        ensures { IfOk result (λ u. refusals.PassesRecord number packet.now self.old self.new) }
    {
        if let Some(refusal) = refusal_of(packet) {
            return self.close(refusal, number);
        }
        if port_in(packet).is_some() {
            let (host, port) = (u32_at(packet, 12), u16_at(packet, 20));
            retain_others(&mut self.closed, host, port);
        }
        Ok(())
    }

    /// Returns the record with which a host refused the packet of the record `number`: the first one after it that is
    /// for its datagram; otherwise the one that said last that the port is closed.
    pub fn record_for(&self, number: u64, packet: &[u8]) -> Option<u64>
        ensures { result ≡ refusals.record_for number packet.now self.now }
    {
        match first_after(self.heard.as_slice(), number, packet) {
            Some(record) => Some(record),
            None => closed_for(self.closed.as_slice(), packet),
        }
    }
}
