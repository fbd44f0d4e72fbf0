//! Errors that other hosts report for datagrams of this host (`udp_ctlinput` of volume 2, chapter 23).
ghost use Rattle.std.specs.Prelude.{◌≡◌, ◌≤◌, length};
ghost use Rattle.flat_ether.specs.declared.sizes.TheConstants.{ICMP_ERROR};
ghost use Rattle.flat_ether.specs.Errors.{error_at, error_in, error_of, error_fault, is_error, is_icmp, is_error_of, add_error};
ghost use Rattle.flat_ether.specs.Links.{adds_error_if, takes_error};

use crate::answer::HEADER;
use crate::layer::LinkLayer;
use crate::options::carried;
use arrayvec::ArrayVec;
use flat_ether::{
    FRAGMENT_NEEDED, ICMP_ERROR, NetFault, PROTOCOL_ICMP, SOCKET_ERRORS, SocketError, UNREACHABLE,
    UNREACHABLE_PORT, UNREACHABLE_PROTOCOL,
};
use flat_model::{Addr, Config};
use in_cksum::sum_slice;
use ip_out::{u16_at, u32_at};
use params::PROTOCOL_UDP;

/// Whether a packet is a whole ICMP packet to this host.
fn is_icmp(config: &Config, came: &[u8]) -> bool
    ensures { result ≡ is_icmp config.now came.now }
{
    if came.len() < HEADER || u32_at(came, 16) != config.addr {
        return false;
    }
    let flags = u16_at(came, 6);
    if flags / 8192 % 2 != 0 || flags % 8192 != 0 {
        return false;
    }
    came[9] == PROTOCOL_ICMP
}

/// Whether an ICMP message reports an error for a datagram of this host.
fn is_error(config: &Config, body: &[u8]) -> bool
    ensures { result ≡ is_error config.now body.now }
{
    body.len() >= ICMP_ERROR as usize
        && body[0] == UNREACHABLE
        && body[1] != FRAGMENT_NEEDED
        && body[8] == 0x45
        && u16_at(body, 14) % 8192 == 0
        && body[17] == PROTOCOL_UDP
        && u32_at(body, 20) == config.addr
        && sum_slice(body) == u16::MAX
}

/// What a code means for the sender.
fn fault_of(code: u8) -> NetFault
    ensures { result ≡ error_fault code }
{
    if code == UNREACHABLE_PROTOCOL || code == UNREACHABLE_PORT {
        return NetFault::Refused;
    }
    NetFault::Unreachable
}

/// The error that an ICMP message reports.
fn error_of(body: &[u8]) -> SocketError
    requires { ICMP_ERROR ≤ length body.now }
    ensures { result ≡ error_of body.now }
{
    SocketError {
        port: u16_at(body, 28),
        peer_ip: u32_at(body, 24),
        peer_port: u16_at(body, 30),
        code: body[1],
    }
}

/// The error that a packet reports.
fn error_in(config: &Config, came: &[u8]) -> Option<SocketError>
    ensures { result ≡ error_in config.now came.now }
{
    if !is_icmp(config, came) {
        return None;
    }
    let body = carried(came);
    if !is_error(config, body) {
        return None;
    }
    Some(error_of(body))
}

/// Whether it's about datagrams from this port to this address.
fn is_of(error: &SocketError, port: u16, peer: Addr) -> bool
    ensures { result ≡ is_error_of port peer error.now }
{
    error.port == port && error.peer_ip == peer.ip && error.peer_port == peer.port
}

/// The place of the error for datagrams from a port to an address.
fn error_at(errors: &[SocketError], port: u16, peer: Addr) -> Option<usize>
    ensures { result ≡ error_at port peer errors.now }
{
    errors.iter().position(|e| is_of(e, port, peer))
}

/// Replaces the error for the same port and address, or adds it at the end; a full list loses its first element.
fn add_error(errors: &mut ArrayVec<SocketError, SOCKET_ERRORS>, error: SocketError)
    ensures { errors.new.items ≡ add_error error errors.old.items }
{
    let peer = Addr {
        ip: error.peer_ip,
        port: error.peer_port,
    };
    match error_at(errors.as_slice(), error.port, peer) {
        Some(at) => errors[at] = error,
        None => {
            if errors.is_full() {
                errors.remove(0);
            }
            errors.push(error);
        }
    }
}

impl LinkLayer {
    ghost use Rattle.ether_host.specs.Inside.{link_seen};

    /// A packet arrived that the stack dropped, for an unknown protocol or otherwise: it may report an error.
    pub(crate) fn add_error(&mut self, no_protocol: bool, came: &[u8])
        ensures { link_seen self.new ≡ adds_error_if no_protocol came.now (link_seen self.old) }
    {
        if !no_protocol {
            return;
        }
        if let Some(error) = error_in(&self.config, came) {
            add_error(&mut self.errors, error);
        }
    }

    /// What was reported for the datagrams that were sent from this port to this peer. It's returned once.
    pub(crate) fn take_error(&mut self, port: Option<u16>, peer: Option<Addr>) -> Option<NetFault>
        ensures fault { result ≡ (takes_error port peer (link_seen self.old)).0 }
        ensures link { link_seen self.new ≡ (takes_error port peer (link_seen self.old)).1 }
    {
        let (Some(port), Some(peer)) = (port, peer) else {
            return None;
        };
        let at = error_at(self.errors.as_slice(), port, peer)?;
        let error = self.errors.remove(at);
        Some(fault_of(error.code))
    }
}
