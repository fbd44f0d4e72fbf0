//! Which socket a packet or a call finds. Lists begin with the youngest.
ghost use Rattle.std.specs.Prelude.{◌≡◌, ◌≤◌, ◌++◌, ◌==◌, OnOk, IfOk, Some, None};
ghost use Rattle.std.specs.Option.{option_map};
ghost use Rattle.flat_model.specs.Sockets.Lookup as Lookup;
ghost use Rattle.flat_plain.specs.Blocks.{socket_of, sockets_of};

use flat_model::{Addr, LookupKey};
use std::alloc::{AllocError, Global};

/// The fields of an open socket that a lookup reads.
#[derive(Clone, Copy, Debug, PartialEq, Eq)]
pub struct Pcb {
    /// The socket's descriptor.
    pub fd: u32,
    /// Its local address, if that is set.
    pub local: Option<u32>,
    /// Its local port, if that is set.
    pub port: Option<u16>,
    /// The address and port that it is connected to, if it is.
    pub peer: Option<Addr>,
    /// Whether it shares its port.
    pub reuse_port: bool,
}

fn is_addr(a: Addr, b: Addr) -> bool
    ensures { result ≡ Lookup.is_addr a b }
{
    a.ip == b.ip && a.port == b.port
}

fn are_same(a: Option<u16>, b: Option<u16>) -> bool
    ensures { result ≡ Lookup.are_same a b }
{
    match (a, b) {
        (Some(p), Some(q)) => p == q,
        _ => false,
    }
}

fn agree_local(a: Option<u32>, b: Option<u32>) -> bool
    ensures { result ≡ Lookup.agree ◌==◌ a b }
{
    match (a, b) {
        (Some(p), Some(q)) => p == q,
        _ => true,
    }
}

fn agree_peer(a: Option<Addr>, b: Option<Addr>) -> bool
    ensures { result ≡ Lookup.agree Lookup.is_addr a b }
{
    match (a, b) {
        (Some(p), Some(q)) => is_addr(p, q),
        _ => true,
    }
}

fn one_local(a: Option<u32>, b: Option<u32>) -> u32
    ensures value { result ≡ Lookup.one_sided a b }
    ensures most { result ≤ 1 }
{
    match (a, b) {
        (Some(_), Some(_)) | (None, None) => 0,
        _ => 1,
    }
}

fn one_peer(a: Option<Addr>, b: Option<Addr>) -> u32
    ensures value { result ≡ Lookup.one_sided a b }
    ensures most { result ≤ 1 }
{
    match (a, b) {
        (Some(_), Some(_)) | (None, None) => 0,
        _ => 1,
    }
}

/// Returns whether every field that is set on both sides is equal, and the ports are set and equal.
pub fn matches(q: LookupKey, pcb: Pcb) -> bool
    ensures { result ≡ Lookup.matches q (socket_of pcb) }
{
    are_same(pcb.port, q.port) && agree_local(pcb.local, q.local) && agree_peer(pcb.peer, q.peer)
}

fn wildcards(q: LookupKey, pcb: Pcb) -> u32
    ensures { result ≡ Lookup.wildcards q (socket_of pcb) }
{
    one_local(pcb.local, q.local) + one_peer(pcb.peer, q.peer)
}

/// Returns the number of wildcards of a control block, if it matches.
pub fn score(q: LookupKey, pcb: Pcb) -> Option<u32>
    ensures { result ≡ Lookup.score q (socket_of pcb) }
{
    if matches(q, pcb) {
        Some(wildcards(q, pcb))
    } else {
        None
    }
}

/// Returns the youngest control block that matches with this number of wildcards.
fn youngest(wanted: u32, q: LookupKey, pcbs: &[Pcb]) -> Option<Pcb>
    ensures { option_map socket_of result ≡ Lookup.youngest wanted q (sockets_of pcbs.now) }
{
    match pcbs {
        [] => None,
        [pcb, rest @ ..] => {
            if matches(q, *pcb) && wildcards(q, *pcb) == wanted {
                Some(*pcb)
            } else {
                youngest(wanted, q, rest)
            }
        }
    }
}

/// Returns the control block without a wildcard, the youngest of several.
pub fn exact(q: LookupKey, pcbs: &[Pcb]) -> Option<Pcb>
    ensures { option_map socket_of result ≡ Lookup.exact q (sockets_of pcbs.now) }
{
    let wanted = 0;
    youngest(wanted, q, pcbs)
}

/// Returns the control block with the fewest wildcards, the youngest of several.
pub fn best(q: LookupKey, pcbs: &[Pcb]) -> Option<Pcb>
    ensures { option_map socket_of result ≡ Lookup.best q (sockets_of pcbs.now) }
{
    let found = youngest(0, q, pcbs);
    if found.is_some() {
        return found;
    }
    let found = youngest(1, q, pcbs);
    if found.is_some() {
        return found;
    }
    youngest(2, q, pcbs)
}

/// Adds the control blocks that receive a broadcast.
fn add_matching(found: &mut Vec<Pcb>, q: LookupKey, pcbs: &[Pcb]) -> Result<(), AllocError>
    ensures { OnOk result (sockets_of found.new.items
        ≡ sockets_of found.old.items ++ Lookup.receivers q (sockets_of pcbs.now)) }
{
    match pcbs {
        [] => Ok(()),
        [pcb, rest @ ..] => {
            if matches(q, *pcb) {
                found.push(*pcb)?;
                if !pcb.reuse_port {
                    return Ok(());
                }
            }
            add_matching(found, q, rest)?;
            Ok(())
        }
    }
}

/// Returns all control blocks that receive a broadcast, up to the first one that doesn't share its port. Returns
/// `AllocError` if the host refuses memory for the list.
pub fn receivers(alloc: Global, q: LookupKey, pcbs: &[Pcb]) -> Result<Vec<Pcb>, AllocError>
    ensures { IfOk result (λ v. sockets_of v.items ≡
        Lookup.receivers q (sockets_of pcbs.now)) }
{
    let mut found = Vec::new(alloc);
    add_matching(&mut found, q, pcbs)?;
    Ok(found)
}
