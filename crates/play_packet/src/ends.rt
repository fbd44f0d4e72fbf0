//! Parsing the two endpoints of a packet.
ghost use Rattle.std.specs.Prelude.{◌≡◌, ◌<◌, length, IfSome};
ghost use Rattle.play_packet.specs.Ends as ends;

use crate::mark::Payload;
use crate::numbers::number_in;
use flat_model::Addr;
use play_line::Fault;
use request::address_of;

/// Returns the index of the first occurrence of a byte.
fn place_of(sought: u8, text: &[u8]) -> Option<usize>
    ensures is { result ≡ ends.first_place sought text.now }
    ensures most { IfSome result (λ at. at < length text.now) }
{
    text.iter().position(|byte| *byte == sought)
}

/// Parses an address in exactly the form in which it is printed.
fn address_in(word: &[u8]) -> Option<u32>
    ensures { result ≡ ends.address_in word.now }
{
    address_of(word)
}

/// Parses an address and a port, with a colon between them.
fn end_in(word: &[u8]) -> Result<Addr, Fault>
    ensures { result ≡ ends.end_in word.now }
{
    let Some(at) = place_of(b':', word) else {
        return Err(Fault::NoEnd);
    };
    let Some(ip) = address_in(&word[..at]) else {
        return Err(Fault::NoEnd);
    };
    match number_in(&word[at + 1..], 65_535) {
        Some(port) => Ok(Addr {
            ip,
            port: port as u16,
        }),
        None => Err(Fault::NoPort),
    }
}

/// Parses an endpoint of a packet with this payload: with a port for a datagram, otherwise an address without one.
pub(crate) fn end_as(payload: Payload, word: &[u8]) -> Result<Addr, Fault>
    ensures { result ≡ ends.end_as payload word.now }
{
    match payload {
        Payload::Udp => end_in(word),
        Payload::Raw => match address_in(word) {
            Some(ip) => Ok(Addr { ip, port: 0 }),
            None => Err(Fault::NoAddress),
        },
    }
}

/// Returns the fault if an endpoint is missing.
pub(crate) fn missing_end(payload: Payload) -> Fault
    ensures { result ≡ ends.missing_end payload }
{
    match payload {
        Payload::Udp => Fault::NoEnd,
        Payload::Raw => Fault::NoAddress,
    }
}
