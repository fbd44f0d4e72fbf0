//! ICMP replies (`icmp_reflect` and `icmp_error` of volume 2, chapter 11).
ghost use Rattle.std.specs.Prelude.{◌≡◌, ◌≤◌, ◌∷◌, length, true};
ghost use Rattle.params.specs.declared.TheConstants.{IP_HEADER, IP_UDP_HEADERS};
ghost use Rattle.flat_ether.specs.Icmp.{answer_to, echo_reply, error_for, error_reply, expired_error, is_answerable, is_echo, is_no_protocol, is_single};
ghost use Rattle.flat_ether.specs.Options.{carried_in};
ghost use Rattle.flat_model.specs.Packets.Checksum.{checksum};
ghost use Rattle.flat_model.specs.Packets.Header.{two_bytes};
ghost use Rattle.ether_host.specs.Answers.{CanAnswer};
ghost use Rattle.ether_host.specs.Replies.{packets_left};

use crate::buffer::ROOM;
use crate::bytes::put_bytes;
use crate::options::{carried, quote_size};
use crate::reply::Reply;
use flat_ether::{
    Answer, ECHO_REPLY, ECHO_REQUEST, ICMP_HEADER, PROTOCOL_ICMP, QUOTE, REASSEMBLY_EXCEEDED,
    TIME_EXCEEDED, UNREACHABLE, UNREACHABLE_PORT, UNREACHABLE_PROTOCOL,
};
use flat_model::{Config, Why};
use in_cksum::{Sum, sum_slice};
use ip_out::u32_at;
use params::{FIRST_MULTICAST, IP_HEADER, LOOPBACK};

/// Bytes of an IP header.
pub(crate) const HEADER: usize = IP_HEADER as usize;

/// Whether a reply may be sent to this address.
fn is_single(config: &Config, ip: u32) -> bool
    ensures { result ≡ is_single config.now ip }
{
    let network = ip >> 24;
    1 <= network
        && ip < FIRST_MULTICAST
        && network != LOOPBACK >> 24
        && ip != config.addr
        && ip != config.bcast
}

/// Whether the header of a packet allows a reply.
pub(crate) fn is_answerable(config: &Config, came: &[u8]) -> bool
    ensures { result ≡ is_answerable config.now came.now }
{
    came.len() >= HEADER && u32_at(came, 16) == config.addr && is_single(config, u32_at(came, 12))
}

/// Whether this is an echo request that gets a reply.
fn is_echo(body: &[u8]) -> bool
    ensures { result ≡ is_echo body.now }
{
    body.len() >= ICMP_HEADER as usize
        && body[0] == ECHO_REQUEST
        && body[1] == 0
        && body.len() <= ROOM - HEADER
        && sum_slice(body) == u16::MAX
}

/// Whether a packet was dropped because its protocol is unknown.
pub(crate) fn is_no_protocol(why: Why) -> bool
    ensures { result ≡ is_no_protocol why }
{
    match why {
        Why::NoProtocol => true,
        _ => false,
    }
}

/// The error for a datagram that was dropped, by a packet of it; none for ICMP.
pub(crate) fn error_for(came: &[u8], why: Why) -> Answer
    requires { IP_HEADER ≤ length came.now }
    ensures is { result ≡ error_for came.now why }
    ensures can { CanAnswer result came.now }
{
    match why {
        Why::UdpNoPort => Answer::Error(UNREACHABLE, UNREACHABLE_PORT),
        Why::NoProtocol => {
            if came[9] == PROTOCOL_ICMP {
                Answer::Silence
            } else {
                Answer::Error(UNREACHABLE, UNREACHABLE_PROTOCOL)
            }
        }
        _ => Answer::Silence,
    }
}

/// The error for a datagram that expired, by what is quoted of its first fragment; none for an ICMP message that isn't
/// an echo request (RFC 1122, section 3.2.2).
pub(crate) fn expired_error(quote: &[u8]) -> Answer
    requires { IP_UDP_HEADERS ≤ length quote.now }
    ensures is { result ≡ expired_error quote.now }
    ensures can { CanAnswer result quote.now }
{
    if quote[9] == PROTOCOL_ICMP && quote[HEADER] != ECHO_REQUEST {
        return Answer::Silence;
    }
    Answer::Error(TIME_EXCEEDED, REASSEMBLY_EXCEEDED)
}

/// The reply to a whole packet that was dropped.
pub(crate) fn answer_to(config: &Config, came: &[u8], why: Why) -> Answer
    ensures is { result ≡ answer_to config.now came.now why }
    ensures can { CanAnswer result came.now }
{
    if !is_answerable(config, came) {
        return Answer::Silence;
    }
    if is_no_protocol(why) && came[9] == PROTOCOL_ICMP && is_echo(carried(came)) {
        return Answer::Echo;
    }
    error_for(came, why)
}

/// The first four bytes of an ICMP message, with its checksum.
pub(crate) fn message_head(kind: u8, code: u8, rest: &[u8]) -> [u8; 4]
    ensures is { result ≡ kind ∷ code ∷ two_bytes (checksum (kind ∷ code ∷ 0 ∷ 0 ∷ rest.now)) }
    ensures long { length result ≡ 4 }
{
    let mut sum = Sum::new();
    sum.add(&[kind, code, 0, 0]);
    sum.add(rest);
    let sum = sum.finish();
    [kind, code, (sum / 256) as u8, (sum % 256) as u8]
}

/// The echo reply to a packet, with an identification.
pub(crate) fn echo_reply(reply: &mut Reply, config: &Config, id: u16, came: &[u8])
    requires long { IP_HEADER ≤ length came.now }
    requires echo { is_echo (carried_in came.now) ≡ true }
    ensures { packets_left reply.new ≡ echo_reply config.now id came.now }
{
    let rest = &carried(came)[4..];
    reply.put(config, id, came, message_head(ECHO_REPLY, 0, rest), rest);
}

/// An error to the sender of a packet, with an identification.
pub(crate) fn error_reply(
    reply: &mut Reply,
    config: &Config,
    id: u16,
    kind: u8,
    code: u8,
    came: &[u8],
)
    requires { IP_HEADER ≤ length came.now }
    ensures { packets_left reply.new ≡ error_reply config.now id kind code came.now }
{
    let quoted = came.len().min(quote_size(came));
    let mut rest = [0; 4 + QUOTE];
    put_bytes(&mut rest, 4, &came[..quoted]);
    let rest = &rest[..4 + quoted];
    let front = message_head(kind, code, rest);
    reply.put(config, id, came, front, rest);
}
