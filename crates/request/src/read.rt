//! Parsing a line into a request.
ghost use Rattle.std.specs.Prelude.{◌≡◌, ◌≤◌, Bool, [], length, MatchOption, IfSome};
ghost use Rattle.flat_model.specs.declared.address.Addr.{Addr};
ghost use Rattle.flat_model.specs.Machine.Event.{Event};
ghost use Rattle.flat_model.specs.Scripts.Grammar.{IsEnd, option_name, switch_name};
ghost use Rattle.flat_model.specs.Scripts.Script.{Asks, all_events};
ghost use Rattle.request.specs.Requests.{event_of, room_of};
ghost use Rattle.request.specs.declared.keyword.Keyword.TheVariants as line;
ghost use Rattle.script_loop.specs.Left.{left};
ghost use Rattle.request.specs.Inside.{ReadsForm};

use crate::address::address_of;
use crate::keyword::{Keyword, keyword_of};
use crate::request::Request;
use flat_model::{Addr, Opt};
use params::{IP_MAX_PACKET, LONGEST_REQUEST};
use script_loop::{bytes, first_word, is_end, number, one, three, two};

/// Parses the two words for an address and a port.
fn end_of(ip: &[u8], port: &[u8]) -> Option<Addr>
    ensures { MatchOption result ((end : Addr) → IsEnd ip.now port.now end →
        ⊥) (λ end. IsEnd ip.now port.now end) }
{
    let ip = address_of(ip)?;
    let port = number(port, u32::from(u16::MAX))?;
    Some(Addr {
        ip,
        port: port as u16,
    })
}

/// Parses the name of an option.
fn option_of(word: &[u8]) -> Option<Opt>
    ensures { MatchOption result ((option : Opt) → word.now ≡ option_name option → ⊥)
        (λ option. word.now ≡ option_name option) }
{
    if word == b"broadcast".as_slice() {
        Some(Opt::Broadcast)
    } else if word == b"reuseport".as_slice() {
        Some(Opt::ReusePort)
    } else {
        None
    }
}

/// Parses the word that sets or clears an option.
fn switch_of(word: &[u8]) -> Option<bool>
    ensures { MatchOption result ((on : Bool) → word.now ≡ switch_name on → ⊥) (λ on. word.now ≡ switch_name on) }
{
    match word {
        b"0" => Some(false),
        b"1" => Some(true),
        _ => None,
    }
}

/// Returns the request, if no word is left.
fn alone<'a>(rest: Option<&[u8]>, request: Request<'a>) -> Option<Request<'a>>
    ensures { MatchOption result (left rest.entry ≡ [] → ⊥) (λ r. (r ≡ request.entry) × (left rest.entry ≡ [])) }
{
    if is_end(rest) { Some(request) } else { None }
}

fn bind_of(rest: Option<&[u8]>) -> Option<Request<'static>>
    ensures { ReadsForm line.Bind (left rest.entry) result }
{
    let (fd, ip, port) = three(rest)?;
    let fd = number(fd, u32::MAX)?;
    let end = end_of(ip, port)?;
    Some(Request::Bind(fd, end))
}

fn connect_of(rest: Option<&[u8]>) -> Option<Request<'static>>
    ensures { ReadsForm line.Connect (left rest.entry) result }
{
    let (fd, ip, port) = three(rest)?;
    let fd = number(fd, u32::MAX)?;
    let end = end_of(ip, port)?;
    Some(Request::Connect(fd, end))
}

fn sendto_of<'a>(rest: Option<&[u8]>, buffer: &'a mut [u8]) -> Option<Request<'a>>
    requires { length buffer.old ≡ IP_MAX_PACKET }
    ensures { ReadsForm line.SendTo (left rest.entry) result }
{
    let (fd, rest) = first_word(rest?);
    let (ip, port, data) = three(rest)?;
    let fd = number(fd, u32::MAX)?;
    let end = end_of(ip, port)?;
    let len = bytes(data, buffer)?;
    Some(Request::Send(fd, Some(end), &buffer[..len]))
}

fn send_of<'a>(rest: Option<&[u8]>, buffer: &'a mut [u8]) -> Option<Request<'a>>
    requires { length buffer.old ≡ IP_MAX_PACKET }
    ensures { ReadsForm line.Send (left rest.entry) result }
{
    let (fd, data) = two(rest)?;
    let fd = number(fd, u32::MAX)?;
    let len = bytes(data, buffer)?;
    Some(Request::Send(fd, None, &buffer[..len]))
}

fn receive_of(rest: Option<&[u8]>) -> Option<Request<'static>>
    ensures { ReadsForm line.RecvFrom (left rest.entry) result }
{
    let (fd, most) = two(rest)?;
    let fd = number(fd, u32::MAX)?;
    let most = number(most, IP_MAX_PACKET)?;
    if most == 0 {
        return None;
    }
    Some(Request::Receive(fd, most as usize))
}

fn close_of(rest: Option<&[u8]>) -> Option<Request<'static>>
    ensures { ReadsForm line.Close (left rest.entry) result }
{
    let fd = number(one(rest)?, u32::MAX)?;
    Some(Request::Close(fd))
}

fn set_option_of(rest: Option<&[u8]>) -> Option<Request<'static>>
    ensures { ReadsForm line.SetSockOpt (left rest.entry) result }
{
    let (fd, option, on) = three(rest)?;
    let fd = number(fd, u32::MAX)?;
    let option = option_of(option)?;
    let on = switch_of(on)?;
    Some(Request::SetOption(fd, option, on))
}

fn packet_of<'a>(rest: Option<&[u8]>, buffer: &'a mut [u8]) -> Option<Request<'a>>
    requires { length buffer.old ≡ IP_MAX_PACKET }
    ensures { ReadsForm line.Rx (left rest.entry) result }
{
    let word = one(rest)?;
    let len = bytes(word, buffer)?;
    Some(Request::Packet(&buffer[..len]))
}

/// Parses the words after a keyword.
fn form_of<'a>(word: Keyword, rest: Option<&[u8]>, buffer: &'a mut [u8]) -> Option<Request<'a>>
    requires { length buffer.old ≡ IP_MAX_PACKET }
    ensures { ReadsForm word (left rest.entry) result }
{
    match word {
        Keyword::Socket => alone(rest, Request::Socket),
        Keyword::Bind => bind_of(rest),
        Keyword::Connect => connect_of(rest),
        Keyword::SendTo => sendto_of(rest, buffer),
        Keyword::Send => send_of(rest, buffer),
        Keyword::RecvFrom => receive_of(rest),
        Keyword::Close => close_of(rest),
        Keyword::SetSockOpt => set_option_of(rest),
        Keyword::Rx => packet_of(rest, buffer),
        Keyword::Tx => alone(rest, Request::Transmit),
        Keyword::Tick => alone(rest, Request::Tick),
        Keyword::Stat => alone(rest, Request::Counters),
        Keyword::MbStat => alone(rest, Request::Usage),
    }
}

/// Returns the request of the line, if the line is well-formed.
pub fn request_of<'a>(line: &[u8], buffer: &'a mut [u8]) -> Option<Request<'a>>
    requires { length buffer.old ≡ IP_MAX_PACKET }
    ensures event { MatchOption result ((event : Event) → Asks all_events line.now event → ⊥)
        (λ request. Asks all_events line.now (event_of request)) }
    ensures fits { IfSome result (λ request. room_of request ≤ IP_MAX_PACKET) }
{
    if line.len() > LONGEST_REQUEST as usize {
        return None;
    }
    let (word, rest) = first_word(line);
    let word = keyword_of(word)?;
    form_of(word, rest, buffer)
}
