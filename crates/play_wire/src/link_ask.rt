//! The request of a line to a host's link: a line is parsed once, into a value.
ghost use Rattle.std.specs.Prelude.{◌≡◌, ◌≤◌, IfSome, MatchOption, length, true, slice_get};
ghost use Rattle.params.specs.declared.TheConstants.{IP_MAX_PACKET};
ghost use Rattle.play_script.specs.Views.{plain_line};
ghost use Rattle.script_loop.specs.Left.{left};
ghost use Rattle.segment.specs.Inside.{view};
ghost use Rattle.play_wire.specs.Inside.{ReadsOfLink, link_asked, link_asks, bytes_asked};
ghost use Rattle.play_wire.specs.Links as links;
ghost use Rattle.play_wire.specs.Links.{AsksLink, IsForStack, WritesLink, is_for_link};
ghost use Rattle.play_forms.specs.declared.command.Command.TheVariants as command;

use crate::wire_ask::{one_number, ticks_of};
use play_forms::{Command, Player, command_of};
use play_script::{Line, bytes_of};
use script_loop::{bytes, first_word, is_end, one};
use segment::Segment;

/// The request of a line to a link. The bytes of a frame are borrowed from the buffer into which the line was decoded.
#[derive(Clone, Copy)]
pub(crate) enum LinkAsk<'r> {
    /// A frame arrives.
    Frame(&'r [u8]),
    /// Report the last error that others reported for a socket's datagrams.
    LastError(u32),
    /// The neighbours are shown.
    Neighbours,
    /// The link is shown, with what it has counted.
    Counts,
    /// This many ticks.
    Ticks(u32),
    /// A packet without a frame arrives or leaves.
    Packets,
}

/// `frame BYTES`.
fn frame_of<'r>(rest: Option<&[u8]>, buffer: &'r mut [u8]) -> Option<LinkAsk<'r>>
    requires { length buffer.old ≡ IP_MAX_PACKET }
    ensures { ReadsOfLink command.Frame (left rest.entry) result }
{
    let word = one(rest)?;
    let len = bytes(word, buffer)?;
    Some(LinkAsk::Frame(&buffer[..len]))
}

/// `error FD`.
fn error_of(rest: Option<&[u8]>) -> Option<LinkAsk<'static>>
    ensures { ReadsOfLink command.LastError (left rest.entry) result }
{
    Some(LinkAsk::LastError(one_number(rest, u32::MAX)?))
}

/// `tick` or `tick N`.
fn link_ticks_of(rest: Option<&[u8]>) -> Option<LinkAsk<'static>>
    ensures { ReadsOfLink command.Tick (left rest.entry) result }
{
    Some(LinkAsk::Ticks(ticks_of(rest)?))
}

/// `show neighbours` or `show link`.
fn shown_of(rest: Option<&[u8]>) -> Option<LinkAsk<'static>>
    ensures { ReadsOfLink command.ShowOfHost (left rest.entry) result }
{
    let word = one(rest)?;
    if word == b"neighbours".as_slice() {
        return Some(LinkAsk::Neighbours);
    }
    if word == b"link".as_slice() {
        return Some(LinkAsk::Counts);
    }
    None
}

/// Returns the request for a packet that arrives, given by its bytes or by a description.
fn coming(rest: Option<&[u8]>) -> Option<LinkAsk<'static>>
    ensures { ReadsOfLink command.Rx (left rest.entry) result }
{
    if is_end(rest) {
        None
    } else {
        Some(LinkAsk::Packets)
    }
}

/// Returns the request for a packet that leaves.
fn taken(rest: Option<&[u8]>) -> Option<LinkAsk<'static>>
    ensures { ReadsOfLink command.Tx (left rest.entry) result }
{
    if is_end(rest) {
        Some(LinkAsk::Packets)
    } else {
        None
    }
}

/// Returns the request of a command and the words after it to a link. The buffer has 65,535 bytes.
fn form_of<'r>(asked: Command, rest: Option<&[u8]>, buffer: &'r mut [u8]) -> Option<LinkAsk<'r>>
    requires { length buffer.old ≡ IP_MAX_PACKET }
    ensures { ReadsOfLink asked (left rest.entry) result }
{
    match asked {
        Command::Frame => frame_of(rest, buffer),
        Command::LastError => error_of(rest),
        Command::Tick => link_ticks_of(rest),
        Command::ShowOfHost => shown_of(rest),
        Command::Rx => coming(rest),
        Command::Tx => taken(rest),
        Command::Socket
        | Command::Bind
        | Command::Connect
        | Command::SendTo
        | Command::Send
        | Command::RecvFrom
        | Command::Close
        | Command::SetSockOpt
        | Command::SetRcvBuf
        | Command::RxPcap
        | Command::RxUdp
        | Command::RxRaw
        | Command::Stat
        | Command::MbStat
        | Command::Show
        | Command::Host
        | Command::Wire
        | Command::Carry
        | Command::Collect
        | Command::Deliver
        | Command::Loss
        | Command::Repeat
        | Command::Reorder
        | Command::Delay
        | Command::Seed
        | Command::Drop
        | Command::Swap
        | Command::ShowWire
        | Command::Summary => None,
    }
}

/// Returns the request of a plain line to a link. The buffer has 65,535 bytes.
fn ask_in<'r>(plain: &[u8], buffer: &'r mut [u8]) -> Option<LinkAsk<'r>>
    requires { length buffer.old ≡ IP_MAX_PACKET }
    ensures is { AsksLink plain.now (link_asks result) }
    ensures fits { IfSome result (λ ask. bytes_asked ask ≤ IP_MAX_PACKET) }
{
    let (word, rest) = first_word(plain);
    match command_of(Player::Host, word) {
        Some(asked) => form_of(asked, rest, buffer),
        None => None,
    }
}

/// Returns the request of a line to a link; see `ask_in`.
fn ask_of<'r>(line: &Line, buffer: &'r mut [u8]) -> Option<LinkAsk<'r>>
    requires { length buffer.old ≡ IP_MAX_PACKET }
    ensures is { AsksLink (plain_line line.now) (link_asks result) }
    ensures fits { IfSome result (λ ask. bytes_asked ask ≤ IP_MAX_PACKET) }
{
    if line.named {
        Some(LinkAsk::Packets)
    } else {
        ask_in(bytes_of(&line.words), buffer)
    }
}

/// Returns whether only a link can execute this.
fn is_of_link(ask: &LinkAsk<'_>) -> bool
    ensures { result ≡ links.is_of_link (link_asked ask.now) }
{
    match *ask {
        LinkAsk::Frame(_) | LinkAsk::LastError(_) | LinkAsk::Neighbours | LinkAsk::Counts => true,
        LinkAsk::Ticks(_) | LinkAsk::Packets => false,
    }
}

/// Returns whether the link of the host at a place executes this.
fn is_asked(segment: &Segment, place: usize, ask: &LinkAsk<'_>) -> bool
    ensures { result ≡ is_for_link (slice_get (view segment.now).links place) (link_asked ask.now) }
{
    match segment.link(place) {
        Some(_) => true,
        None => is_of_link(ask),
    }
}

/// Returns the request of a line to the link of the host at a place. Without a link, ticks and packets go to the stack.
/// The buffer has 65,535 bytes.
pub(crate) fn link_ask<'r>(
    segment: &Segment,
    place: usize,
    line: &Line,
    buffer: &'r mut [u8],
) -> Option<LinkAsk<'r>>
    requires { length buffer.old ≡ IP_MAX_PACKET }
    ensures none { MatchOption result (IsForStack place (plain_line line.now) (view segment.now))
        (λ ask. WritesLink (plain_line line.now) (link_asked ask)) }
    ensures link { IfSome result (λ ask.
        is_for_link (slice_get (view segment.now).links place) (link_asked ask) ≡ true) }
    ensures fits { IfSome result (λ ask. bytes_asked ask ≤ IP_MAX_PACKET) }
{
    match ask_of(line, buffer) {
        Some(ask) => {
            if is_asked(segment, place, &ask) {
                Some(ask)
            } else {
                None
            }
        }
        None => None,
    }
}
