//! IP options of packets that arrive (RFC 791, section 3.1; RFC 1122, section 3.2.1.8; `ip_dooptions` of volume 2,
//! chapter 9).
ghost use Rattle.std.specs.Prelude.{◌≡◌, ◌+◌, ◌<◌, ◌≤◌, length, slice_index, take, true, vec_capacity, vec_len};
ghost use Rattle.params.specs.declared.TheConstants.{IP_HEADER, IP_UDP_HEADERS};
ghost use Rattle.flat_model.specs.Machine.Fate.{Fated};
ghost use Rattle.flat_ether.specs.Icmp.{quote_size};
ghost use Rattle.flat_ether.specs.Options.{are_options, carried_in, has_options, header_size, is_option, is_sound, option_size, without_options};
ghost use Rattle.flat_ether.specs.declared.sizes.TheConstants.{ETHER_MTU, QUOTE};
ghost use Rattle.ip_out.specs.Headings.{head_bytes};
ghost use Rattle.net_stack.specs.Stack.{state_of};
ghost use Rattle.ether_host.specs.Plain.{short_head};

use crate::answer::HEADER;
use crate::buffer::{PacketBuffer, ROOM};
use crate::reply::put_both;
use flat_ether::{
    OPTION_END, OPTION_LOOSE_ROUTE, OPTION_NONE, OPTION_RECORD_ROUTE, OPTION_STRICT_ROUTE,
};
use flat_model::Fate;
use in_cksum::sum_slice;
use ip_out::{IpHead, u16_at, u32_at, write_head};
use net_stack::Stack;
use params::{FRAGMENT_UNIT, IP_DEFAULT_TTL, IP_UDP_HEADERS};

/// How many bytes the header of a packet has by its first byte.
pub(crate) fn header_size(came: &[u8]) -> usize
    requires { IP_HEADER ≤ length came.now }
    ensures is { result ≡ header_size came.now }
    ensures most { result ≤ 60 }
{
    usize::from(came[0] % 16) * 4
}

/// How many bytes an error quotes of a packet.
pub(crate) fn quote_size(came: &[u8]) -> usize
    requires { IP_HEADER ≤ length came.now }
    ensures is { result ≡ quote_size came.now }
    ensures least { IP_UDP_HEADERS ≤ result }
    ensures most { result ≤ QUOTE }
{
    IP_UDP_HEADERS as usize + header_size(came).saturating_sub(HEADER)
}

/// What a packet carries, up to its total length.
pub(crate) fn carried(came: &[u8]) -> &[u8]
    requires { IP_HEADER ≤ length came.now }
    ensures { result.now ≡ carried_in came.now }
{
    let header = header_size(came).min(came.len());
    let total = (u16_at(came, 2) as usize).min(came.len()).max(header);
    &came[header..total]
}

/// The byte at a place, or 0.
fn byte_at(bytes: &[u8], at: usize) -> u8
    ensures { result ≡ slice_index bytes.now at }
{
    if at < bytes.len() { bytes[at] } else { 0 }
}

/// Whether an option is accepted, by its kind and what follows that.
fn is_option(kind: u8, rest: &[u8]) -> bool
    ensures { result ≡ is_option kind rest.now }
{
    if kind == OPTION_NONE {
        return true;
    }
    let size = byte_at(rest, 0);
    if size < 2 || kind == OPTION_LOOSE_ROUTE || kind == OPTION_STRICT_ROUTE {
        return false;
    }
    kind != OPTION_RECORD_ROUTE || size >= 3 && byte_at(rest, 1) >= 4
}

/// The bytes of an option, by its kind and what follows that.
fn option_size(kind: u8, rest: &[u8]) -> u8
    ensures { result ≡ option_size kind rest.now }
{
    if kind == OPTION_NONE {
        1
    } else {
        byte_at(rest, 0)
    }
}

/// Whether these are whole options that are accepted.
fn are_options(options: &[u8]) -> bool
    ensures { result ≡ are_options 0 options.now }
{
    let mut rest = options;
    // how many of the next bytes belong to an option that began before them
    let mut left = 0;
    while let [kind, later @ ..] = rest {
        if left > 0 {
            left -= 1;
        } else if *kind == OPTION_END {
            return true;
        } else if is_option(*kind, later) {
            left = option_size(*kind, later).saturating_sub(1);
        } else {
            return false;
        }
        rest = later;
    }
    left == 0
}

/// Whether a header with options is sound, and they are accepted.
fn is_sound(came: &[u8]) -> bool
    requires long { IP_HEADER ≤ length came.now }
    requires some { IP_HEADER ≤ header_size came.now }
    ensures { result ≡ is_sound came.now }
{
    let header = header_size(came);
    let total = usize::from(u16_at(came, 2));
    if total < header || total > came.len() || HEADER + (total - header) > ROOM {
        return false;
    }
    sum_slice(&came[..header]) == u16::MAX && are_options(&came[HEADER..header])
}

/// Whether a packet gets to the stack without its options.
pub(crate) fn has_options(came: &[u8]) -> bool
    ensures { result ≡ has_options came.now }
{
    came.len() >= HEADER && came[0] / 16 == 4 && came[0] % 16 > 5 && is_sound(came)
}

/// The header of a packet without its options, which carries `size` bytes.
fn short_head(came: &[u8], size: usize) -> [u8; HEADER]
    requires long { IP_HEADER ≤ length came.now }
    requires size { IP_HEADER + size ≤ ETHER_MTU }
    ensures is { result ≡ head_bytes (short_head came.now size) }
    ensures size { length result ≡ IP_HEADER }
{
    let mut bytes = [0; HEADER];
    let flags = u16_at(came, 6);
    let head = IpHead {
        tos: 0,
        total: (HEADER + size) as u16,
        id: u16_at(came, 4),
        dont: false,
        more: flags / 8192 % 2 > 0,
        offset: u32::from(flags % 8192) * FRAGMENT_UNIT,
        ttl: IP_DEFAULT_TTL,
        proto: came[9],
        src: u32_at(came, 12),
        dst: u32_at(came, 16),
    };
    write_head(&mut bytes, head);
    bytes
}

impl PacketBuffer {
    /// Copies a packet without its options into the buffer.
    fn fill_plain(&mut self, came: &[u8])
        requires { has_options came.now ≡ true }
        ensures { take self.new.len self.new.buffer ≡ without_options came.now }
    {
        let data = carried(came);
        let head = short_head(came, data.len());
        put_both(&mut self.buffer, &head, data);
        self.len = (HEADER + data.len()) as u16;
    }
}

/// The stack receives a packet without its options, from the last place for packets that wait: so no copy of a whole
/// buffer is on the call stack.
pub(crate) fn receive_plain(stack: &mut Stack, held: &mut Vec<PacketBuffer>, came: &[u8]) -> Fate
    requires capacity { vec_len held.old < vec_capacity held.old }
    requires has { has_options came.now ≡ true }
    ensures fate { Fated (state_of stack.old) (without_options came.now) result (state_of stack.new) }
    ensures items { held.new.items ≡ held.old.items }
    ensures capacity { vec_capacity held.new ≡ vec_capacity held.old }
{
    let at = held.len();
    held.push_reserved(PacketBuffer::blank());
    held[at].fill_plain(came);
    let fate = stack.rx_told(held[at].bytes());
    held.truncate(at);
    fate
}
