//! Descriptions of packets.
ghost use Rattle.std.specs.Prelude.{◌≡◌, ◌+◌, ◌-◌, ◌≤◌, ◌++◌, length};
ghost use Rattle.params.specs.declared.TheConstants.{IP_HEADER, IP_MAX_PACKET};
ghost use Rattle.flat_model.specs.Packets.Header.{total_of};
ghost use Rattle.flat_plain.specs.Heads.{plain_head};
ghost use Rattle.play_text.specs.Packets as texts;

use crate::piece::Piece::{Amount, Either, End, Number, Range, Text, Way};
use crate::piece::put;
use flat_model::Addr;
use flat_plain::{Head, head_of, u16_at};
use params::{IP_HEADER, IP_UDP_HEADERS, PROTOCOL_UDP, UDP_HEADER};
use script_loop::Buffer;

/// Returns whether a packet begins with a version 4 header without options, which has 20 bytes.
fn has_header(packet: &[u8]) -> bool
    ensures { result ≡ texts.has_header packet.now }
{
    IP_HEADER as usize <= packet.len() && packet[0] == 69
}

/// Returns how many bytes a packet carries according to its total length; 0 if that is below 20.
fn carried_by(packet: &[u8]) -> u32
    requires { IP_HEADER ≤ length packet.now }
    ensures { result ≡ total_of packet.now - IP_HEADER }
{
    u32::from(u16_at(packet, 2)).saturating_sub(IP_HEADER)
}

/// Returns whether a packet carries UDP, with all 8 bytes of its header.
fn has_ports(head: Head, packet: &[u8]) -> bool
    ensures { result ≡ texts.has_ports (plain_head head) packet.now }
{
    head.protocol == PROTOCOL_UDP && IP_UDP_HEADERS as usize <= packet.len()
}

/// Returns whether a packet carries a part of its datagram.
fn is_fragment(head: Head) -> bool
    ensures { result ≡ texts.is_fragment_packet (plain_head head) }
{
    head.more || 0 < head.offset
}

/// Appends the description of a fragment.
fn put_fragment<const N: usize>(text: &mut Buffer<N>, head: Head, carried: u32)
    requires { length text.old + 174 ≤ N }
    ensures items { text.new ≡ text.old ++ texts.fragment_text (plain_head head) carried }
    ensures len { length text.new ≤ length text.old + 174 }
{
    put(
        text,
        &[
            Text(b"fragment of "),
            Way(head.protocol, head.source, head.destination),
            Text(b", "),
            Range(head.offset, carried),
            Either(head.more, b", more, id ", b", last, id "),
            Number(u32::from(head.id)),
        ],
    );
}

/// Appends the description of a UDP datagram.
fn put_datagram<const N: usize>(text: &mut Buffer<N>, head: Head, packet: &[u8])
    requires ports { 28 ≤ length packet.now }
    requires space { length text.old + 174 ≤ N }
    ensures items { text.new ≡ text.old ++ texts.datagram_text (plain_head head) packet.now }
    ensures len { length text.new ≤ length text.old + 174 }
{
    let source = Addr {
        ip: head.source,
        port: u16_at(packet, 20),
    };
    let destination = Addr {
        ip: head.destination,
        port: u16_at(packet, 22),
    };
    let sent = carried_by(packet).saturating_sub(UDP_HEADER);
    put(
        text,
        &[
            Text(b"udp "),
            End(source),
            Text(b" > "),
            End(destination),
            Text(b", "),
            Amount(sent, b"byte"),
            Text(b", id "),
            Number(u32::from(head.id)),
        ],
    );
}

/// Appends the description of another packet that isn't a fragment.
fn put_other<const N: usize>(text: &mut Buffer<N>, head: Head, carried: u32)
    requires { length text.old + 174 ≤ N }
    ensures items { text.new ≡ text.old ++ texts.other_text (plain_head head) carried }
    ensures len { length text.new ≤ length text.old + 174 }
{
    put(
        text,
        &[
            Way(head.protocol, head.source, head.destination),
            Text(b", "),
            Amount(carried, b"byte"),
            Text(b", id "),
            Number(u32::from(head.id)),
        ],
    );
}

/// Appends the description of a packet with this header.
fn put_headed<const N: usize>(text: &mut Buffer<N>, head: Head, packet: &[u8])
    requires header { IP_HEADER ≤ length packet.now }
    requires space { length text.old + 174 ≤ N }
    ensures items { text.new ≡ text.old ++ texts.headed_text (plain_head head) packet.now }
    ensures len { length text.new ≤ length text.old + 174 }
{
    if is_fragment(head) {
        put_fragment(text, head, carried_by(packet));
    } else if has_ports(head, packet) {
        put_datagram(text, head, packet);
    } else {
        put_other(text, head, carried_by(packet));
    }
}

/// Appends the description of a packet's headers. For a UDP datagram: the two endpoints and the number of bytes sent.
/// For a fragment: the addresses, which bytes of its datagram it has, and whether more follow. For another protocol:
/// its number. The total length determines the number of bytes that it carries. A packet that doesn't begin with a
/// version 4 header without options (RFC 791, section 3.1) is described by its length. There must be space for 174
/// bytes.
pub fn put_packet<const N: usize>(text: &mut Buffer<N>, packet: &[u8])
    requires packet { length packet.now ≤ IP_MAX_PACKET }
    requires space { length text.old + 174 ≤ N }
    ensures items { text.new ≡ text.old ++ texts.packet_text packet.now }
    ensures len { length text.new ≤ length text.old + 174 }
{
    if has_header(packet) {
        put_headed(text, head_of(packet), packet);
    } else {
        put(
            text,
            &[
                Amount(packet.len() as u32, b"byte"),
                Text(b" without a header of 20"),
            ],
        );
    }
}

/// Appends a line that says that a fragment with this header is kept.
fn put_held<const N: usize>(text: &mut Buffer<N>, head: Head, carried: u32)
    requires { length text.old + 100 ≤ N }
    ensures items { text.new ≡ text.old ++ texts.range_line (plain_head head) carried }
    ensures len { length text.new ≤ length text.old + 100 }
{
    put(
        text,
        &[
            Text(b"    fragment kept: "),
            Range(head.offset, carried),
            Text(b" of datagram "),
            Number(u32::from(head.id)),
            Text(b", more to come\n"),
        ],
    );
}

/// Appends a line that says that a fragment is kept, and which bytes of which datagram it has. For a packet without a
/// header it appends nothing. There must be space for 100 bytes.
pub fn put_kept<const N: usize>(text: &mut Buffer<N>, packet: &[u8])
    requires { length text.old + 100 ≤ N }
    ensures items { text.new ≡ text.old ++ texts.kept_line packet.now }
    ensures len { length text.new ≤ length text.old + 100 }
{
    if has_header(packet) {
        put_held(text, head_of(packet), carried_by(packet));
    }
}

/// Appends a line that says that the datagram of a fragment is complete. For a packet without a header it appends
/// nothing. There must be space for 100 bytes.
pub fn put_whole<const N: usize>(text: &mut Buffer<N>, packet: &[u8])
    requires { length text.old + 100 ≤ N }
    ensures items { text.new ≡ text.old ++ texts.whole_line packet.now }
    ensures len { length text.new ≤ length text.old + 100 }
{
    if has_header(packet) {
        let id = u32::from(u16_at(packet, 4));
        put(
            text,
            &[Text(b"    datagram "), Number(id), Text(b" is whole\n")],
        );
    }
}
