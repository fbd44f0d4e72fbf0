//! Texts, piece by piece.
ghost use Rattle.std.specs.Prelude.{◌≡◌, ◌+◌, ◌≤◌, ◌++◌, [], ◌∷◌, codes, length, if◌then◌else◌};
ghost use Rattle.hex.specs.Hex.{encode_lower};
ghost use Rattle.play_text.specs.Pieces.{amount, end_text, mac_text, number_or, piece_room, piece_text, protocol_text, range_text, pieces_room, text_of, way_text};

use crate::bytes::{ByteForm, put_apart, put_reply};
use crate::escape::put_string;
use flat_ether::Mac;
use flat_model::Addr;
use params::PROTOCOL_UDP;
use request::{put_address, put_long};
use script_loop::{Buffer, put_number};

/// A piece of a text.
#[derive(Clone, Copy)]
pub enum Piece<'a> {
    /// These bytes.
    Text(&'a [u8]),
    /// The first bytes if true, otherwise the second.
    Either(bool, &'a [u8], &'a [u8]),
    /// A number.
    Number(u32),
    /// A number of up to twenty digits.
    Long(u64),
    /// A number, or these bytes if there is no number.
    Maybe(Option<u64>, &'a [u8]),
    /// A number with its unit, which gets an `s` unless the number is 1: `2 packets`.
    Amount(u32, &'a [u8]),
    /// The four numbers of an address.
    Address(u32),
    /// An address and a port: `10.0.0.1:7`.
    End(Addr),
    /// A hardware address: `02:00:00:00:00:01`.
    Hardware(Mac),
    /// A protocol, a source address and a destination address: `udp 10.0.0.1 > 10.0.0.2`.
    Way(u8, u32, u32),
    /// A range of bytes of a datagram: its offset and its length.
    Range(u32, u32),
    /// A JSON string (RFC 8259 section 7), in ASCII only.
    Quoted(&'a [u8]),
    /// A reply, with its bytes in this form.
    Reply(ByteForm, &'a [u8]),
    /// The offset at which the bytes of two replies first differ, if one of the two is abbreviated.
    Apart(ByteForm, &'a [u8], &'a [u8]),
}

/// Appends a number, or these bytes if there is no number.
fn put_maybe<const N: usize>(text: &mut Buffer<N>, n: Option<u64>, none: &[u8])
    requires { length text.old + (length none.now + 20) ≤ N }
    ensures items { text.new ≡ text.old ++ number_or n none.now }
    ensures len { length text.new ≤ length text.old + (length none.now + 20) }
{
    match n {
        Some(n) => put_long(text, n),
        None => text.append(none),
    }
}

/// Appends an amount.
fn put_amount<const N: usize>(text: &mut Buffer<N>, n: u32, what: &[u8])
    requires { length text.old + (length what.now + 12) ≤ N }
    ensures items { text.new ≡ text.old ++ amount n what.now }
    ensures len { length text.new ≤ length text.old + (length what.now + 12) }
{
    put_number(text, n);
    text.append(b" ");
    text.append(what);
    text.append(if n == 1 { b"".as_slice() } else { b"s" });
}

/// Appends an address and a port.
fn put_end<const N: usize>(text: &mut Buffer<N>, end: Addr)
    requires { length text.old + 26 ≤ N }
    ensures items { text.new ≡ text.old ++ end_text end }
    ensures len { length text.new ≤ length text.old + 26 }
{
    put_address(text, end.ip);
    text.append(b":");
    put_number(text, u32::from(end.port));
}

/// Appends a byte as two lower-case digits.
fn put_octet<const N: usize>(text: &mut Buffer<N>, octet: u8)
    requires { length text.old + 2 ≤ N }
    ensures items { text.new ≡ text.old ++ encode_lower (octet ∷ []) }
    ensures len { length text.new ≡ length text.old + 2 }
{
    let mut digits = [0; 2];
    let _ = hex::encode_to_slice([octet], &mut digits);
    text.append(&digits);
}

/// Appends a byte as two digits, followed by a colon.
fn put_octet_of_more<const N: usize>(text: &mut Buffer<N>, octet: u8)
    requires { length text.old + 3 ≤ N }
    ensures items { text.new ≡ text.old ++ (encode_lower (octet ∷ []) ++ codes ":") }
    ensures len { length text.new ≡ length text.old + 3 }
{
    put_octet(text, octet);
    text.append(b":");
}

/// Appends a hardware address.
fn put_mac<const N: usize>(text: &mut Buffer<N>, mac: Mac)
    requires { length text.old + 17 ≤ N }
    ensures items { text.new ≡ text.old ++ mac_text mac }
    ensures len { length text.new ≤ length text.old + 17 }
{
    let (upper, lower) = (mac.low / 65_536, mac.low % 65_536);
    put_octet_of_more(text, (mac.high / 256) as u8);
    put_octet_of_more(text, (mac.high % 256) as u8);
    put_octet_of_more(text, (upper / 256) as u8);
    put_octet_of_more(text, (upper % 256) as u8);
    put_octet_of_more(text, (lower / 256) as u8);
    put_octet(text, (lower % 256) as u8);
}

/// Appends a protocol: its name if it is UDP, otherwise its number.
fn put_protocol<const N: usize>(text: &mut Buffer<N>, protocol: u8)
    requires { length text.old + 19 ≤ N }
    ensures items { text.new ≡ text.old ++ protocol_text protocol }
    ensures len { length text.new ≤ length text.old + 19 }
{
    if protocol == PROTOCOL_UDP {
        text.append(b"udp");
    } else {
        text.append(b"protocol ");
        put_number(text, u32::from(protocol));
    }
}

/// Appends a protocol and two addresses.
fn put_way<const N: usize>(text: &mut Buffer<N>, protocol: u8, source: u32, destination: u32)
    requires { length text.old + 53 ≤ N }
    ensures items { text.new ≡ text.old ++ way_text protocol source destination }
    ensures len { length text.new ≤ length text.old + 53 }
{
    put_protocol(text, protocol);
    text.append(b" ");
    put_address(text, source);
    text.append(b" > ");
    put_address(text, destination);
}

/// Appends a range of bytes of a datagram.
fn put_range<const N: usize>(text: &mut Buffer<N>, offset: u32, n: u32)
    requires { length text.old + 40 ≤ N }
    ensures items { text.new ≡ text.old ++ range_text offset n }
    ensures len { length text.new ≤ length text.old + 40 }
{
    if n == 0 {
        text.append(b"no byte");
    } else {
        let past = u64::from(offset) + u64::from(n);
        text.append(b"bytes ");
        put_number(text, offset);
        text.append(b" to ");
        put_long(text, past - 1);
    }
}

/// Appends a piece.
fn put_piece<const N: usize>(text: &mut Buffer<N>, piece: &Piece<'_>)
    requires { length text.old + piece_room piece.now ≤ N }
    ensures items { text.new ≡ text.old ++ piece_text piece.now }
    ensures len { length text.new ≤ length text.old + piece_room piece.now }
{
    match *piece {
        Piece::Text(bytes) => text.append(bytes),
        Piece::Either(first, this, other) => text.append(if first { this } else { other }),
        Piece::Number(n) => put_number(text, n),
        Piece::Long(n) => put_long(text, n),
        Piece::Maybe(n, none) => put_maybe(text, n, none),
        Piece::Amount(n, what) => put_amount(text, n, what),
        Piece::Address(ip) => put_address(text, ip),
        Piece::End(end) => put_end(text, end),
        Piece::Hardware(mac) => put_mac(text, mac),
        Piece::Way(protocol, source, destination) => put_way(text, protocol, source, destination),
        Piece::Range(offset, n) => put_range(text, offset, n),
        Piece::Quoted(bytes) => put_string(text, bytes),
        Piece::Reply(form, reply) => put_reply(text, form, reply),
        Piece::Apart(form, wanted, reply) => put_apart(text, form, wanted, reply),
    }
}

/// Appends pieces, one after another. There must be space for all of them. The space for each is its bytes for a text,
/// 10 for a number, 20 for a long one, 12 more than its unit for an amount, 15 for an address, 26 for an endpoint, 17
/// for a hardware address, 53 for a way, 40 for a range, six for each byte of a string and two more, two more than the
/// reply for a reply, and 48 for a difference.
pub fn put<const N: usize>(text: &mut Buffer<N>, pieces: &[Piece<'_>])
    requires { length text.old + pieces_room pieces.now ≤ N }
    ensures items { text.new ≡ text.old ++ text_of pieces.now }
    ensures len { length text.new ≤ length text.old + pieces_room pieces.now }
{
    for piece in pieces {
        put_piece(text, piece);
    }
}

/// Appends pieces if `so` is true, as [`put`] does; otherwise nothing. There must be space for them in both cases.
pub fn put_if<const N: usize>(text: &mut Buffer<N>, so: bool, pieces: &[Piece<'_>])
    requires { length text.old + pieces_room pieces.now ≤ N }
    ensures items { text.new ≡ text.old ++ (if so then text_of pieces.now else []) }
    ensures len { length text.new ≤ length text.old + pieces_room pieces.now }
{
    if so {
        put(text, pieces);
    }
}
