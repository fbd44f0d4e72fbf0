//! Descriptions of frames.
ghost use Rattle.std.specs.Prelude.{◌≡◌, ◌+◌, ◌≤◌, ◌++◌, length};
ghost use Rattle.params.specs.declared.TheConstants.{IP_MAX_PACKET};
ghost use Rattle.flat_ether.specs.Frames as frames;
ghost use Rattle.flat_ether.specs.declared.sizes.TheConstants.{ARP_BYTES, ETHER_HEADER};
ghost use Rattle.play_text.specs.Frames as texts;

use crate::packet::put_packet;
use crate::piece::Piece::{Address, Amount, Hardware, Text};
use crate::piece::put;
use flat_ether::{
    ARP_BYTES, ARP_REPLY, ARP_REQUEST, Arp, ETHER_HEADER, ETHER_TYPE_ARP, ETHER_TYPE_IP, Mac,
};
use flat_plain::{u16_at, u32_at};
use script_loop::Buffer;

/// Hardware type 1, Ethernet (RFC 826).
const HARDWARE_ETHERNET: u16 = 1;

/// The lengths of both kinds of address, 6 and 4 bytes.
const LENGTHS: u16 = 0x0604;

/// Returns the hardware address in the six bytes from offset `at`.
fn mac_at(bytes: &[u8], at: usize) -> Mac
    requires { at + 6 ≤ length bytes.now }
    ensures { result ≡ frames.mac_at at bytes.now }
{
    Mac {
        high: u16_at(bytes, at),
        low: u32_at(bytes, at + 2),
    }
}

/// Returns whether an ARP packet is a request or a reply for Ethernet and IPv4.
fn is_arp(body: &[u8]) -> bool
    ensures { result ≡ frames.is_arp body.now }
{
    if body.len() < ARP_BYTES as usize {
        return false;
    }
    let op = u16_at(body, 6);
    u16_at(body, 0) == HARDWARE_ETHERNET
        && u16_at(body, 2) == ETHER_TYPE_IP
        && u16_at(body, 4) == LENGTHS
        && (op == ARP_REQUEST || op == ARP_REPLY)
}

/// Decodes an ARP packet.
fn arp_of(body: &[u8]) -> Arp
    requires { ARP_BYTES ≤ length body.now }
    ensures { result ≡ frames.arp_of body.now }
{
    Arp {
        op: u16_at(body, 6),
        mac: mac_at(body, 8),
        ip: u32_at(body, 14),
        target: u32_at(body, 24),
    }
}

/// Appends the contents of a request or a reply.
fn put_arp_words<const N: usize>(text: &mut Buffer<N>, arp: Arp)
    requires { length text.old + 174 ≤ N }
    ensures items { text.new ≡ text.old ++ texts.arp_words arp }
    ensures len { length text.new ≤ length text.old + 174 }
{
    if arp.op == ARP_REQUEST {
        put(
            text,
            &[
                Text(b"ARP who has "),
                Address(arp.target),
                Text(b", tell "),
                Address(arp.ip),
            ],
        );
    } else {
        put(
            text,
            &[
                Text(b"ARP "),
                Address(arp.ip),
                Text(b" is at "),
                Hardware(arp.mac),
            ],
        );
    }
}

/// Appends the description of an ARP packet.
fn put_arp<const N: usize>(text: &mut Buffer<N>, body: &[u8])
    requires frame { length body.now ≤ IP_MAX_PACKET }
    requires space { length text.old + 174 ≤ N }
    ensures items { text.new ≡ text.old ++ texts.arp_text body.now }
    ensures len { length text.new ≤ length text.old + 174 }
{
    if is_arp(body) {
        put_arp_words(text, arp_of(body));
    } else {
        put(
            text,
            &[
                Text(b"ARP of "),
                Amount(body.len() as u32, b"byte"),
                Text(b", not a request or reply for IPv4"),
            ],
        );
    }
}

/// Appends the description of `n` bytes of another type.
fn put_other_type<const N: usize>(text: &mut Buffer<N>, kind: u16, n: u32)
    requires { length text.old + 174 ≤ N }
    ensures items { text.new ≡ text.old ++ texts.other_type_text kind n }
    ensures len { length text.new ≤ length text.old + 174 }
{
    let mut digits = [0; 4];
    let _ = hex::encode_to_slice([(kind / 256) as u8, (kind % 256) as u8], &mut digits);
    put(
        text,
        &[
            Text(b"type 0x"),
            Text(&digits),
            Text(b", "),
            Amount(n, b"byte"),
        ],
    );
}

/// Appends the description of a frame's body, which has this type.
fn put_body<const N: usize>(text: &mut Buffer<N>, kind: u16, body: &[u8])
    requires frame { length body.now ≤ IP_MAX_PACKET }
    requires space { length text.old + 174 ≤ N }
    ensures items { text.new ≡ text.old ++ texts.body_text kind body.now }
    ensures len { length text.new ≤ length text.old + 174 }
{
    if kind == ETHER_TYPE_IP {
        put_packet(text, body);
    } else if kind == ETHER_TYPE_ARP {
        put_arp(text, body);
    } else {
        put_other_type(text, kind, body.len() as u32);
    }
}

/// Returns the bytes after the header of a frame.
#[tactic(auto, using(crate::proofs::FrameLemmas::rest_is))]
fn body_of(frame: &[u8]) -> &[u8]
    requires { ETHER_HEADER ≤ length frame.now }
    ensures { result.now ≡ frames.body_of frame.now }
{
    &frame[ETHER_HEADER as usize..]
}

/// Appends a source and a destination.
fn put_frame_way<const N: usize>(text: &mut Buffer<N>, source: Mac, destination: Mac)
    requires { length text.old + 38 ≤ N }
    ensures items { text.new ≡ text.old ++ texts.frame_way_text source destination }
    ensures len { length text.new ≤ length text.old + 38 }
{
    put(
        text,
        &[
            Hardware(source),
            Text(b" > "),
            Hardware(destination),
            Text(b" "),
        ],
    );
}

/// Appends the description of a frame that has a header.
fn put_headed<const N: usize>(text: &mut Buffer<N>, frame: &[u8])
    requires header { ETHER_HEADER ≤ length frame.now }
    requires frame { length frame.now ≤ IP_MAX_PACKET + ETHER_HEADER }
    requires space { length text.old + 214 ≤ N }
    ensures items { text.new ≡ text.old ++ texts.headed_frame_text frame.now }
    ensures len { length text.new ≤ length text.old + 214 }
{
    put_frame_way(text, mac_at(frame, 6), mac_at(frame, 0));
    put_body(text, u16_at(frame, 12), body_of(frame));
}

/// Appends the description of a frame (RFC 894): its source and its destination, such as `02:00:00:00:00:01 >
/// ff:ff:ff:ff:ff:ff`, followed by its contents. A packet is described by [`put_packet`]. An ARP request (RFC 826) is
/// described as `ARP who has 10.0.0.2, tell 10.0.0.1`, and an ARP reply as `ARP 10.0.0.2 is at 02:00:00:00:00:02`.
/// Other contents are described by their type and the number of bytes after the header. A frame of fewer than 14 bytes
/// is described by its length. A frame has at most 65,549 bytes. There must be space for 214 bytes.
pub fn put_frame<const N: usize>(text: &mut Buffer<N>, frame: &[u8])
    requires frame { length frame.now ≤ IP_MAX_PACKET + ETHER_HEADER }
    requires space { length text.old + 214 ≤ N }
    ensures items { text.new ≡ text.old ++ texts.frame_text frame.now }
    ensures len { length text.new ≤ length text.old + 214 }
{
    if frame.len() < ETHER_HEADER as usize {
        put(
            text,
            &[
                Amount(frame.len() as u32, b"byte"),
                Text(b" without a header of 14"),
            ],
        );
    } else {
        put_headed(text, frame);
    }
}
