//! Building the packet that a line describes.
ghost use Rattle.std.specs.Prelude.{◌≡◌, ◌≤◌, ◌<◌, ◌+◌, ◌-◌, length, take, Some};
ghost use Rattle.params.specs.declared.TheConstants.{IP_MAX_DATA, UDP_HEADER};
ghost use Rattle.flat_model.specs.Packets.Checksum.{checksum as checksum_of};
ghost use Rattle.flat_model.specs.Packets.Header as header;
ghost use Rattle.play_packet.specs.Builds as builds;
ghost use Rattle.play_packet.specs.Numbers.{word_bytes as bytes_of_word};
ghost use Rattle.play_packet.specs.Reads.{put_or};

use crate::form::{Form, Sum};
use crate::mark::Payload;
use crate::numbers::bytes_in;
use crate::places::{Misfit, NumberAt, refuse};
use flat_model::fold;
use flat_plain::{not_zero, put_u16, put_u32};
use params::{IP_DEFAULT_TTL, IP_HEADER, IP_MAX_DATA, IP_MAX_PACKET, PROTOCOL_UDP, UDP_HEADER};
use play_line::Fault;
use script_loop::{Buffer, LineBuffers};
use std::alloc::{AllocError, Global};

/// The capacity for a packet, and for the bytes that the checksum of the longest datagram covers.
const ROOM: usize = 65_600;

/// The length of the longest packet in bytes.
pub const PACKET: usize = IP_MAX_PACKET as usize;

/// The version and the header length in words of 4 bytes, if the line doesn't set them.
const DEFAULT_VERSION: u8 = 4;

const DEFAULT_IHL: u8 = 5;

/// The identification, if the line doesn't set it.
const DEFAULT_ID: u16 = 1;

/// Memory for building packets.
#[derive(Drop)]
pub(crate) struct Builder {
    /// The data of the datagram, and scratch memory for the digits of a packet.
    buffers: LineBuffers,
    /// The bytes that a checksum covers.
    covered: Buffer<ROOM>,
    /// The datagram before it is fragmented.
    datagram: Buffer<ROOM>,
}

/// Returns a 16-bit number as bytes.
fn two_bytes(n: u16) -> [u8; 2]
    ensures { result ≡ header.two_bytes n }
{
    let mut bytes = [0; 2];
    put_u16(&mut bytes, 0, n);
    bytes
}

/// Returns the source and the destination address as bytes.
fn address_bytes(form: &Form) -> [u8; 8]
    ensures { result ≡ header.address_bytes form.now.source.ip form.now.destination.ip }
{
    let mut bytes = [0; 8];
    put_u32(&mut bytes, 0, form.source.ip);
    put_u32(&mut bytes, 4, form.destination.ip);
    bytes
}

/// Returns the checksum of bytes that contain 0 in the checksum field.
fn checksum(bytes: &[u8]) -> u16
    ensures { result ≡ checksum_of bytes.now }
{
    65_535 - fold(bytes)
}

/// Returns a checksum that differs from the right one.
fn wrong(sum: u16) -> u16
    ensures { result ≡ builds.wrong sum }
{
    sum % 65_535 + 1
}

impl Sum {
    /// Returns the value of the checksum field, given the right checksum.
    fn written(self, right: u16) -> u16
        ensures { result ≡ builds.written_sum self right }
    {
        match self {
            Sum::Right => right,
            Sum::Wrong => wrong(right),
            Sum::Given(sum) => sum,
        }
    }
}

/// Returns a flag's contribution to its field.
fn flag(set: bool, worth: u16) -> u16
    ensures is { result ≡ header.flag set worth }
    ensures most { result ≤ worth }
{
    if set { worth } else { 0 }
}

/// Returns the length field of the UDP header for a datagram that carries `n` bytes.
fn udp_len_of(form: &Form, n: usize) -> u16
    requires { n ≤ 65527 }
    ensures { result ≡ builds.udp_len_of form.now n }
{
    form.udp_len.unwrap_or(UDP_HEADER as u16 + n as u16)
}

/// Returns the bytes of the data that a checksum covers.
fn covered_by(len: u16, sent: &[u8]) -> &[u8]
    ensures is { result.now ≡ take (len - UDP_HEADER) sent.now }
    ensures most { length result.now ≤ length sent.now }
{
    let n = (len as usize).saturating_sub(UDP_HEADER as usize);
    if n < sent.len() { &sent[..n] } else { sent }
}

/// Writes a datagram into a buffer.
fn put_udp(form: &Form, sent: &[u8], covered: &mut Buffer<ROOM>, out: &mut Buffer<ROOM>)
    requires { length sent.now ≤ 65527 }
    ensures is { out.new ≡ builds.datagram_of_form form.now sent.now }
    ensures len { length out.new ≡ 8 + length sent.now }
{
    let n = udp_len_of(form, sent.len());
    let source_port = two_bytes(form.source.port);
    let destination_port = two_bytes(form.destination.port);
    let len = two_bytes(n);
    let summed = covered_by(n, sent);
    covered.clear();
    covered.append(&address_bytes(form));
    covered.append(&[0, PROTOCOL_UDP]);
    covered.append(&len);
    covered.append(&source_port);
    covered.append(&destination_port);
    covered.append(&len);
    covered.append(&[0, 0]);
    covered.append(summed);
    let right = not_zero(checksum(covered.as_slice()));
    out.clear();
    out.append(&source_port);
    out.append(&destination_port);
    out.append(&len);
    out.append(&two_bytes(form.udp_sum.written(right)));
    out.append(sent);
}

/// Returns the number of the line, or a default.
fn value_or(default: usize, number: Option<NumberAt>) -> usize
    ensures { result ≡ builds.value_or default number }
{
    match number {
        Some(number) => number.value as usize,
        None => default,
    }
}

/// Returns the position of the number in the line.
fn place_of(number: Option<NumberAt>) -> usize
    ensures { result ≡ builds.place_or_zero number }
{
    match number {
        Some(number) => number.place,
        None => 0,
    }
}

/// Returns the ten bytes before the header's checksum, for a packet that carries `n` bytes.
fn front_bytes(form: &Form, n: usize) -> [u8; 10]
    requires { n ≤ IP_MAX_DATA }
    ensures { result ≡ builds.front_of_form form.now n }
{
    let version = form.version.unwrap_or(DEFAULT_VERSION) % 16;
    let ihl = form.ihl.unwrap_or(DEFAULT_IHL) % 16;
    let flags = flag(form.reserved, 32_768) + flag(form.whole, 16_384) + flag(form.more, 8192);
    let mut bytes = [0; 10];
    bytes[0] = 16 * version + ihl;
    bytes[1] = form.tos.unwrap_or(0);
    put_u16(
        &mut bytes,
        2,
        form.len.unwrap_or(IP_HEADER as u16 + n as u16),
    );
    put_u16(&mut bytes, 4, form.id.unwrap_or(DEFAULT_ID));
    put_u16(&mut bytes, 6, flags + form.offset.unwrap_or(0) / 8);
    bytes[8] = form.ttl.unwrap_or(IP_DEFAULT_TTL);
    bytes[9] = form.protocol.unwrap_or(PROTOCOL_UDP);
    bytes
}

/// Writes a packet that carries some bytes into a buffer.
fn put_packet(form: &Form, carried: &[u8], out: &mut Buffer<PACKET>)
    requires { length carried.now ≤ IP_MAX_DATA }
    ensures { out.new ≡ builds.packet_of form.now carried.now }
{
    let front = front_bytes(form, carried.len());
    let addresses = address_bytes(form);
    out.clear();
    out.append(&front);
    out.append(&[0, 0]);
    out.append(&addresses);
    let right = checksum(out.as_slice());
    let sum = form.sum.written(right);
    out.clear();
    out.append(&front);
    out.append(&two_bytes(sum));
    out.append(&addresses);
    out.append(carried);
}

/// Writes the packet that carries the part that the line selects of these bytes, which are a datagram or the line's own
/// bytes at position `place`.
fn cut(form: &Form, place: usize, whole: &[u8], packet: &mut Buffer<PACKET>) -> Result<(), Misfit>
    requires { length whole.now ≤ 65535 }
    ensures { put_or result packet.new ≡ builds.cut_of form.now place whole.now }
{
    let start = value_or(0, form.start);
    let left = whole.len().saturating_sub(start);
    let size = value_or(left, form.size);
    if left == 0 && 0 < start {
        refuse(Fault::PastEnd, place_of(form.start))
    } else if left < size {
        refuse(Fault::PastEnd, place_of(form.size))
    } else if (IP_MAX_DATA as usize) < size {
        refuse(Fault::TooLarge, place)
    } else {
        let (_, rest) = whole.split_at(start);
        put_packet(form, &rest[..size], packet);
        Ok(())
    }
}

impl Builder {
    /// Creates a builder with its memory.
    pub(crate) fn new(alloc: Global) -> Result<Builder, AllocError> {
        Ok(Builder {
            buffers: LineBuffers::new(alloc)?,
            covered: Buffer::new(alloc)?,
            datagram: Buffer::new(alloc)?,
        })
    }

    /// Builds the packet of a form. The digits of its bytes are at position `place`.
    fn build_form(
        &mut self,
        form: &Form,
        place: usize,
        digits: &[u8],
        packet: &mut Buffer<PACKET>,
    ) -> Result<(), Misfit>
        ensures { put_or result packet.new ≡ builds.built form.now place (bytes_of_word digits.now) }
    {
        let Some(sent) = bytes_in(digits, &mut self.buffers.bytes) else {
            return refuse(Fault::NoBytes, place);
        };
        if 65_527 < sent {
            return refuse(Fault::TooLarge, place);
        }
        let buffers = &self.buffers;
        let sent = &buffers.bytes[..sent];
        match form.payload {
            Payload::Udp => {
                put_udp(form, sent, &mut self.covered, &mut self.datagram);
                cut(form, place, self.datagram.as_slice(), packet)
            }
            Payload::Raw => cut(form, place, sent, packet),
        }
    }

    /// Writes the packet that the words after `rx udp` or `rx raw` describe into a buffer.
    pub(crate) fn build(
        &mut self,
        payload: Payload,
        text: &[u8],
        packet: &mut Buffer<PACKET>,
    ) -> Result<(), Misfit>
        ensures { put_or result packet.new ≡ builds.packet_named payload text.now }
    {
        let (form, span) = Form::read(payload, text)?;
        let (_, rest) = text.split_at(span.place);
        self.build_form(&form, span.place, &rest[..span.len], packet)
    }
}
