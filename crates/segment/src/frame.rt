//! A packet on the segment, and its buffer.
ghost use Rattle.std.specs.Prelude.{◌≡◌, ◌<◌, ◌≤◌, [], ◌∷◌, length, take, IfSome};
ghost use Rattle.params.specs.declared.TheConstants.{IP_HEADER, MAX_MTU};
ghost use Rattle.net_stack.specs.Runs.{AreCalls};
ghost use Rattle.flat_ether.specs.Frames.{is_addressed, mac_at};
ghost use Rattle.flat_ether.specs.declared.sizes.TheConstants.{ETHER_HEADER};
ghost use Rattle.segment.specs.Frames.{frame_goes_to};
ghost use Rattle.segment.specs.Flying.{ip_destination, transmits_of, goes_to, is_destination, waiting};

use byteorder::{BigEndian, ByteOrder};
use flat_ether::{ETHER_BROADCAST, ETHER_HEADER, Mac};
use flat_model::Config;
use net_stack::Stack;
use params::{IP_HEADER, LIMITED_BROADCAST, MAX_MTU};
use std::alloc::{AllocError, Global};

/// The size of the buffer for a packet of any link.
pub(crate) const ROOM: usize = MAX_MTU as usize;

/// The bytes of an IP header without options.
const HEADER: usize = IP_HEADER as usize;

/// The bytes of a frame's header.
const ETHER: usize = ETHER_HEADER as usize;

/// A packet, the host that sent it, and for how many carries it isn't due yet. If it moves to another list, its bytes
/// stay where they are.
#[derive(Drop)]
pub(crate) struct Frame {
    pub(crate) sender: usize,
    pub(crate) wait: u64,
    pub(crate) len: usize,
    pub(crate) room: Box<[u8; ROOM]>,
    ghost within: { len ≤ MAX_MTU },
}

impl Frame {
    /// A frame with no bytes.
    pub(crate) fn blank(alloc: Global) -> Result<Frame, AllocError> {
        match Box::new(alloc, [0; ROOM]) {
            Ok(room) => Ok(Frame {
                sender: 0,
                wait: 0,
                len: 0,
                room,
            }),
            Err(_) => Err(AllocError),
        }
    }

    /// Becomes a copy of another frame, with another delay.
    pub(crate) fn copy(&mut self, other: &Frame, wait: u64)
        ensures sender { self.new.sender ≡ other.now.sender }
        ensures wait { self.new.wait ≡ wait }
        ensures packet { take self.new.len self.new.room.value ≡ take other.now.len other.now.room.value }
    {
        self.sender = other.sender;
        self.wait = wait;
        self.len = other.len;
        copy_front(&mut *self.room, other.bytes());
    }

    /// The packet's bytes.
    pub(crate) fn bytes(&self) -> &[u8]
        ensures is { result.now ≡ take self.now.len self.now.room.value }
        ensures len { length result.now ≡ self.now.len }
        ensures most { length result.now ≤ MAX_MTU }
    {
        &self.room[..self.len]
    }

    /// Takes the packet that has waited longest for the link of this host. There must be one.
    pub(crate) fn fill(&mut self, sender: usize, stack: &mut Stack)
        requires { 0 < length (waiting stack.old) }
        ensures calls { AreCalls stack.old (transmits_of (take self.new.len self.new.room.value ∷ [])) stack.new }
        ensures waits { waiting stack.old ≡ take self.new.len self.new.room.value ∷ waiting stack.new }
        ensures sender { self.new.sender ≡ sender }
    {
        self.sender = sender;
        stack.laws();
        if let Some(len) = stack.tx(&mut *self.room) {
            self.len = len;
        }
    }

    /// Whether the frame is for the host at a place with this hardware address.
    pub(crate) fn is_addressed(&self, place: usize, mac: Mac) -> bool
        ensures { result ≡ frame_goes_to place mac (record {
          sender = self.now.sender;
          packet = take self.now.len self.now.room.value;
          wait = self.now.wait;
        }) }
    {
        self.sender != place && is_addressed(mac, self.bytes())
    }

    /// The destination in the packet's header. `None` if it's shorter than a header.
    pub(crate) fn destination(&self) -> Option<u32>
        ensures { IfSome result (λ ip. ip ≡ ip_destination (take self.now.len self.now.room.value)) }
    {
        let packet = self.bytes();
        if packet.len() < HEADER {
            None
        } else {
            Some(destination_of(packet))
        }
    }

    /// Whether the packet is for the host at a place with this configuration.
    pub(crate) fn goes_to(&self, place: usize, config: &Config) -> bool
        ensures { result ≡ goes_to place config.now (record {
          sender = self.now.sender;
          packet = take self.now.len self.now.room.value;
          wait = self.now.wait;
        }) }
    {
        let packet = self.bytes();
        self.sender != place && packet.len() >= HEADER && is_named(config, destination_of(packet))
    }
}

/// The destination address of a frame.
fn destination_mac(frame: &[u8]) -> Mac
    requires { ETHER_HEADER ≤ length frame.now }
    ensures { result ≡ mac_at 0 frame.now }
{
    Mac {
        high: BigEndian::read_u16(frame),
        low: BigEndian::read_u32(&frame[2..]),
    }
}

/// Whether a frame has a header, and its destination is this hardware address or the broadcast address.
fn is_addressed(mac: Mac, frame: &[u8]) -> bool
    ensures { result ≡ is_addressed mac frame.now }
{
    if frame.len() < ETHER {
        return false;
    }
    let destination = destination_mac(frame);
    destination.is(mac) || destination.is(ETHER_BROADCAST)
}

/// Copies bytes to the front of a buffer.
fn copy_front(room: &mut [u8; ROOM], bytes: &[u8])
    requires { length bytes.now ≤ MAX_MTU }
    ensures { take (length bytes.now) room.new ≡ bytes.now }
{
    room[..bytes.len()].copy_from_slice(bytes);
}

/// The destination in a packet's header.
fn destination_of(packet: &[u8]) -> u32
    requires { IP_HEADER ≤ length packet.now }
    ensures { result ≡ ip_destination packet.now }
{
    BigEndian::read_u32(&packet[16..])
}

/// Whether this is an address of a host with this configuration.
fn is_named(config: &Config, ip: u32) -> bool
    ensures { result ≡ is_destination config.now ip }
{
    ip == config.addr || ip == config.bcast || ip == LIMITED_BROADCAST
}
