//! The ICMP reply that is being sent: a message, fragmented for the MTU of the link (RFC 791, section 3.2; RFC 1122,
//! section 3.2.2.6).
ghost use Rattle.std.specs.Prelude.{◌≡◌, ◌+◌, ◌%◌, ◌<◌, ◌≤◌, ◌++◌, [], drop, length, option_map, slice_get, take, is_some, true, IfSome};
ghost use Rattle.params.specs.declared.TheConstants.{FRAGMENT_UNIT, IP_HEADER, MIN_MTU};
ghost use Rattle.flat_ether.specs.declared.sizes.TheConstants.{ETHER_HEADER, ETHER_MTU};
ghost use Rattle.flat_ether.specs.Icmp.{reflected};
ghost use Rattle.flat_model.specs.Fragments.Cuts.{cuts};
ghost use Rattle.ip_out.specs.Headings.{head_bytes};

use crate::answer::HEADER;
use crate::buffer::PacketBuffer;
use crate::bytes::put_bytes;
use crate::frames::BODY;
use crate::share::{Share, share_at};
use flat_ether::PROTOCOL_ICMP;
use flat_model::Config;
use ip_out::{IpHead, u32_at, write_head};
use params::{FRAGMENT_UNIT, IP_DEFAULT_TTL, MIN_MTU};

/// An ICMP message back to the sender of a packet, fragmented for the link, and how many of its packets were sent.
#[derive(Drop)]
pub(crate) struct Reply {
    source: u32,
    destination: u32,
    id: u16,
    mtu: u16,
    message: PacketBuffer,
    gone: usize,
    waits: bool,
    ghost short: { IP_HEADER + message.len ≤ ETHER_MTU },
    ghost least: { MIN_MTU ≤ mtu },
    ghost left: { waits ≡ true → gone < length (cuts message.len mtu) },
}

/// Writes bytes, and others after them, over the front of a buffer.
pub(crate) fn put_both(buffer: &mut [u8], front: &[u8], rest: &[u8])
    requires { length front.now + length rest.now ≤ length buffer.old }
    ensures { take (length front.now + length rest.now) buffer.new ≡ front.now ++ rest.now }
{
    put_bytes(buffer, 0, front);
    put_bytes(buffer, front.len(), rest);
}

impl Reply {
    ghost use Rattle.ether_host.specs.Replies.{IsPartAt, packets_left, part_seen, share_head};

    /// No reply.
    pub(crate) fn blank() -> Reply
        ensures { packets_left result ≡ [] }
    {
        Reply {
            source: 0,
            destination: 0,
            id: 0,
            mtu: MIN_MTU,
            message: PacketBuffer::blank(),
            gone: 0,
            waits: false,
        }
    }

    /// Whether packets of it still wait.
    pub(crate) fn waits(&self) -> bool
        ensures { result ≡ is_some (slice_get (packets_left self.now) 0) }
    {
        self.waits
    }

    /// No packet of it waits any more.
    pub(crate) fn clear(&mut self)
        ensures { packets_left self.new ≡ [] }
    {
        self.waits = false;
    }

    /// Takes a message to the sender of a packet, with an identification: its first four bytes, and the rest.
    pub(crate) fn put(&mut self, config: &Config, id: u16, came: &[u8], front: [u8; 4], rest: &[u8])
        requires long { IP_HEADER ≤ length came.now }
        requires most { IP_HEADER + 4 + length rest.now ≤ ETHER_MTU }
        ensures { packets_left self.new ≡ reflected config.now id came.now (front ++ rest.now) }
    {
        put_both(&mut self.message.buffer, &front, rest);
        self.message.len = (4 + rest.len()) as u16;
        self.source = config.addr;
        self.destination = u32_at(came, 12);
        self.id = id;
        self.mtu = config.mtu.max(MIN_MTU);
        self.gone = 0;
        self.waits = true;
    }

    /// What the next packet carries.
    fn share(&self) -> Share
        requires { self.now.waits ≡ true }
        ensures is { IsPartAt (cuts self.now.message.len self.now.mtu) self.now.gone (part_seen result) }
        ensures within { result.offset + result.size ≤ self.now.message.len }
        ensures unit { result.offset % FRAGMENT_UNIT ≡ 0 }
        ensures few { self.now.gone ≤ ETHER_MTU }
    {
        let len = self.message.len as usize;
        let mtu = usize::from(self.mtu);
        if HEADER + len <= mtu {
            return Share {
                offset: 0,
                size: len,
                more: false,
            };
        }
        let unit = FRAGMENT_UNIT as usize;
        share_at(len, (mtu - HEADER) / unit * unit, self.gone)
    }

    /// The IP header of the packet with this share.
    fn head(&self, share: &Share) -> [u8; HEADER]
        requires size { IP_HEADER + share.now.size ≤ ETHER_MTU }
        requires offset { share.now.offset ≤ ETHER_MTU }
        requires unit { share.now.offset % FRAGMENT_UNIT ≡ 0 }
        ensures is { result ≡ head_bytes (share_head self.now share.now) }
        ensures size { length result ≡ IP_HEADER }
    {
        let mut bytes = [0; HEADER];
        let head = IpHead {
            tos: 0,
            total: (HEADER + share.size) as u16,
            id: self.id,
            dont: false,
            more: share.more,
            offset: share.offset as u32,
            ttl: IP_DEFAULT_TTL,
            proto: PROTOCOL_ICMP,
            src: self.source,
            dst: self.destination,
        };
        write_head(&mut bytes, head);
        bytes
    }

    /// Writes the next packet after the place of a frame's header. Returns how many bytes it has.
    pub(crate) fn next(&mut self, buffer: &mut [u8]) -> Option<usize>
        requires { ETHER_HEADER + ETHER_MTU ≤ length buffer.old }
        ensures packet { option_map (λ n. take n (drop ETHER_HEADER buffer.new)) result
            ≡ slice_get (packets_left self.old) 0 }
        ensures left { packets_left self.new ≡ drop 1 (packets_left self.old) }
        ensures fits { IfSome result (λ n. ETHER_HEADER + n ≤ length buffer.new) }
    {
        if !self.waits {
            return None;
        }
        let share = self.share();
        let head = self.head(&share);
        let data = &self.message.bytes()[share.offset..share.offset + share.size];
        put_both(&mut buffer[BODY..], &head, data);
        self.waits = share.more;
        self.gone += 1;
        Some(HEADER + share.size)
    }
}
