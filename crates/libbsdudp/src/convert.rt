//! Conversions from and to the structs of C.
ghost use Rattle.std.specs.Prelude.{◌≡◌};
ghost use Rattle.libbsdudp.specs.Plain.{addr_of, config_of, c_fate, c_frame_fate, c_name, c_next, c_plain, c_range, c_unfinished, c_usage, c_whole, whom};

use crate::plain::{CAddr, CConfig, CFate, CMbstat, CName, CNext, CRange, CUnfinished};
use flat_model::{Addr, Config, Fate, Mbstat, Reached, Why};
use net_stack::{HeldRange, UnfinishedDatagram};
use sock_calls::{NextDatagram, SocketName};

impl CConfig {
    pub(crate) fn config(&self) -> Config
        ensures { result ≡ config_of self.now }
    {
        Config {
            addr: self.addr,
            bcast: self.bcast,
            mtu: self.mtu,
            mbufs: self.mbufs,
            clusters: self.clusters,
            first_id: self.first_id,
        }
    }
}

impl CAddr {
    pub(crate) fn addr(&self) -> Addr
        ensures { result ≡ addr_of self.now }
    {
        Addr {
            ip: self.ip,
            port: self.port,
        }
    }

    pub(crate) fn of(addr: Addr) -> CAddr
        ensures { result ≡ whom addr }
    {
        CAddr {
            ip: addr.ip,
            port: addr.port,
        }
    }
}

impl CMbstat {
    pub(crate) fn of(usage: Mbstat) -> CMbstat
        ensures { result ≡ c_usage usage }
    {
        CMbstat {
            free_mbufs: usage.free_mbufs,
            mbufs: usage.mbufs,
            free_clusters: usage.free_clusters,
            clusters: usage.clusters,
            refs: usage.refs,
            most: usage.most,
        }
    }
}

impl CName {
    pub(crate) fn of(name: SocketName) -> CName
        ensures { result ≡ c_name name }
    {
        let peer = name.peer.unwrap_or(Addr { ip: 0, port: 0 });
        CName {
            local_ip: name.local.unwrap_or(0),
            peer_ip: peer.ip,
            local_port: name.port.unwrap_or(0),
            peer_port: peer.port,
            broadcast: u8::from(name.broadcast),
            reuse_port: u8::from(name.reuse_port),
        }
    }
}

impl CNext {
    pub(crate) fn of(next: NextDatagram) -> CNext
        ensures { result ≡ c_next next }
    {
        CNext {
            ip: next.sender.ip,
            port: next.sender.port,
            len: next.len,
            waiting: next.waiting,
        }
    }
}

impl CUnfinished {
    pub(crate) fn of(datagram: UnfinishedDatagram) -> CUnfinished
        ensures { result ≡ c_unfinished datagram }
    {
        CUnfinished {
            source: datagram.key.source,
            destination: datagram.key.destination,
            bytes: datagram.bytes,
            ranges: datagram.ranges,
            id: datagram.key.id,
            protocol: datagram.key.protocol,
            ticks: datagram.ticks,
        }
    }
}

impl CRange {
    pub(crate) fn of(range: HeldRange) -> CRange
        ensures { result ≡ c_range range }
    {
        CRange {
            offset: range.offset,
            len: range.len,
            more: u8::from(range.more),
        }
    }
}

/// `kind` of a `CFate`: a frame had no packet for the stack.
const NO_PACKET: u8 = 0;

/// The datagram was delivered, or lost by each socket that it was for.
const DELIVERED: u8 = 1;

/// The packet is a fragment that is kept for the others of its datagram.
const KEPT: u8 = 2;

/// The packet was dropped, or the datagram that it carried or completed.
const DROPPED: u8 = 3;

impl CFate {
    /// The fate of a whole datagram. `completed` is 1 if a fragment completed it, otherwise 0.
    fn whole(completed: u8, whole: Result<Reached, Why>) -> CFate
        ensures { result ≡ c_whole completed whole }
    {
        match whole {
            Ok(reached) => CFate {
                got: reached.got,
                lost: reached.lost,
                cause: 0,
                kind: DELIVERED,
                completed,
            },
            Err(why) => CFate {
                got: 0,
                lost: 0,
                cause: why.counter() as u32,
                kind: DROPPED,
                completed,
            },
        }
    }

    /// A fate without sockets and without a cause.
    fn plain(kind: u8) -> CFate
        ensures { result ≡ c_plain kind }
    {
        CFate {
            got: 0,
            lost: 0,
            cause: 0,
            kind,
            completed: 0,
        }
    }

    /// The fate of the packet in a frame. `None`: the stack received no packet.
    pub(crate) fn of_frame(told: Option<Fate>) -> CFate
        ensures { result ≡ c_frame_fate told }
    {
        match told {
            Some(fate) => CFate::of(fate),
            None => CFate::plain(NO_PACKET),
        }
    }

    pub(crate) fn of(fate: Fate) -> CFate
        ensures { result ≡ c_fate fate }
    {
        match fate {
            Fate::Delivered(reached) => CFate::whole(0, Ok(reached)),
            Fate::Kept => CFate::plain(KEPT),
            Fate::Completed(whole) => CFate::whole(1, whole),
            Fate::Dropped(why) => CFate::whole(0, Err(why)),
        }
    }
}
