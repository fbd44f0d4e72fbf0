//! Counters and the pool in words.
use crate::SHOWN;
use flat_model::{Counter, Counters, Mbstat};
use play_text::Piece::{Amount, Long, Number, Text};
use play_text::add;
use script_loop::Buffer;

/// Returns the meaning of a counter.
fn meaning_of(counter: Counter) -> &'static str {
    match counter {
        Counter::IpTotal => "packets that reached IP input, from the link or by loopback",
        Counter::IpToosmall => "packets of fewer than 20 bytes",
        Counter::IpBadvers => "packets with a version other than 4",
        Counter::IpBadhlen => "packets with a header length below 5 words",
        Counter::IpOptions => "packets with options",
        Counter::IpBadsum => "packets with a wrong header checksum",
        Counter::IpBadlen => "packets with a total length below 20",
        Counter::IpTooshort => "packets with fewer bytes than their total length",
        Counter::IpCantforward => "packets for another host",
        Counter::IpBadfrag => "fragments with an impossible size or offset",
        Counter::IpFragments => "fragments that passed that test",
        Counter::IpFragdropped => "fragments whose bytes had all arrived already",
        Counter::IpFragtimeout => "unfinished datagrams dropped after 60 ticks",
        Counter::IpReclaimed => "unfinished datagrams dropped to free their buffers",
        Counter::IpReassembled => "datagrams reassembled",
        Counter::IpNoproto => "datagrams of a protocol other than UDP",
        Counter::UdpHdrops => "datagrams of fewer than 8 bytes",
        Counter::UdpBadlen =>
            "datagrams with a UDP length below 8 or above what the packet carries",
        Counter::UdpBadsum => "datagrams with a wrong UDP checksum",
        Counter::UdpNoport => "datagrams for a port without a socket, except broadcasts",
        Counter::UdpNoportbcast => "broadcasts for a port without a socket",
        Counter::UdpFullsock =>
            "datagrams dropped because a receive queue was full; a broadcast counts for each such socket",
        Counter::IpLocalout => "datagrams sent",
        Counter::IpFragmented => "datagrams sent in fragments",
        Counter::OutDropped => "datagrams sent whose packets did not all fit into the output queue",
        Counter::Nobufs =>
            "packets dropped because the pool had too few buffers; a broadcast counts for each such socket",
    }
}

/// Writes the lines of all counters into a buffer.
pub(crate) fn put_counters(text: &mut Buffer<SHOWN>, counters: &Counters) {
    for counter in Counter::all() {
        add(
            text,
            &[
                Text(b"    "),
                Text(counter.name().as_bytes()),
                Text(b" "),
                Long(counters.value(counter)),
                Text(b": "),
                Text(meaning_of(counter).as_bytes()),
                Text(b"\n"),
            ],
        );
    }
}

/// Appends how much of the pool is free, and how its clusters are shared.
pub(crate) fn put_pool(text: &mut Buffer<SHOWN>, usage: Mbstat) {
    add(
        text,
        &[
            Number(usage.free_mbufs),
            Text(b" of "),
            Amount(usage.mbufs, b"mbuf"),
            Text(b" free, "),
            Number(usage.free_clusters),
            Text(b" of "),
            Amount(usage.clusters, b"cluster"),
            Text(b" free, "),
            Amount(usage.refs, b"reference"),
            Text(b", at most "),
            Number(usage.most),
            Text(b" to a cluster"),
        ],
    );
}
