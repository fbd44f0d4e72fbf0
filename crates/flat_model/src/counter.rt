//! The counters by name.
ghost use Rattle.std.specs.Prelude.{◌≡◌, ◌<◌, length, map, slice_index_or};
ghost use Rattle.flat_model.specs.Machine.Count.{counter_name, all_counters};
ghost use Rattle.flat_model.specs.declared.counter.Counter.TheVariants.{IpTotal};

/// The number of counters.
pub(crate) const COUNTERS: usize = 26;

/// A counter (from `ipstat` and `udpstat` of volume 2, chapters 8 and 23; the selection is this project's own). A
/// counter without a comment counts the packets that end with the case of [`Why`](crate::Why) that has its name.
#[derive(Clone, Copy, Debug, PartialEq, Eq)]
pub enum Counter {
    /// Packets that reached the input of IP, from the wire or by loopback.
    IpTotal,
    IpToosmall,
    IpBadvers,
    IpBadhlen,
    IpOptions,
    IpBadsum,
    IpBadlen,
    IpTooshort,
    IpCantforward,
    IpBadfrag,
    /// Fragments that passed the tests of their size.
    IpFragments,
    IpFragdropped,
    /// Unfinished datagrams dropped because their time was over.
    IpFragtimeout,
    /// Unfinished datagrams dropped to free their buffers.
    IpReclaimed,
    /// Datagrams reassembled.
    IpReassembled,
    IpNoproto,
    UdpHdrops,
    UdpBadlen,
    UdpBadsum,
    UdpNoport,
    UdpNoportbcast,
    UdpFullsock,
    /// Sends passed to the output of IP.
    IpLocalout,
    /// The sends among these that were fragmented.
    IpFragmented,
    /// Sends refused because the output queue was full.
    OutDropped,
    /// Packets, or one receiver's copy of them, lost because the pool had too few buffers.
    Nobufs,
}

/// The counters with their names, in the order in which they are printed (this project's own, after the fields of
/// `ipstat` and `udpstat`). The order is that of the type too, so a counter's name is found by its index.
const NAMED: [(Counter, &str); COUNTERS] = [
    (Counter::IpTotal, "ip.total"),
    (Counter::IpToosmall, "ip.toosmall"),
    (Counter::IpBadvers, "ip.badvers"),
    (Counter::IpBadhlen, "ip.badhlen"),
    (Counter::IpOptions, "ip.options"),
    (Counter::IpBadsum, "ip.badsum"),
    (Counter::IpBadlen, "ip.badlen"),
    (Counter::IpTooshort, "ip.tooshort"),
    (Counter::IpCantforward, "ip.cantforward"),
    (Counter::IpBadfrag, "ip.badfrag"),
    (Counter::IpFragments, "ip.fragments"),
    (Counter::IpFragdropped, "ip.fragdropped"),
    (Counter::IpFragtimeout, "ip.fragtimeout"),
    (Counter::IpReclaimed, "ip.reclaimed"),
    (Counter::IpReassembled, "ip.reassembled"),
    (Counter::IpNoproto, "ip.noproto"),
    (Counter::UdpHdrops, "udp.hdrops"),
    (Counter::UdpBadlen, "udp.badlen"),
    (Counter::UdpBadsum, "udp.badsum"),
    (Counter::UdpNoport, "udp.noport"),
    (Counter::UdpNoportbcast, "udp.noportbcast"),
    (Counter::UdpFullsock, "udp.fullsock"),
    (Counter::IpLocalout, "ip.localout"),
    (Counter::IpFragmented, "ip.fragmented"),
    (Counter::OutDropped, "out.dropped"),
    (Counter::Nobufs, "nobufs"),
];

impl Counter {
    /// Returns all counters, in the order in which they are printed.
    pub fn all() -> [Counter; 26]
        ensures { result ≡ all_counters }
    {
        let mut all = [Counter::IpTotal; COUNTERS];
        for i in 0..COUNTERS {
            all[i] = counter_at(&NAMED, i);
        }
        all
    }

    /// Returns the counter's name as it is printed.
    pub fn name(self) -> &'static str
        ensures { result.now ≡ counter_name self }
    {
        NAMED[self as usize].1
    }
}

/// Returns the counter at an index of a table.
fn counter_at(named: &[(Counter, &str)], index: usize) -> Counter
    requires { index < length named.now }
    ensures { result ≡ slice_index_or (map (λ entry. entry.0) named.now) index IpTotal }
{
    named[index].0
}
