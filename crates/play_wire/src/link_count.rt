//! The counters of a host's link.
ghost use Rattle.std.specs.Prelude.{◌≡◌, ◌≤◌, length};
ghost use Rattle.play_wire.specs.LinkTexts.{all_link_counts, link_count, link_count_name};

use segment::Tallies;

/// A counter of a link, one of `Tallies`.
#[derive(Clone, Copy)]
pub(crate) enum LinkCount {
    Ignored,
    Martians,
    BadArp,
    Conflicts,
    RepliesDropped,
    NoRoute,
    HeldDropped,
    Unresolved,
    TooLong,
    Echoes,
    Unreachable,
    Limited,
    IcmpDropped,
    Expired,
}

/// Returns all of them, in the order in which they're printed.
pub(crate) fn link_counts() -> [LinkCount; 14]
    ensures { result ≡ all_link_counts }
{
    [
        LinkCount::Ignored,
        LinkCount::Martians,
        LinkCount::BadArp,
        LinkCount::Conflicts,
        LinkCount::RepliesDropped,
        LinkCount::NoRoute,
        LinkCount::HeldDropped,
        LinkCount::Unresolved,
        LinkCount::TooLong,
        LinkCount::Echoes,
        LinkCount::Unreachable,
        LinkCount::Limited,
        LinkCount::IcmpDropped,
        LinkCount::Expired,
    ]
}

impl LinkCount {
    /// Its name, as in `Tallies`.
    pub(crate) fn name(self) -> &'static str
        ensures is { result.now ≡ link_count_name self }
        ensures short { length result.now ≤ 16 }
    {
        match self {
            LinkCount::Ignored => "ignored",
            LinkCount::Martians => "martians",
            LinkCount::BadArp => "bad_arp",
            LinkCount::Conflicts => "conflicts",
            LinkCount::RepliesDropped => "replies_dropped",
            LinkCount::NoRoute => "no_route",
            LinkCount::HeldDropped => "held_dropped",
            LinkCount::Unresolved => "unresolved",
            LinkCount::TooLong => "too_long",
            LinkCount::Echoes => "echoes",
            LinkCount::Unreachable => "unreachable",
            LinkCount::Limited => "limited",
            LinkCount::IcmpDropped => "icmp_dropped",
            LinkCount::Expired => "expired",
        }
    }

    /// Returns the counter's value.
    pub(crate) fn value(self, tallies: &Tallies) -> u64
        ensures { result ≡ link_count self tallies.now }
    {
        match self {
            LinkCount::Ignored => tallies.ignored,
            LinkCount::Martians => tallies.martians,
            LinkCount::BadArp => tallies.bad_arp,
            LinkCount::Conflicts => tallies.conflicts,
            LinkCount::RepliesDropped => tallies.replies_dropped,
            LinkCount::NoRoute => tallies.no_route,
            LinkCount::HeldDropped => tallies.held_dropped,
            LinkCount::Unresolved => tallies.unresolved,
            LinkCount::TooLong => tallies.too_long,
            LinkCount::Echoes => tallies.echoes,
            LinkCount::Unreachable => tallies.unreachable,
            LinkCount::Limited => tallies.limited,
            LinkCount::IcmpDropped => tallies.icmp_dropped,
            LinkCount::Expired => tallies.expired,
        }
    }
}
