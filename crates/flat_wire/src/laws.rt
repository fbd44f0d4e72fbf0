//! The laws. Each is a function that does nothing; its contract is the law.
ghost use Rattle.std.specs.Prelude.{◌+◌, ℕ, List, ◌≤◌, ◌<◌, length, All};
ghost use Rattle.params.specs.declared.TheConstants.{FRAGMENT_UNIT, IP_HEADER};
ghost use Rattle.flat_model.specs.Fragments.Overlay.{Fragment};
ghost use Rattle.flat_model.specs.Machine.Ledger.{exact_ledger};
ghost use Rattle.flat_wire.specs.Overlays.{IsFragmentOf, OverlayOrder};
ghost use Rattle.flat_wire.specs.Age.{AgeLaw};
ghost use Rattle.flat_wire.specs.Ever.{PaceLaw, ReceivedLawForEver, ReceivedLawOfWhole, WireLawForEver, WireLawOfWhole};
ghost use Rattle.flat_wire.specs.Places.{ConservationLaw};
ghost use Rattle.flat_wire.specs.Progress.{ProgressLaw};
ghost use Rattle.flat_wire.specs.Queue.{QueueLaw};
ghost use Rattle.flat_wire.specs.Wire.{ReceivedLaw, WireLaw};

/// The result of putting the parts of a cut string together doesn't depend on the order in which they arrive, or on how
/// often.
pub fn overlay_order()
    ensures { (s : List ℕ) (mtu : ℕ) (fragments : List Fragment) → 0 < length s → IP_HEADER + FRAGMENT_UNIT ≤ mtu →
        All (IsFragmentOf s mtu) fragments → OverlayOrder s mtu fragments }
{}

/// Two hosts on one wire that loses, repeats and reorders packets: every datagram in the second host's queues with the
/// first host's address as its sender was sent by the first, with these bytes.
pub fn wire_law()
    ensures { WireLaw exact_ledger exact_ledger }
{}

/// The same for what the second host's program receives: the bytes that its `recvfrom` returns with the first host's
/// address as the sender are a prefix of a datagram that the first host sent.
pub fn received_law()
    ensures { ReceivedLaw exact_ledger exact_ledger }
{}

/// The law of the wire for a first host that never sends a fragment: it may send any number of datagrams, at any rate.
/// Then `recvfrom` returns what was sent, and each queue has what was sent, as in `received_law` and `wire_law`.
pub fn wire_law_of_whole()
    ensures waits { WireLawOfWhole exact_ledger exact_ledger }
    ensures received { ReceivedLawOfWhole exact_ledger exact_ledger }
{}

/// The law of the wire for runs of any length. Two fragments from the first host that arrive at the second with fewer
/// than 60 of its ticks between them come from sends that are fewer than 65,536 apart. Sends count from the call, not
/// from `tx`, and a send that a full output queue refused counts too.
pub fn wire_law_for_ever()
    ensures waits { WireLawForEver exact_ledger exact_ledger }
    ensures received { ReceivedLawForEver exact_ledger exact_ledger }
{}

/// What a user checks for `wire_law_for_ever`: the most sends in the life of a packet, from the call of send to the
/// arrival, and the most sends in 60 of the receiver's ticks are together at most 65,536.
pub fn pace_law()
    ensures { PaceLaw }
{}

/// The output queue gives out all that was put in, once and in order, whatever happens in between.
pub fn queue_law()
    ensures { QueueLaw exact_ledger }
{}

/// Each unfinished datagram is exactly as old as its ticks say, since a fragment with its key arrived, or since a send
/// whose packets came back. So none is older than 60 ticks.
pub fn age_law()
    ensures { AgeLaw exact_ledger }
{}

/// What arrives in time is received. All packets of a fragmented datagram arrive at a host, in any order and any number
/// of times, with fewer than 60 of its ticks among them; nothing is reclaimed and nothing lacks buffers meanwhile, and
/// no host forges a fragment with the same key. Then one of these arrivals completes the datagram, and it's appended to
/// the queue of the socket that matches at that moment. If none matches, `udp.noport` counts it; if the queue has no
/// space, `udp.fullsock` does.
pub fn progress_law()
    ensures { ProgressLaw }
{}

/// No packet is lost without a count. In each run each packet that arrives, from the wire or by loopback, has one
/// place: it's lost for one cause, it waits for the other fragments of its datagram, or its datagram reaches the
/// sockets that match, each of which gets it or loses its copy for one cause. The fate that `rx` returned agrees with
/// the place. Each counter of a cause counts exactly the packets and the copies with that cause. Each datagram that a
/// socket got was read, was dropped when its socket was closed, or is in a queue. Each datagram whose first fragment
/// waited was completed, expired, was reclaimed, or is unfinished. Each packet for the link was given to it, waits, or
/// found the queue full. All this holds until a counter stops at its greatest value.
pub fn conservation_law()
    ensures { ConservationLaw }
{}
