//! The laws of a segment. Each is a function that does nothing; its contract is the law.
ghost use Rattle.std.specs.Prelude.{◌≡◌, ◌++◌, ◌∷◌, Contains, List, Some, false, slice_get, ℕ};
ghost use Rattle.flat_model.specs.Runs.Run.{Run, Turn};
ghost use Rattle.flat_model.specs.Machine.Event.{Receive, Received};
ghost use Rattle.flat_model.specs.Machine.Ledger.{exact_ledger};
ghost use Rattle.flat_model.specs.Machine.State.{Datagram, Socket};
ghost use Rattle.flat_model.specs.declared.address.Addr.{Addr};
ghost use Rattle.flat_model.specs.declared.config.Config.{Config};
ghost use Rattle.flat_wire.specs.Ever.{AreAllSent};
ghost use Rattle.flat_wire.specs.Wire.{WasSent};
ghost use Rattle.flat_ether.specs.Hosts.{Host, HostAct};
ghost use Rattle.flat_ether.specs.Hosts as host;
ghost use Rattle.flat_ether.specs.Laws.{WasReceivedOnEthernet, WasSentOnEthernet};
ghost use Rattle.flat_ether.specs.declared.link.Link.{Link};
ghost use Rattle.net_stack.specs.Stack.{StackView, state_of};
ghost use Rattle.segment.specs.Segment.{SegmentView, is_ether, no_hosts};
ghost use Rattle.segment.specs.Delay.{AreOnSegmentForEver};
ghost use Rattle.segment.specs.Law.{Act, AreActs, AreOnSegment, AreOnSegmentWhole, turns_of};
ghost use Rattle.segment.specs.EtherLaw.{AreOnEtherSegment, acts_of};

use flat_ether::any_hosts_on_an_ethernet;
use net_stack::{stacks_on_a_wire, stacks_on_a_wire_for_ever};

/// A host of a segment, whatever was done since it had no hosts: what its stack did is a run of the machine that was
/// booted with its configuration. For a segment with one host on which nothing is carried, that is the law of a script
/// of one machine.
pub fn hosts_are_machines()
    ensures { (room k : ℕ) (c : Config) (t : StackView) (acts : List Act) (last : SegmentView)
        → AreActs (no_hosts room) acts last → is_ether last ≡ false
        → slice_get last.configs k ≡ Some c → slice_get last.stacks k ≡ Some t
        → Run c (turns_of k acts) (state_of t) }
{}

/// Two hosts of a segment, whatever was done since it had no hosts: hosts joined, calls were made on any of them, and
/// packets were carried in between. Suppose that no packet with the first one's address was forged, that the first one
/// sent fewer than 65,536 times, and that `recvfrom` of the second one returns a datagram with that address as the
/// sender's. Then a send of the first one succeeded with these bytes, or, if the buffer was shorter, with a datagram
/// that begins with them. It was sent from that port, and to the second one and the port that the socket had then. The
/// law doesn't say that a datagram arrives, or that it arrives only once.
pub fn hosts_on_a_segment()
    ensures { (room i j : ℕ) (first second : Config) (s t : StackView) (acts : List Act) (last : SegmentView)
        (before after : List Turn) (fd most : ℕ) (sender : Addr) (bytes : List ℕ)
        → AreOnSegment room i j first second s t acts last
        → turns_of j acts ≡ before ++ record { event = Receive fd most; reply = Received sender bytes } ∷ after
        → sender.ip ≡ first.addr
        → WasSent exact_ledger exact_ledger first second (turns_of i acts) before (state_of s) fd most sender bytes }
{
    stacks_on_a_wire();
}

/// The law of two hosts of a segment without end, in two forms; the conclusions are those of `hosts_on_a_segment`, and
/// the same, whole, for each datagram in a queue of the second one. `whole`, `whole_waits`: the first one never sends a
/// datagram that is longer than one packet. It may send any number of them, at any rate, and the segment may delay them
/// for any time. `received`, `waits`: it sends datagrams of any length, and its packets have no longer delay than
/// `delay`. From a send on it sends at most 65,536 times, with this send, until these have happened one after another:
/// what waits is collected, what is due is delivered `delay` + 1 times, and the second one's clock ticks 60 times.
pub fn hosts_on_a_segment_for_ever()
    ensures whole { (room i j : ℕ) (first second : Config) (s t : StackView) (acts : List Act) (last : SegmentView)
        (before after : List Turn) (fd most : ℕ) (sender : Addr) (bytes : List ℕ)
        → AreOnSegmentWhole room i j first second s t acts last
        → turns_of j acts ≡ before ++ record { event = Receive fd most; reply = Received sender bytes } ∷ after
        → sender.ip ≡ first.addr
        → WasSent exact_ledger exact_ledger first second (turns_of i acts) before (state_of s) fd most sender bytes }
    ensures whole_waits { (room i j : ℕ) (first second : Config) (s t : StackView) (acts : List Act)
        (last : SegmentView) → AreOnSegmentWhole room i j first second s t acts last
        → AreAllSent exact_ledger first second (turns_of i acts) (state_of s) (state_of t) }
    ensures received { (room i j : ℕ) (first second : Config) (s t : StackView) (acts : List Act) (last : SegmentView)
        (delay : ℕ) (before after : List Turn) (fd most : ℕ) (sender : Addr) (bytes : List ℕ)
        → AreOnSegmentForEver room i j first second s t acts last delay
        → turns_of j acts ≡ before ++ record { event = Receive fd most; reply = Received sender bytes } ∷ after
        → sender.ip ≡ first.addr
        → WasSent exact_ledger exact_ledger first second (turns_of i acts) before (state_of s) fd most sender bytes }
    ensures waits { (room i j : ℕ) (first second : Config) (s t : StackView) (acts : List Act) (last : SegmentView)
        (delay : ℕ) → AreOnSegmentForEver room i j first second s t acts last delay
        → AreAllSent exact_ledger first second (turns_of i acts) (state_of s) (state_of t) }
{
    stacks_on_a_wire_for_ever();
}

/// Two hosts of a segment on which all are on an Ethernet, whatever was done since it had no hosts: hosts joined, calls
/// were made on any of them, and frames were carried, lost, repeated and delayed in between. Suppose that the first one
/// sent fewer than 65,536 times, that neither a frame from outside nor a call brought the second one a UDP packet with
/// the first one's address, and that `recvfrom` of the second one returns a datagram with that address as the sender's.
/// Then the first one sent it: see `hosts_on_a_segment`. It also sent, whole, each datagram in a queue of the second
/// one. ARP and ICMP may be forged.
pub fn hosts_on_an_ether_segment()
    ensures received { (room i j : ℕ) (first second : Config) (s t : Host) (acts : List Act) (last : SegmentView)
        (done : AreActs (no_hosts room) acts last) (before after : List HostAct) (fd most : ℕ) (sender : Addr)
        (bytes : List ℕ) → AreOnEtherSegment room i j first second s t acts last done
        → acts_of j (no_hosts room) acts last done
        ≡ before ++ host.Calls (record { event = Receive fd most; reply = Received sender bytes }) ∷ after
        → sender.ip ≡ first.addr → (l : Link) × (m : Link)
        × WasReceivedOnEthernet first second l m (acts_of i (no_hosts room) acts last done) before s fd most sender
        bytes }
    ensures waits { (room i j : ℕ) (first second : Config) (s t : Host) (acts : List Act) (last : SegmentView)
        (done : AreActs (no_hosts room) acts last) (socket : Socket) (datagram : Datagram)
        → AreOnEtherSegment room i j first second s t acts last done → Contains t.machine.sockets socket
        → Contains socket.queue datagram → datagram.sender.ip ≡ first.addr
        → (l : Link)
        × WasSentOnEthernet first second l (acts_of i (no_hosts room) acts last done) s socket datagram }
{
    any_hosts_on_an_ethernet();
}
