//! The laws over whole runs. Each is an empty function, and its contract is the law.
ghost use Rattle.std.specs.Prelude.{◌≡◌, ◌≢◌, ◌++◌, ◌<◌, ◌⊎◌, ◌∷◌, Contains, List, Option, Some, length, true, ℕ};
ghost use Rattle.std.specs.List.{AllByRecursion as Each};
ghost use Rattle.flat_model.specs.Amounts.Layout.{need_of, wire};
ghost use Rattle.flat_model.specs.Packets.Header.{udp_bytes};
ghost use Rattle.flat_model.specs.Sockets.Fits.{fits};
ghost use Rattle.flat_model.specs.Machine.Send.{need_to, target};
ghost use Rattle.flat_model.specs.Runs.Isolation.{HoldsAtMost, IsQueuedLast, IsWholeFor, PoolHasRoom, allowed, datagram_in, memory_of_need, with_address};
ghost use Rattle.flat_model.specs.Runs.Run.{Turn, Run};
ghost use Rattle.flat_model.specs.Machine.Event.{Comes, Done, Receive, Received, Refused, Reply, Send};
ghost use Rattle.flat_model.specs.Machine.Ledger.{exact_ledger};
ghost use Rattle.flat_model.specs.Machine.State.{Datagram, Socket, boot as flat_boot, socket_at};
ghost use Rattle.flat_model.specs.declared.address.Addr.{Addr};
ghost use Rattle.flat_model.specs.declared.config.Config.{Config};
ghost use Rattle.flat_model.specs.declared.errno.Errno.TheVariants.{NoBufs};
ghost use Rattle.flat_model.specs.declared.errno.Lack.TheVariants.{Pool};
ghost use Rattle.flat_wire.specs.Ever.{AreAllSent};
ghost use Rattle.flat_wire.specs.Wire.{IsAnswered, WasSent};
ghost use Rattle.net_stack.specs.Stack.{StackView, state_of};
ghost use Rattle.net_stack.specs.Runs.{AreCalls, IsTurnOf, PassedCall, turns_of_calls};
ghost use Rattle.net_stack.specs.Isolation.{IsLimited};
ghost use Rattle.net_stack.specs.Wire.{AreOnOneWire, AreOnOneWireForEver, AreOnOneWireWhole};

use flat_model::sockets_are_isolated;
use flat_wire::{received_law, wire_law, wire_law_for_ever, wire_law_of_whole};

/// For any sequence of calls on a stack that has just started, the replies are those of one run of the flat machine,
/// which ends in the state of the stack. The contract of `boot` says how a stack starts, and the contract of each call
/// that it's such a call.
pub fn calls_are_run()
    ensures { (config : Config) (first last : StackView) (turns : List Turn) → state_of first ≡ flat_boot config
        → AreCalls first turns last → Run config turns (state_of last) }
{}

/// Two stacks are on one wire that loses, repeats and reorders packets. No other host sends with the first one's
/// address, and the first sends fewer than 65,536 times. If `recvfrom` of the second returns the first's address as the
/// sender, a send of the first has succeeded with these bytes, from that port, to the second and the port that the
/// socket had then; if the buffer was shorter than the datagram, the bytes are its front. The same holds for each whole
/// datagram in a queue of the second. The law doesn't say that anything arrives, or that it arrives only once.
pub fn stacks_on_a_wire()
    ensures received { (first second : Config) (sent before after : List Turn) (s t : StackView) (fd most : ℕ)
        (sender : Addr) (bytes : List ℕ) → AreOnOneWire first second sent
        (before ++ record { event = Receive fd most; reply = Received sender bytes } ∷ after) s t →
        sender.ip ≡ first.addr →
        WasSent exact_ledger exact_ledger first second sent before (state_of s) fd most sender bytes }
    ensures waits { (first second : Config) (sent came : List Turn) (s t : StackView) (socket : Socket)
        (d : Datagram) → AreOnOneWire first second sent came s t → Contains (state_of t).sockets socket →
        Contains socket.queue d → d.sender.ip ≡ first.addr → (to : Addr)
        × IsAnswered exact_ledger first sent (state_of s) d.sender.port to d.item.bytes
        × (socket.port ≡ Some to.port) × ((to.ip ≡ second.addr) ⊎ (to.ip ≡ second.bcast)) }
{
    received_law();
    wire_law();
}

/// The law of a wire for stacks that send without end, in two forms; the conclusions are those of `stacks_on_a_wire`.
/// `whole`, `whole_waits`: the first never sends a datagram that is longer than one packet. `received`, `waits`: it
/// sends datagrams of any length, and two fragments that arrive at the second fewer than 60 of its ticks apart come
/// from sends that are fewer than 65,536 apart, counted from the call of `sendto`. `flat_wire::pace_law` says what a
/// user checks for that.
pub fn stacks_on_a_wire_for_ever()
    ensures whole { (first second : Config) (sent before after : List Turn) (s t : StackView) (fd most : ℕ)
        (sender : Addr) (bytes : List ℕ) → AreOnOneWireWhole first second sent
        (before ++ record { event = Receive fd most; reply = Received sender bytes } ∷ after) s t →
        sender.ip ≡ first.addr →
        WasSent exact_ledger exact_ledger first second sent before (state_of s) fd most sender bytes }
    ensures whole_waits { (first second : Config) (sent came : List Turn) (s t : StackView) →
        AreOnOneWireWhole first second sent came s t →
        AreAllSent exact_ledger first second sent (state_of s) (state_of t) }
    ensures received { (first second : Config) (sent : List PassedCall) (before after : List Turn) (s t : StackView)
        (born : ℕ → ℕ) (fd most : ℕ) (sender : Addr) (bytes : List ℕ) → AreOnOneWireForEver first second sent
        (before ++ record { event = Receive fd most; reply = Received sender bytes } ∷ after) s t born →
        sender.ip ≡ first.addr →
        WasSent exact_ledger exact_ledger first second (turns_of_calls sent) before (state_of s) fd most sender bytes }
    ensures waits { (first second : Config) (sent : List PassedCall) (came : List Turn) (s t : StackView)
        (born : ℕ → ℕ) → AreOnOneWireForEver first second sent came s t born →
        AreAllSent exact_ledger first second (turns_of_calls sent) (state_of s) (state_of t) }
{
    wire_law_of_whole();
    wire_law_for_ever();
}

/// Sockets with receive limits leave each other their buffers, whatever arrives. The stack has just started, and
/// whatever calls were made since then: each limit was set while that socket's queue was empty (`IsLimited`). Then a
/// queue of limit n holds at most 2n / 128 mbufs, and refers to at most 2n / 2,176 clusters. Let each open socket have
/// a limit, and let the pool have room for all that the limits allow, for the packets in the output queue, and for what
/// a call needs (`PoolHasRoom`). Then a send isn't refused for the pool; and a packet that carries a whole datagram for
/// one socket, and fits its limit, is queued. Unfinished datagrams don't count: they are dropped if buffers are
/// lacking.
pub fn stacks_isolate_sockets()
    ensures holds { (config : Config) (s : StackView) → IsLimited config s → Each (λ (socket : Socket).
        0 < socket.limit → HoldsAtMost (allowed socket.limit) socket.queue) (state_of s).sockets }
    ensures send { (config : Config) (s t : StackView) (fd : ℕ) (to : Option Addr) (bytes : List ℕ) (me : Socket)
        (reply : Reply) → IsLimited config s → socket_at fd (state_of s) ≡ Some me →
        PoolHasRoom (need_to (state_of s).config (target (state_of s) me to).ip (length bytes)) (state_of s) →
        IsTurnOf s (record { event = Send fd to bytes; reply = reply }) t → reply ≢ Refused (NoBufs Pool) }
    ensures arrival { (config : Config) (s t : StackView) (packet : List ℕ) (to : Socket) → IsLimited config s →
        IsWholeFor (state_of s) packet to →
        fits to.limit to.queue (length (udp_bytes (datagram_in packet)))
        (memory_of_need (need_of (wire (length packet)))) ≡ true →
        PoolHasRoom (with_address (need_of (wire (length packet)))) (state_of s) →
        IsTurnOf s (record { event = Comes packet; reply = Done }) t → IsQueuedLast packet to (state_of t) }
{
    sockets_are_isolated();
}
