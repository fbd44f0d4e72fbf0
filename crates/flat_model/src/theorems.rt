//! Theorems about the definitions. Each is a function that does nothing; its contract is the theorem.
ghost use Rattle.std.specs.Prelude.{◌≡◌, ◌≢◌, ◌&&◌, nat_le, Some, Option, ◌↔◌, ◌+◌, ◌%◌, ℕ, Bool, true, List, [], ◌∷◌, ◌++◌, ◌<◌, ◌≤◌, length};
ghost use Rattle.std.specs.List.{AllByRecursion as Each};
ghost use Rattle.params.specs.declared.TheConstants.{FRAGMENT_TICKS, FRAGMENT_UNIT, IP_HEADER};
ghost use Rattle.flat_model.specs.Amounts.Weight.{Item, Weight, nothing, ◌⊕◌};
ghost use Rattle.flat_model.specs.Amounts.Layout.{Need, need_of, wire};
ghost use Rattle.flat_model.specs.Packets.Header.{udp_bytes};
ghost use Rattle.flat_model.specs.Machine.Ledger.{HasBuffers, need_mbufs, exact_ledger, loose_ledger, weight_of_state, free_mbufs, usage_of};
ghost use Rattle.flat_model.specs.Machine.Event.{Event, Reply, IsEvent, Comes, Done, Refused, Send};
ghost use Rattle.flat_model.specs.Machine.Fate.{Fated};
ghost use Rattle.flat_model.specs.declared.fate.Fate.{Fate};
ghost use Rattle.flat_model.specs.Machine.Arrival.{Appends};
ghost use Rattle.flat_model.specs.Sockets.Fits.{bytes_queued, fits, memory_of, memory_queued};
ghost use Rattle.flat_model.specs.declared.address.Addr.{Addr};
ghost use Rattle.flat_model.specs.declared.errno.Errno.TheVariants.{NoBufs};
ghost use Rattle.flat_model.specs.declared.errno.Lack.TheVariants.{Pool};
ghost use Rattle.flat_model.specs.Machine.Send.{enqueued, need_to, spent, target, to_link};
ghost use Rattle.flat_model.specs.Machine.Sending.{Sending, parts_of};
ghost use Rattle.flat_model.specs.Machine.State.{Datagram, IsConfig, Key, Socket, State, Unfinished, boot, is_key, socket_at};
ghost use Rattle.flat_model.specs.Runs.Consistent.{IsConsistent};
ghost use Rattle.flat_model.specs.Machine.Step.{Step, Loose};
ghost use Rattle.flat_model.specs.Runs.Run.{Turn, Leads, Run};
ghost use Rattle.flat_model.specs.Scripts.Script.{Prints, IsPrintOfRun, PrintsRun, all_events};
ghost use Rattle.flat_model.specs.Runs.Isolation.{AreUnset, HoldsAtMost, IsQueuedFor, IsQueuedLast, IsWholeFor, KeepLimits, LeadsEmpty, PoolHasRoom, SetsEmpty, SetsNone, allowed, datagram_in, held_and, memory_of_need, with_address};
ghost use Rattle.flat_model.specs.Runs.Clock.{only_ticks};
ghost use Rattle.flat_model.specs.declared.config.Config.{Config};
ghost use Rattle.flat_model.specs.Runs.Laws.{CutsJoin};

/// The parts of a string, joined, are the string. The length of every part except the last is a multiple of 8, and each
/// packet is at most as long as the link's MTU (RFC 791 section 3.2, "Fragmentation and Reassembly").
pub fn cuts_join()
    ensures { (s : List ℕ) (mtu : ℕ) → IP_HEADER + FRAGMENT_UNIT ≤ mtu → CutsJoin s mtu }
{}

/// Fragments are of one datagram exactly if all fields of their keys are equal: source, destination, identification and
/// protocol (RFC 791, section 3.2).
pub fn keys_are_whole()
    ensures { (k : Key) (u : Unfinished) → (is_key k u ≡ true) ↔ (u.key ≡ k) }
{}

/// A send that reaches the output queue uses up its identification, whether or not the queue accepts all of its
/// packets. In the state right after it, before any of its packets is looped back, the next datagram has the next
/// identification; 0 follows 65,535.
pub fn sends_are_numbered()
    ensures { (fd : ℕ) (out : List Item) (x : Sending) (old : State) →
        (enqueued (to_link old.config x.to.ip out) (spent fd x.port (parts_of old.config x) old)).next_id
        ≡ (old.next_id + 1) % 65536 }
{}

/// The machine with exact buffer accounts does nothing that the machine without accounts may not do: each of its steps
/// is a step of that machine, so each of its runs is a run of it.
pub fn exact_is_loose()
    ensures step { (old new : State) (event : Event) (reply : Reply) →
        Step old event reply new → Loose old event reply new }
    ensures run { (config : Config) (turns : List Turn) (new : State) →
        Run config turns new → Leads loose_ledger (boot config) turns new }
{}

/// The invariants of every state that the machine reaches. Its accounts are never overdrawn. Its datagrams and packets
/// refer to clusters of the pool and have space for their bytes. Descriptors differ, keys differ, and every number is
/// within its limits. All this holds at the start, and every step of the exact machine preserves it.
pub fn states_are_consistent()
    ensures start { (config : Config) → IsConfig config → IsConsistent (boot config) }
    ensures step { (old new : State) (event : Event) (reply : Reply) →
        IsConsistent old → IsEvent event → Step old event reply new → IsConsistent new }
    ensures run { (config : Config) (turns : List Turn) (new : State) →
        IsConfig config → Run config turns new → IsConsistent new }
{}

/// A run continues with one more event, as the machine replies to it.
pub fn leads_on()
    ensures exact { (old mid new : State) (turns : List Turn) (turn : Turn) → Leads exact_ledger old turns mid →
        IsEvent turn.event → Step mid turn.event turn.reply new → Leads exact_ledger old (turns ++ turn ∷ []) new }
    ensures loose { (old mid new : State) (turns : List Turn) (turn : Turn) → Leads loose_ledger old turns mid →
        IsEvent turn.event → Loose mid turn.event turn.reply new → Leads loose_ledger old (turns ++ turn ∷ []) new }
{}

/// A run determines what is printed for the lines of a script. Each line that requests an event takes one step, in
/// order; the output is the replies of these steps, and a question mark for every other line. From boot, and if all
/// lines are served, it is a run of the whole machine.
pub fn printed_is_run()
    ensures exact { (serves : Event → Bool) (old new : State) (lines : List (List ℕ)) (printed : List ℕ) →
        Prints serves Step old lines printed new → IsPrintOfRun exact_ledger serves old lines printed new }
    ensures loose { (serves : Event → Bool) (old new : State) (lines : List (List ℕ)) (printed : List ℕ) →
        Prints serves Loose old lines printed new → IsPrintOfRun loose_ledger serves old lines printed new }
    ensures whole { (config : Config) (lines : List (List ℕ)) (printed : List ℕ) (new : State) →
        Prints all_events Step (boot config) lines printed new → PrintsRun config lines printed new }
{}

/// The accounts balance: free and held mbufs add up to the total, and the counts of all clusters add up to the number
/// of references. If nothing is held, everything is free and no reference to a cluster exists.
pub fn accounts_balance()
    ensures mbufs { (s : State) → IsConsistent s →
        free_mbufs s nothing + (weight_of_state s).mbufs ≡ s.config.mbufs }
    ensures references { (s : State) → IsConsistent s →
        (usage_of s).refs ≡ length (weight_of_state s).bag }
    ensures nothing_held { (s : State) → s.sockets ≡ [] → s.unfinished ≡ [] → s.output ≡ [] →
        usage_of s ≡ record {
          free_mbufs = s.config.mbufs;
          mbufs = s.config.mbufs;
          free_clusters = s.config.clusters;
          clusters = s.config.clusters;
          refs = 0;
          most = 0;
        } }
{}

/// No socket can starve another. At the start all queues are within their limits, and every step keeps them so, if it
/// sets no limit of a queue in which datagrams wait. In such a state a queue of limit n holds at most 2n / 128 mbufs
/// and refers to at most 2n / 2,176 clusters. Let each socket have a limit, and let the pool have room for all that the
/// limits allow, for the output queue as it is, and for the buffers that a step holds and needs. Then the step's test
/// for buffers doesn't fail. So a send is never refused for the pool, and a datagram that fits its socket's limit is
/// never dropped for want of buffers: a packet with a whole datagram for one socket is queued.
pub fn sockets_are_isolated()
    ensures start { (config : Config) → KeepLimits (boot config) }
    ensures step { (old new : State) (event : Event) (reply : Reply) → IsConsistent old → KeepLimits old →
        SetsEmpty event old → Step old event reply new → KeepLimits new }
    ensures run { (config : Config) (turns : List Turn) (new : State) → IsConfig config →
        LeadsEmpty (boot config) turns new → IsConsistent new × KeepLimits new }
    ensures holds { (s : State) → IsConsistent s → KeepLimits s →
        Each (λ (socket : Socket). 0 < socket.limit → HoldsAtMost (allowed socket.limit) socket.queue) s.sockets }
    ensures test { (s mid : State) (held : Weight) (need : Need) (yes : Bool) →
        IsConsistent s → KeepLimits s → PoolHasRoom (held_and held need) s →
        HasBuffers exact_ledger s held need yes mid → yes ≡ true }
    ensures send { (s new : State) (fd : ℕ) (to : Option Addr) (bytes : List ℕ) (me : Socket)
        (reply : Reply) → IsConsistent s → KeepLimits s → socket_at fd s ≡ Some me →
        PoolHasRoom (held_and nothing (need_to s.config (target s me to).ip (length bytes))) s →
        Step s (Send fd to bytes) reply new → reply ≢ Refused (NoBufs Pool) }
    ensures delivery { (s new : State) (held : Weight) (sender : Addr) (item : Item) (to : Socket) →
        IsConsistent s → KeepLimits s → PoolHasRoom (held_and (held ⊕ item.weight) (need_mbufs 1)) s →
        fits to.limit to.queue (length item.bytes) (memory_of item.weight) ≡ true →
        Appends exact_ledger held sender item to s new → IsQueuedFor to sender item s new }
    ensures arrival { (s new : State) (packet : List ℕ) (reply : Reply) (to : Socket) → IsConsistent s →
        KeepLimits s → IsWholeFor s packet to →
        fits to.limit to.queue (length (udp_bytes (datagram_in packet)))
        (memory_of_need (need_of (wire (length packet)))) ≡ true →
        PoolHasRoom (with_address (need_of (wire (length packet)))) s → Step s (Comes packet) reply new →
        IsQueuedLast packet to new }
{}

/// Without a call that sets a limit, no socket has one. Then a datagram fits by the book's test: at most 41,600 bytes
/// with it, 16 for each sender's address among them, and 83,200 bytes of memory.
pub fn limits_are_unset()
    ensures run { (config : Config) (turns : List Turn) (new : State) → IsConfig config →
        Each (λ (turn : Turn). SetsNone turn.event) turns → Run config turns new → AreUnset new }
    ensures fits { (queue : List Datagram) (n memory : ℕ) → fits 0 queue n memory
        ≡ (nat_le (16 + n + bytes_queued queue) 41600 && nat_le (16 + n + memory_queued queue) 83200) }
{}

/// A packet with its fate is a step: a fate adds to the contract of the event and removes nothing from it.
pub fn fates_are_steps()
    ensures { (old new : State) (packet : List ℕ) (fate : Fate) → Fated old packet fate new →
        Step old (Comes packet) Done new }
{}

/// A clock that ticks without any other call: after 60 ticks no datagram is unfinished, and further ticks change
/// nothing. So after a long time without calls 60 ticks are enough.
pub fn ticks_settle()
    ensures finish { (s new : State) (n : ℕ) → IsConsistent s → FRAGMENT_TICKS ≤ n →
        Leads exact_ledger s (only_ticks n) new → new.unfinished ≡ [] }
    ensures settle { (s at later : State) (n : ℕ) → IsConsistent s → FRAGMENT_TICKS ≤ n →
        Leads exact_ledger s (only_ticks FRAGMENT_TICKS) at → Leads exact_ledger s (only_ticks n) later → later ≡ at }
{}
