//! Laws of the definitions. Each is a function that does nothing; its contract is the law.
ghost use Rattle.std.specs.Prelude.{◌≡◌, ◌≢◌, ℕ, ◌+◌, ◌<◌, ◌≤◌, Bool, true, false, List, [], ◌∷◌, length, count_by};
ghost use Rattle.mbuf_chain.specs.Chain.{Entry, Front, PoolView, IsLive, without, alone, flat_bytes};
ghost use Rattle.mbuf_chain.specs.Owners.{Moves};
ghost use Rattle.chain_ops.specs.Makes.{Makes};
ghost use Rattle.flat_model.specs.Amounts.Weight.{Covers, IsSubBag, ◌⊕◌};
ghost use Rattle.flat_model.specs.Amounts.Layout.{weight_of, entries_met, user, sent, wire, is_cluster, entries_on};
ghost use Rattle.chain_ops.specs.Copies.{copied, copied_all};
ghost use Rattle.chain_ops.specs.Rooms.{room_low};
ghost use Rattle.chain_ops.specs.Joins.{cat};
ghost use Rattle.chain_ops.specs.Prepends.{prepended};
ghost use Rattle.chain_ops.specs.Stored.{stored_first};
ghost use Rattle.chain_ops.specs.Weights.{layout_entries, HaveBytes, AreFit};

use params::{CLUSTER_LEADING_SPACE, IP_UDP_HEADERS};

/// The copy of a range weighs as much as the entries that share a byte with it, if none is empty.
pub fn copy_weight()
    ensures { (header : Bool) (es : List Entry) (off len : ℕ) → HaveBytes es → 0 < len →
        weight_of (layout_entries (copied header es off len))
        ≡ weight_of (entries_met (layout_entries es) off (off + len)) }
{}

/// A copy of a whole chain has the layout and the bytes of the original.
pub fn copy_all()
    ensures layout { (header : Bool) (es : List Entry) →
        layout_entries (copied_all (room_low header) es) ≡ layout_entries es }
    ensures bytes { (header : Bool) (es : List Entry) → flat_bytes (copied_all (room_low header) es) ≡ flat_bytes es }
{}

/// A join takes no more mbufs than the two chains have, refers to no other cluster, and has space for its bytes.
pub fn join_weight()
    ensures mbufs { (es fs : List Entry) → (weight_of (layout_entries (cat es fs))).mbufs
        ≤ (weight_of (layout_entries es) ⊕ weight_of (layout_entries fs)).mbufs }
    ensures bag { (es fs : List Entry) → IsSubBag (weight_of (layout_entries (cat es fs))).bag
        (weight_of (layout_entries es) ⊕ weight_of (layout_entries fs)).bag }
    ensures fit { (es fs : List Entry) → AreFit es → AreFit fs → AreFit (cat es fs) }
    ensures covers { (es : List Entry) → 0 < length es → AreFit es →
        Covers (weight_of (layout_entries es)) (length (flat_bytes es)) }
{}

/// Stored bytes have the layout of the flat machine.
pub fn stored_layout()
    ensures user { (cs xs : List ℕ) → length cs ≡ count_by is_cluster (user (length xs)) →
        layout_entries (stored_first CLUSTER_LEADING_SPACE true cs (user (length xs)) xs) ≡ entries_on cs (user
        (length xs)) }
    ensures wire { (cs xs : List ℕ) → length cs ≡ count_by is_cluster (wire (length xs)) →
        layout_entries (stored_first 0 false cs (wire (length xs)) xs) ≡ entries_on cs (wire (length xs)) }
{}

/// The owners' chains after an operation: a new chain, a changed chain, perhaps under another number, and two joined
/// chains. Every other chain is unchanged.
pub fn frame()
    ensures made { (p q : PoolView) (d : ℕ) (f : Front) (es : List Entry) → Makes p q d f es → Moves p [] q (d ∷ []) }
    ensures changed { (p q : PoolView) (c d : ℕ) (f : Front) (es : List Entry) → IsLive p c →
        Makes (without p c) q d f es → Moves p (c ∷ []) q (d ∷ []) }
    ensures joined { (p q : PoolView) (c d : ℕ) (f : Front) (es : List Entry) → IsLive p c → IsLive p d →
        c ≢ d → Makes (without (without p d) c) q c f es → Moves p (c ∷ d ∷ []) q (c ∷ []) }
{}

/// The 28 bytes of headers that `m_prepend` puts before the bytes of a send give the layout of the flat machine: in the
/// leading space of the first mbuf for at most 72 bytes, otherwise in an mbuf of their own.
pub fn sent_layout()
    ensures { (cs xs hs : List ℕ) → length cs ≡ count_by is_cluster (user (length xs)) → length hs ≡ IP_UDP_HEADERS →
        layout_entries (prepended (record {
          front = alone true;
          entries = stored_first CLUSTER_LEADING_SPACE true cs (user (length xs)) xs;
          cells = [];
        }) hs) ≡ entries_on cs (sent (length xs)) }
{}
