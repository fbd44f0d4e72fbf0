//! A fragment arrives: its header is pulled up, its key is looked up, and it joins the others of its datagram.
ghost use Rattle.std.specs.Prelude.{◌≡◌, ◌+◌, ◌*◌, ◌<◌, ◌≤◌, [], ◌∷◌, ◌++◌, true, false, Some, IfSome, length, is_some, option_to_list};
ghost use Rattle.flat_model.specs.Machine.State.{State};
ghost use Rattle.flat_model.specs.Amounts.Weight.{Weight, ◌⊕◌};
ghost use Rattle.flat_model.specs.Machine.Ledger.{exact_ledger};
ghost use Rattle.flat_model.specs.Machine.Arrival.{JoinsAs, is_bad_fragment};
ghost use Rattle.flat_model.specs.Machine.Fate.{told};
ghost use Rattle.flat_model.specs.declared.fate.Fate.{Fate};
ghost use Rattle.mbuf_chain.specs.Chain.{chain_of, entry_of, string};
ghost use Rattle.mbuf_chain.specs.Owners.{IsOwned, Moves};
ghost use Rattle.ledger.specs.Accounts.{IsAccounted, weight_at, weight_owned};
ghost use Rattle.ip_reass.specs.Arrivals.{ArrivalMoves, GoesOn, HasWhole, IsPulled, flat_head, in_hand, key_in, with_waiting, pulled_entries};
ghost use Rattle.ip_reass.specs.Fragments.{fragment_of};
ghost use Rattle.ip_reass.specs.Layouts.{ChainArrives, HasCause, HasLayout, WaitOrNone, cause_among, cause_of, fragment_carried, queues, under};
ghost use Rattle.ip_reass.specs.Table.{IsReady, held_all};
ghost use Rattle.ip_reass.specs.Inside.Place.{CanJoin, HasPlace};
ghost use Rattle.ip_reass.specs.Inside.Walks.{arrived};

use crate::arrival::Arrival;
use crate::insert::{Fragment, insert_and_count};
use crate::table::{Reass, begin, find};
use chain_ops::{m_pullup, trim_front};
use flat_model::{Counter, Counters, FragmentKey, Why};
use ip_out::IpHead;
use ledger::reserve;
use mbuf_chain::{Chain, Pool};
use params::{FRAGMENT_UNIT, IP_HEADER, IP_MAX_DATA, IP_MAX_PACKET};

/// Returns the key of a fragment.
fn key_of(head: &IpHead) -> FragmentKey
    ensures { result ≡ key_in head.now }
{
    FragmentKey {
        source: head.src,
        destination: head.dst,
        id: head.id,
        protocol: head.proto,
    }
}

/// Returns whether a fragment of `len` bytes is malformed: it's empty, or it has "more fragments" and a length that
/// isn't a multiple of 8, or it reaches past the longest datagram.
#[inline(always)]
pub(crate) fn is_bad(head: &IpHead, len: u32) -> bool
    requires offset { head.now.offset ≤ IP_MAX_PACKET }
    requires len { len ≤ IP_MAX_PACKET }
    ensures { result ≡ is_bad_fragment (flat_head head.now) len }
{
    len == 0 || (head.more && len % FRAGMENT_UNIT != 0) || head.offset + len > IP_MAX_DATA
}

impl Reass {
    /// Returns the place of the datagram with a key. If there isn't one, it's begun after the others, which takes an
    /// mbuf for its key. Returns `None` if no mbuf is available.
    // Inlined: as a call, which passes the header through memory, it cost each fragment 18 more instructions.
    #[inline(always)]
    fn place_of(
        &mut self,
        pool: &mut Pool,
        counters: &mut Counters,
        key: FragmentKey,
    ) -> Option<usize>
        requires ready { IsReady pool.old self.old }
        requires few { 2 * length self.old.datagrams < pool.old.mbufs }
        ensures { HasPlace pool.old self.old counters.old key result pool.new self.new counters.new }
    {
        if let Some(i) = find(self.datagrams.as_slice(), &mut self.index, key) {
            return Some(i);
        }
        if !reserve(pool, self, counters, 1, 0) {
            return None;
        }
        pool.laws();
        let Ok(holder) = pool.new_chain() else {
            unreachable!()
        };
        let i = self.datagrams.as_slice().len();
        begin(&mut self.datagrams, key, holder);
        Some(i)
    }

    /// Adds a fragment to its datagram, or begins the datagram.
    // Inlined with all that a fragment in order runs, so that no field of its header goes through memory: as calls,
    // seven fragments took 1,000 more instructions.
    #[inline(always)]
    pub(crate) fn insert_or_begin(
        &mut self,
        pool: &mut Pool,
        counters: &mut Counters,
        chain: Chain,
        head: IpHead,
    ) -> Arrival
        requires { CanJoin pool.old self.old chain head.offset }
        ensures step { (fate : Fate) (rest : State) (held : Weight) (new : State) →
            IsAccounted pool.old (with_waiting pool.old self.old.datagrams counters.old rest)
            (held ⊕ weight_at pool.old chain) →
            GoesOn (told fate) held pool.new result (with_waiting pool.new self.new.datagrams counters.new rest) new →
            JoinsAs exact_ledger (told fate) held (key_in head)
            (fragment_of (arrived pool.old chain head.offset head.more))
            (with_waiting pool.old self.old.datagrams counters.old rest) new }
        ensures whole { HasWhole pool.new head result }
        ensures layout { HasLayout pool.old self.old.datagrams (key_in head)
            (arrived pool.old chain head.offset head.more) result pool.new self.new.datagrams }
        ensures cause { HasCause (cause_among (under (key_in head) (queues pool.new self.new.datagrams))
            (arrived pool.old chain head.offset head.more)) result }
        ensures ready { IsReady pool.new self.new }
        ensures moves { ArrivalMoves pool.old (chain ∷ []) self.old.datagrams result pool.new self.new.datagrams }
    {
        pool.laws();
        let Some(i) = self.place_of(pool, counters, key_of(&head)) else {
            pool.free_chain(chain);
            counters.count_ended(Why::NoBufs);
            return Arrival::Dropped(Why::NoBufs);
        };
        let arrival = insert_and_count(
            pool,
            &mut self.datagrams,
            counters,
            i,
            Fragment { chain, head },
        );
        if let Arrival::Kept = arrival {
            return Arrival::Kept;
        }
        self.index.follow(&arrival, i);
        arrival
    }

    /// Moves the IP header of a fragment into a plain mbuf if its first mbuf is a cluster; this takes an mbuf. Returns
    /// `None` if no mbuf is available; the fragment is then freed and counted.
    fn pull_up(
        &mut self,
        pool: &mut Pool,
        counters: &mut Counters,
        mut chain: Chain,
    ) -> Option<Chain>
        requires ready { IsReady pool.old self.old }
        requires owned { IsOwned pool.old (chain ∷ held_all pool.old self.old.datagrams) }
        requires headed { (chain_of pool.old chain).front.header ≡ true }
        requires len { IP_HEADER ≤ length (string (chain_of pool.old chain)) }
        ensures plain { is_some (entry_of (chain_of pool.old chain) 0).cluster ≡ false → (pool.new ≡ pool.old)
            × (self.new ≡ self.old) × (counters.new ≡ counters.old) × (result ≡ Some chain) }
        ensures tested { is_some (entry_of (chain_of pool.old chain) 0).cluster ≡ true →
            (rest : State) (held : Weight) →
            IsAccounted pool.old (with_waiting pool.old self.old.datagrams counters.old rest)
            (held ⊕ weight_at pool.old chain) →
            IsPulled pool.old self.old.datagrams counters.old (weight_at pool.old chain) (is_some result) pool.new
            self.new.datagrams counters.new
            rest held }
        ensures waits { WaitOrNone (queues pool.old self.old.datagrams) (queues pool.new self.new.datagrams) }
        ensures none { is_some result ≡ false → queues pool.new self.new.datagrams ≡ [] }
        ensures entries { IfSome result (λ d. (chain_of pool.new d).entries
            ≡ pulled_entries (chain_of pool.old chain)) }
        ensures headed { IfSome result (λ d. (chain_of pool.new d).front.header ≡ true) }
        ensures ready { IsReady pool.new self.new }
        ensures moves { Moves pool.old (chain ∷ held_all pool.old self.old.datagrams) pool.new
            (option_to_list result ++ held_all pool.new self.new.datagrams) }
    {
        let first = pool.first(&chain);
        if pool.segment(&chain, first).cluster.is_none() {
            return Some(chain);
        }
        if !reserve(pool, self, counters, 1, 0) {
            pool.free_chain(chain);
            counters.count_ended(Why::NoBufs);
            return None;
        }
        match m_pullup(pool, &mut chain, IP_HEADER) {
            Ok(()) => Some(chain),
            Err(_) => unreachable!(),
        }
    }

    /// A fragment arrives, as a whole packet with its IP header (`ip_reass`, volume 2, chapter 10; RFC 791, section
    /// 3.2). Its chain is consumed; the chain in `Whole` has no IP header.
    ///
    /// If its first mbuf is a cluster, the header is pulled up, which takes an mbuf; a key that has no datagram yet
    /// takes one more. Each is requested with `reserve`: if none is free, all unfinished datagrams are dropped, and
    /// it's tested again. The result is `NoBufs` exactly if none is free then. `BadFragment` comes first, for a
    /// malformed fragment; it's `FragmentDropped` if fragments that begin no later have all its bytes. Each case is
    /// counted.
    ///
    /// A fragment that begins no later keeps its bytes; one that begins later loses the bytes that the new one has. The
    /// datagram is whole if its bytes are complete from 0 to the end of the last fragment. Its time isn't renewed.
    pub fn arrive(
        &mut self,
        pool: &mut Pool,
        counters: &mut Counters,
        chain: Chain,
        head: IpHead,
    ) -> Arrival
        requires ready { IsReady pool.old self.old }
        requires owned { IsOwned pool.old (chain ∷ held_all pool.old self.old.datagrams) }
        requires headed { (chain_of pool.old chain).front.header ≡ true }
        requires total { length (string (chain_of pool.old chain)) ≡ head.total }
        requires header { IP_HEADER ≤ head.total }
        requires offset { head.offset ≤ IP_MAX_PACKET }
        ensures step { (fate : Fate) (rest : State) (held : Weight) (new : State) →
            IsAccounted pool.old (with_waiting pool.old self.old.datagrams counters.old rest)
            (held ⊕ weight_at pool.old chain) →
            GoesOn (told fate) held pool.new result (with_waiting pool.new self.new.datagrams counters.new rest) new →
            ChainArrives (told fate) held head (chain_of pool.old chain)
            (with_waiting pool.old self.old.datagrams counters.old rest) new }
        ensures accounts { (rest : State) (held : Weight) →
            IsAccounted pool.old (with_waiting pool.old self.old.datagrams counters.old rest)
            (held ⊕ weight_at pool.old chain) →
            IsAccounted pool.new (with_waiting pool.new self.new.datagrams counters.new rest)
            (held ⊕ weight_owned pool.new (in_hand result)) }
        ensures whole { HasWhole pool.new head result }
        ensures layout { HasLayout pool.old self.old.datagrams (key_in head)
            (fragment_carried (chain_of pool.old chain) head) result pool.new self.new.datagrams }
        ensures cause { HasCause (cause_of (chain_of pool.old chain) head
            (under (key_in head) (queues pool.new self.new.datagrams))) result }
        ensures ready { IsReady pool.new self.new }
        ensures moves { ArrivalMoves pool.old (chain ∷ []) self.old.datagrams result pool.new self.new.datagrams }
    {
        let len = pool.len(&chain) - IP_HEADER;
        if is_bad(&head, len) {
            pool.free_chain(chain);
            counters.count_ended(Why::BadFragment);
            return Arrival::Dropped(Why::BadFragment);
        }
        counters.count(Counter::IpFragments);
        let Some(chain) = self.pull_up(pool, counters, chain) else {
            return Arrival::Dropped(Why::NoBufs);
        };
        trim_front(pool, &chain, IP_HEADER);
        self.insert_or_begin(pool, counters, chain, head)
    }
}
