//! The pool.
ghost use Rattle.std.specs.Prelude.{◌≡◌, ◌≢◌, ℕ, ◌+◌, ◌-◌, ◌^◌, ◌<◌, ◌≤◌, true, false, None, Some, length, sum, fold, max, IfOk, OnOk, OnErr, IsSome, IfSome, MatchOption, if◌then◌else◌, take, drop};
ghost use Rattle.std.specs.FinMap as finmap;
ghost use Rattle.params.specs.declared.TheConstants.{MBUF_HEADER, MCLBYTES, MSIZE};
ghost use Rattle.mbuf_pool.specs.Store.{mbufs_out, cluster_count};
ghost use Rattle.mbuf_chain.specs.Chain.{IsLive, IsPlace, alone, chain_of, with_chain, without, held_mbufs, references, reference_counts, free_clusters, LacksForCluster, string_in, layout, Adds, IsUnshared, room_start, room_end, leading_space, trailing_space, entry_in, HasLeadingSpace, HasTrailingSpace};
ghost use Rattle.mbuf_chain.specs.Heads.{heads};
ghost use Rattle.mbuf_chain.specs.Pieces.{chain_pieces};
ghost use Rattle.mbuf_chain.specs.Steps.{one_mbuf, empty_entry, narrowed, with_front, with_back, overwritten, joined, placed, first_part, second_part, with_entry_in, linked};
ghost use Rattle.mbuf_chain.specs.Frames.{IsBounded};
ghost use Rattle.mbuf_chain.specs.Inside.Cells.{head_before, only_head};

use crate::chain::Chain;
use crate::pieces::{Entries, MbufHeads, Pieces};
use crate::place::{Place, Segment};
use crate::usage::Usage;
use crate::{data, links, pieces};
use mbuf_pool::{Change, Head, NoBufs, PacketHeader, Store};
use params::PACKET_START;
use std::marker::Model;

/// The type of each mbuf of a chain. No code reads it.
const KIND: u16 = 1;

/// A pool of chains of mbufs, over a store that it hides.
///
/// Contracts see it as a `PoolView`: the total numbers of mbufs and clusters, and a finite map from a chain's number to
/// the chain's contents. README.md explains the terms and has a picture.
#[derive(Drop)]
pub struct Pool {
    store: Store,
}

impl Model for Pool {
    ghost use Rattle.mbuf_chain.specs.Chain.{PoolView, coded_pool};
    ghost use Rattle.mbuf_chain.specs.Inside.Cells.{pool_of, IsPool};

    ghost Value = { PoolView };

    ghost coded = { coded_pool };

    ghost view = { λ p. pool_of p.store };

    ghost invariant = { λ p. IsPool p.store };
}

impl Pool {
    /// Creates a pool without chains, over a store in which everything is free.
    pub fn over(store: Store) -> Pool
        requires mbufs { mbufs_out store ≡ 0 }
        requires clusters { (c : ℕ) → cluster_count store c ≡ 0 }
        ensures { result ≡ record {
          mbufs = length store.mbufs;
          clusters = length store.clusters;
          chains = finmap.empty;
        } }
    {
        store.laws();
        Pool { store }
    }

    /// States what is always true of a pool. It takes no step at run time.
    pub const fn laws(&self)
        ensures { IsBounded self.now }
    {
        self.store.laws();
    }

    /// Returns the number of free mbufs.
    pub fn free_mbufs(&self) -> u32
        ensures free { result + held_mbufs self.now ≡ self.now.mbufs }
        ensures bounds { IsBounded self.now }
    {
        self.store.free_mbufs()
    }

    /// Returns the number of free clusters.
    pub fn free_clusters(&self) -> u32
        ensures { result ≡ free_clusters self.now }
    {
        self.store.free_clusters()
    }

    /// Returns how many mbufs refer to a cluster. There must be such a cluster.
    pub fn count(&self, cluster: u32) -> u32
        requires { cluster < self.now.clusters }
        ensures { result ≡ references self.now cluster }
    {
        self.store.count(cluster)
    }

    /// Returns how much is free, and how many references the clusters have. It takes one step per cluster.
    pub fn usage(&self) -> Usage
        ensures mbufs { result.mbufs ≡ self.now.mbufs }
        ensures free_mbufs { result.free_mbufs + held_mbufs self.now ≡ self.now.mbufs }
        ensures clusters { result.clusters ≡ self.now.clusters }
        ensures free_clusters { result.free_clusters ≡ free_clusters self.now }
        ensures references { result.references ≡ sum (reference_counts self.now) }
        ensures greatest { result.greatest_count ≡ fold max 0 (reference_counts self.now) }
    {
        let counts = self.store.counts();
        Usage {
            free_mbufs: self.free_mbufs(),
            mbufs: self.store.mbufs(),
            free_clusters: self.free_clusters(),
            clusters: self.store.clusters(),
            references: counts.sum,
            greatest_count: counts.greatest,
        }
    }

    /// Makes a chain of one empty mbuf with a packet header. Returns `NoBufs` exactly if no mbuf is free; nothing
    /// changes then.
    pub fn new_chain(&mut self) -> Result<Chain, NoBufs>
        ensures ok { IfOk result (λ c. Adds self.old self.new c
            (one_mbuf true (empty_entry PACKET_START None) c)) }
        ensures free { OnOk result (held_mbufs self.old < self.old.mbufs) }
        ensures err { OnErr result (held_mbufs self.old ≡ self.old.mbufs) }
        ensures same { OnErr result (self.new ≡ self.old) }
    {
        self.new_plain(true, PACKET_START)
    }

    /// Makes a chain of one empty mbuf, with or without a packet header, whose data begins at `start`: an offset from
    /// 28 (20 without a packet header) to 128. Returns `NoBufs` exactly if no mbuf is free; nothing changes then.
    #[inline(always)]
    pub fn new_plain(&mut self, header: bool, start: u32) -> Result<Chain, NoBufs>
        requires low { (if header then PACKET_START else MBUF_HEADER) ≤ start }
        requires high { start ≤ MSIZE }
        ensures ok { IfOk result (λ c. Adds self.old self.new c
            (one_mbuf header (empty_entry start None) c)) }
        ensures free { OnOk result (held_mbufs self.old < self.old.mbufs) }
        ensures err { OnErr result (held_mbufs self.old ≡ self.old.mbufs) }
        ensures same { OnErr result (self.new ≡ self.old) }
    {
        self.new_plain_with(header, start, &[])
    }

    /// Makes a chain of one mbuf that contains the given bytes, with or without a packet header. They begin at `start`,
    /// an offset of at least 28 (20 without a packet header), and must end at 128 or before. The result is that of
    /// `new_plain` and `put_back`, but the head is written once. Returns `NoBufs` exactly if no mbuf is free; nothing
    /// changes then.
    #[inline(always)]
    pub fn new_plain_with(
        &mut self,
        header: bool,
        start: u32,
        bytes: &[u8],
    ) -> Result<Chain, NoBufs>
        requires low { (if header then PACKET_START else MBUF_HEADER) ≤ start }
        requires high { start + length bytes.now ≤ MSIZE }
        ensures ok { IfOk result (λ c. Adds self.old self.new c
            (one_mbuf header (record { bytes = bytes.now; start = start; cluster = None }) c)) }
        ensures free { OnOk result (held_mbufs self.old < self.old.mbufs) }
        ensures err { OnErr result (held_mbufs self.old ≡ self.old.mbufs) }
        ensures same { OnErr result (self.new ≡ self.old) }
    {
        let head = head_for(header, start, bytes.len() as u32, None);
        match self.store.get_with(head) {
            Ok(first) => {
                let at = Place {
                    index: 0,
                    cell: first,
                };
                data::write_in(&mut self.store, first, at, None, start, bytes);
                Ok(Chain { first })
            }
            Err(refusal) => Err(refusal),
        }
    }

    /// Makes an mbuf with a packet header and the given bytes, like `new_plain_with`, before a chain of `len` bytes
    /// that has no packet header and is in no train. An mbuf must be free. The result is that of `new_plain_with` and
    /// `link_counted`, but the new head is written only once, and the chain's own head isn't written.
    #[inline(always)]
    pub fn new_plain_before(&mut self, start: u32, bytes: &[u8], back: Chain, len: u32) -> Chain
        requires low { PACKET_START ≤ start }
        requires high { start + length bytes.now ≤ MSIZE }
        requires free { held_mbufs self.old < self.old.mbufs }
        requires back { IsLive self.old back }
        requires bare { (chain_of self.old back).front ≡ alone false }
        requires len { len ≡ length (string_in self.old back) }
        ensures { Adds (without self.old back) self.new result (joined
            (one_mbuf true (record { bytes = bytes.now; start = start; cluster = None }) result)
            (chain_of self.old back)) }
    {
        let back = back.into_number();
        let Ok(first) = self
            .store
            .get_with(head_before(start, bytes.len() as u32, back, len))
        else {
            unreachable!()
        };
        let front = Place {
            index: 0,
            cell: first,
        };
        data::write_in(&mut self.store, first, front, None, start, bytes);
        Chain { first }
    }

    /// Frees a chain's mbufs and their cluster references. A cluster is free after its last reference is removed.
    ///
    /// For example, if the counts of the clusters along the chain are `1->2->3`, they are `0->1->2` after the call. The
    /// first is free; the others stay with the chains that share them.
    pub fn free_chain(&mut self, chain: Chain)
        requires { IsLive self.old chain }
        ensures { self.new ≡ without self.old chain }
    {
        let Chain { first } = chain;
        links::free_chain(&mut self.store, first);
    }

    /// Frees the first mbuf of a chain of two or more and its cluster reference. Returns the chain of the others, which
    /// has no packet header. The result is that of `cut` after that mbuf and `free_chain`, in one step (`m_free` of
    /// TCP/IP Illustrated, volume 2, chapter 2).
    pub fn free_first(&mut self, chain: Chain) -> Chain
        requires live { IsLive self.old chain }
        requires several { 1 < length (chain_of self.old chain).entries }
        ensures { Adds (without self.old chain) self.new result
            (second_part 1 (chain_of self.old chain)) }
    {
        let Chain { first } = chain;
        let rest = links::free_first(&mut self.store, first);
        Chain { first: rest }
    }

    /// Returns how many bytes a chain has. It takes one step if the chain has a packet header, otherwise one step per
    /// mbuf.
    #[inline(always)]
    pub fn len(&self, chain: &Chain) -> u32
        requires { IsLive self.now chain.now }
        ensures { result ≡ length (string_in self.now chain.now) }
    {
        links::bytes_of(&self.store, chain.first)
    }

    /// Returns how many mbufs a chain has. It takes one step per mbuf.
    pub fn mbufs(&self, chain: &Chain) -> u32
        requires { IsLive self.now chain.now }
        ensures { result ≡ length (chain_of self.now chain.now).entries }
    {
        links::mbufs_of(&self.store, chain.first)
    }

    /// Returns whether a chain has a packet header.
    #[inline(always)]
    pub fn has_header(&self, chain: &Chain) -> bool
        requires { IsLive self.now chain.now }
        ensures { result ≡ (chain_of self.now chain.now).front.header }
    {
        links::has_header(&self.store, chain.first)
    }

    /// Iterates over the mbufs of a chain, in order: the length and the cluster of each, `None` if it has no cluster.
    pub fn layout(&self, chain: &Chain) -> Entries<'_>
        requires { IsLive self.now chain.now }
        ensures { result ≡ layout (chain_of self.now chain.now) }
    {
        pieces::layout_of(&self.store, chain.first)
    }

    /// Iterates over the mbufs of a chain, in order: the bytes of each, without copying. An mbuf without bytes yields
    /// an empty slice.
    pub fn pieces(&self, chain: &Chain) -> Pieces<'_>
        requires { IsLive self.now chain.now }
        ensures { result ≡ chain_pieces (chain_of self.now chain.now) }
    {
        pieces::pieces_of(&self.store, chain.first)
    }

    /// Iterates over the mbufs of a chain, in order, for drawing them: the head fields and the bytes of each, without
    /// copying. The numbers are only for output: no call accepts one as a chain.
    pub fn heads(&self, chain: &Chain) -> MbufHeads<'_>
        requires { IsLive self.now chain.now }
        ensures { result ≡ heads (chain_of self.now chain.now) }
    {
        pieces::heads_of(&self.store, chain.first)
    }

    /// Returns the place of a chain's first mbuf.
    #[inline(always)]
    pub fn first(&self, chain: &Chain) -> Place
        requires { IsLive self.now chain.now }
        ensures place { IsPlace (chain_of self.now chain.now) result }
        ensures index { result.index ≡ 0 }
    {
        self.store.laws();
        Place {
            index: 0,
            cell: chain.first,
        }
    }

    /// Returns the place after another, or `None` after the last.
    pub fn next(&self, chain: &Chain, at: Place) -> Option<Place>
        requires live { IsLive self.now chain.now }
        requires place { IsPlace (chain_of self.now chain.now) at }
        ensures { MatchOption result (at.index + 1 ≡
            length (chain_of self.now chain.now).entries)
            (λ q. IsPlace (chain_of self.now chain.now) q × (q.index ≡ at.index + 1)) }
    {
        links::next(&self.store, chain.first, at)
    }

    /// Returns the place of a chain's last mbuf. It takes one step per mbuf.
    pub fn last(&self, chain: &Chain) -> Place
        requires { IsLive self.now chain.now }
        ensures place { IsPlace (chain_of self.now chain.now) result }
        ensures index { result.index + 1 ≡ length (chain_of self.now chain.now).entries }
    {
        links::last(&self.store, chain.first)
    }

    /// Returns the location and the number of an mbuf's bytes.
    #[inline(always)]
    pub fn segment(&self, chain: &Chain, at: Place) -> Segment
        requires live { IsLive self.now chain.now }
        requires place { IsPlace (chain_of self.now chain.now) at }
        ensures value { result ≡ record {
          start = (entry_in self.now chain.now at).start;
          len = length (entry_in self.now chain.now at).bytes;
          cluster = (entry_in self.now chain.now at).cluster;
        } }
        ensures known { (c : ℕ) → (entry_in self.now chain.now at).cluster ≡ Some c →
            c < self.now.clusters }
        ensures low { room_start (chain_of self.now chain.now) at.index ≤ result.start }
        ensures high { result.start + result.len ≤ room_end (entry_in self.now chain.now at) }
    {
        links::segment(&self.store, chain.first, at)
    }

    /// Keeps `keep` of an mbuf's bytes, after the first `skip`. It must have that many. An mbuf that becomes empty
    /// stays in the chain.
    #[inline(always)]
    pub fn narrow(&mut self, chain: &Chain, at: Place, skip: u32, keep: u32)
        requires live { IsLive self.old chain.now }
        requires place { IsPlace (chain_of self.old chain.now) at }
        requires within { skip + keep ≤ length (entry_in self.old chain.now at).bytes }
        ensures { self.new ≡ with_entry_in self.old chain.now at
            (narrowed (entry_in self.old chain.now at) skip keep) }
    {
        data::narrow(&mut self.store, chain.first, at, skip, keep);
    }

    /// Returns the number of free bytes before an mbuf's data. It is 0 if the data is in a cluster.
    #[inline(always)]
    pub fn leading_space(&self, chain: &Chain, at: Place) -> u32
        requires live { IsLive self.now chain.now }
        requires place { IsPlace (chain_of self.now chain.now) at }
        ensures value { result ≡ leading_space (chain_of self.now chain.now) at.index }
        ensures within { HasLeadingSpace (chain_of self.now chain.now) at.index result }
    {
        links::leading_space(&self.store, chain.first, at)
    }

    /// Returns the number of free bytes after an mbuf's data. It is 0 if the data is in a cluster.
    pub fn trailing_space(&self, chain: &Chain, at: Place) -> u32
        requires live { IsLive self.now chain.now }
        requires place { IsPlace (chain_of self.now chain.now) at }
        ensures value { result ≡ trailing_space (entry_in self.now chain.now at) }
        ensures within { HasTrailingSpace (entry_in self.now chain.now at) result }
    {
        links::trailing_space(&self.store, chain.first, at)
    }

    /// Returns the bytes of an mbuf, without copying.
    #[inline(always)]
    pub fn bytes(&self, chain: &Chain, at: Place) -> &[u8]
        requires live { IsLive self.now chain.now }
        requires place { IsPlace (chain_of self.now chain.now) at }
        ensures value { result.now ≡ (entry_in self.now chain.now at).bytes }
        ensures len { length result.now ≡ length (entry_in self.now chain.now at).bytes }
    {
        data::bytes(&self.store, chain.first, at)
    }

    /// Prepends bytes to those of an mbuf, into its buffer: its own data area, or the whole of its cluster, which no
    /// other mbuf may share. They must fit there.
    // Inlined, like the other calls that write, so that a caller that knows the length compiles to stores.
    #[inline(always)]
    pub fn put_front(&mut self, chain: &Chain, at: Place, bytes: &[u8])
        requires live { IsLive self.old chain.now }
        requires place { IsPlace (chain_of self.old chain.now) at }
        requires unshared { IsUnshared self.old (entry_in self.old chain.now at) }
        requires fits { HasLeadingSpace (chain_of self.old chain.now) at.index (length bytes.now) }
        ensures { self.new ≡ with_entry_in self.old chain.now at
            (with_front (entry_in self.old chain.now at) bytes.now) }
    {
        data::put_front(&mut self.store, chain.first, at, bytes);
    }

    /// Appends bytes to those of an mbuf, into its buffer: its own data area, or the whole of its cluster, which no
    /// other mbuf may share. They must fit there.
    #[inline(always)]
    pub fn put_back(&mut self, chain: &Chain, at: Place, bytes: &[u8])
        requires live { IsLive self.old chain.now }
        requires place { IsPlace (chain_of self.old chain.now) at }
        requires unshared { IsUnshared self.old (entry_in self.old chain.now at) }
        requires fits { HasTrailingSpace (entry_in self.old chain.now at) (length bytes.now) }
        ensures { self.new ≡ with_entry_in self.old chain.now at
            (with_back (entry_in self.old chain.now at) bytes.now) }
    {
        data::put_back(&mut self.store, chain.first, at, bytes);
    }

    /// Overwrites bytes of an mbuf from `offset` on. It must have that many, and no other mbuf may share its cluster.
    #[inline(always)]
    pub fn overwrite(&mut self, chain: &Chain, at: Place, offset: u32, bytes: &[u8])
        requires live { IsLive self.old chain.now }
        requires place { IsPlace (chain_of self.old chain.now) at }
        requires unshared { IsUnshared self.old (entry_in self.old chain.now at) }
        requires within { offset + length bytes.now ≤ length (entry_in self.old chain.now at).bytes }
        ensures { self.new ≡ with_entry_in self.old chain.now at
            (overwritten (entry_in self.old chain.now at) offset bytes.now) }
    {
        data::overwrite(&mut self.store, chain.first, at, offset, bytes);
    }

    /// Appends `count` bytes of an mbuf of this or another chain, after the first `skip`, to those of an mbuf, into its
    /// buffer. The source must have that many, they must fit, and no other mbuf may share the cluster that is written.
    pub fn append(
        &mut self,
        chain: &Chain,
        at: Place,
        other: &Chain,
        from: Place,
        skip: u32,
        count: u32,
    )
        requires live { IsLive self.old chain.now }
        requires place { IsPlace (chain_of self.old chain.now) at }
        requires unshared { IsUnshared self.old (entry_in self.old chain.now at) }
        requires fits { HasTrailingSpace (entry_in self.old chain.now at) count }
        requires other { IsLive self.old other.now }
        requires from { IsPlace (chain_of self.old other.now) from }
        requires within { skip + count ≤ length (entry_in self.old other.now from).bytes }
        ensures { self.new ≡ with_entry_in self.old chain.now at
            (with_back (entry_in self.old chain.now at)
            (take count (drop skip (entry_in self.old other.now from).bytes))) }
    {
        data::append(
            &mut self.store,
            chain.first,
            at,
            other.first,
            from,
            skip,
            count,
        );
    }

    /// Makes a chain of one mbuf that shares the cluster of another mbuf, with `keep` of its bytes, after the first
    /// `skip`. The other mbuf must have a cluster and that many bytes. The cluster gets one more reference. Returns
    /// `NoBufs` exactly if no mbuf is free; nothing changes then.
    pub fn new_shared(
        &mut self,
        header: bool,
        chain: &Chain,
        at: Place,
        skip: u32,
        keep: u32,
    ) -> Result<Chain, NoBufs>
        requires live { IsLive self.old chain.now }
        requires place { IsPlace (chain_of self.old chain.now) at }
        requires refers { IsSome (entry_in self.old chain.now at).cluster }
        requires within { skip + keep ≤ length (entry_in self.old chain.now at).bytes }
        ensures ok { IfOk result (λ c. Adds self.old self.new c
            (one_mbuf header (narrowed (entry_in self.old chain.now at) skip keep) c)) }
        ensures free { OnOk result (held_mbufs self.old < self.old.mbufs) }
        ensures err { OnErr result (held_mbufs self.old ≡ self.old.mbufs) }
        ensures same { OnErr result (self.new ≡ self.old) }
    {
        let head = self.store.head(at.cell);
        let cluster = head.cluster.unwrap();
        let shared = head_for(header, head.start + skip, keep, Some(cluster));
        match self.store.get_with(shared) {
            Ok(first) => {
                self.store.hold(cluster);
                Ok(Chain { first })
            }
            Err(refusal) => Err(refusal),
        }
    }

    /// Makes a chain of one empty mbuf on a cluster of its own, in which its data begins at offset `start`, at most
    /// 2048. Returns `NoBufs` exactly if no mbuf or no cluster is free; nothing changes then.
    pub fn new_cluster(&mut self, header: bool, start: u32) -> Result<Chain, NoBufs>
        requires { start ≤ MCLBYTES }
        ensures ok { IfOk result (λ c. (d : ℕ) × (d < self.old.clusters)
            × (references self.old d ≡ 0)
            × Adds self.old self.new c (one_mbuf header (empty_entry start (Some d)) c)) }
        ensures free { OnOk result (held_mbufs self.old < self.old.mbufs) }
        ensures cluster { OnOk result (0 < free_clusters self.old) }
        ensures err { OnErr result (LacksForCluster self.old) }
        ensures same { OnErr result (self.new ≡ self.old) }
    {
        self.new_cluster_with(header, start, &[])
    }

    /// Makes a chain of one mbuf on a cluster of its own that contains the given bytes, from offset `start` to 2048 at
    /// most. The result is that of `new_cluster` and `put_back`, but the head is written once. Returns `NoBufs` exactly
    /// if no mbuf or no cluster is free; nothing changes then.
    #[inline(always)]
    pub fn new_cluster_with(
        &mut self,
        header: bool,
        start: u32,
        bytes: &[u8],
    ) -> Result<Chain, NoBufs>
        requires { start + length bytes.now ≤ MCLBYTES }
        ensures ok { IfOk result (λ c. (d : ℕ) × (d < self.old.clusters)
            × (references self.old d ≡ 0)
            × Adds self.old self.new c
            (one_mbuf header (record { bytes = bytes.now; start = start; cluster = Some d }) c)) }
        ensures free { OnOk result (held_mbufs self.old < self.old.mbufs) }
        ensures cluster { OnOk result (0 < free_clusters self.old) }
        ensures err { OnErr result (LacksForCluster self.old) }
        ensures same { OnErr result (self.new ≡ self.old) }
    {
        match self.store.get_cluster() {
            Ok(cluster) => {
                let head = head_for(header, start, bytes.len() as u32, Some(cluster));
                match self.store.get_with(head) {
                    Ok(first) => {
                        let at = Place {
                            index: 0,
                            cell: first,
                        };
                        data::write_in(&mut self.store, first, at, Some(cluster), start, bytes);
                        Ok(Chain { first })
                    }
                    Err(refusal) => {
                        self.store.release(cluster);
                        Err(refusal)
                    }
                }
            }
            Err(refusal) => Err(refusal),
        }
    }

    /// Links a chain after the last mbuf of another, whose place is `last`. They must be two different chains. The
    /// chain that is linked loses its packet header. Returns the place of its first mbuf in the joined chain. If the
    /// front chain has a packet header and the other has none, the other is walked to find its length; `link_counted`
    /// takes the length as an argument.
    pub fn link(&mut self, chain: &Chain, last: Place, back: Chain) -> Place
        requires front { IsLive self.old chain.now }
        requires back { IsLive self.old back }
        requires apart { chain.now ≢ back }
        requires place { IsPlace (chain_of self.old chain.now) last }
        requires last { last.index + 1 ≡ length (chain_of self.old chain.now).entries }
        ensures change { self.new ≡ linked self.old chain.now back }
        ensures place { IsPlace (chain_of self.new chain.now) result }
        ensures index { result.index ≡ last.index + 1 }
    {
        let Chain { first } = back;
        let added = links::added_by(&self.store, chain.first, first);
        links::link(&mut self.store, chain.first, last, first, added)
    }

    /// Links a chain of `len` bytes after the last mbuf of another, like `link`. It takes O(1) steps, whatever the
    /// chain.
    pub fn link_counted(&mut self, chain: &Chain, last: Place, back: Chain, len: u32) -> Place
        requires front { IsLive self.old chain.now }
        requires back { IsLive self.old back }
        requires apart { chain.now ≢ back }
        requires place { IsPlace (chain_of self.old chain.now) last }
        requires last { last.index + 1 ≡ length (chain_of self.old chain.now).entries }
        requires len { len ≡ length (string_in self.old back) }
        ensures change { self.new ≡ linked self.old chain.now back }
        ensures place { IsPlace (chain_of self.new chain.now) result }
        ensures index { result.index ≡ last.index + 1 }
    {
        let number = back.into_number();
        links::link(&mut self.store, chain.first, last, number, len)
    }

    /// Cuts a chain after its first `keep` mbufs, from 1 to one fewer than it has. Returns the chain of the others,
    /// which has no packet header. It takes one step for each mbuf that stays.
    pub fn cut(&mut self, chain: &Chain, keep: u32) -> Chain
        requires live { IsLive self.old chain.now }
        requires some { 0 < keep }
        requires within { keep < length (chain_of self.old chain.now).entries }
        ensures { Adds (with_chain self.old chain.now
            (first_part keep (chain_of self.old chain.now))) self.new result
            (second_part keep (chain_of self.old chain.now)) }
    {
        let first = links::cut(&mut self.store, chain.first, keep);
        Chain { first }
    }

    /// Returns the number of the chain after a chain in a train.
    pub(crate) fn after(&self, number: u32) -> Option<u32>
        requires { IsLive self.now number }
        ensures { result ≡ (chain_of self.now number).front.after }
    {
        self.store.head(number).next_packet
    }

    /// Returns the tag of a chain in a train.
    pub(crate) fn tag(&self, number: u32) -> u32
        requires { IsLive self.now number }
        ensures { result ≡ (chain_of self.now number).front.tag }
    {
        match self.store.head(number).packet {
            Some(packet) => packet.arrival,
            None => 0,
        }
    }

    /// Links a chain before another in a train. Its tag stays.
    pub(crate) fn relink(&mut self, number: u32, next: Option<u32>)
        requires live { IsLive self.old number }
        requires headed { (chain_of self.old number).front.header ≡ true }
        requires link { IfSome next (IsLive self.old) }
        ensures placed { self.new ≡ with_chain self.old number
            (placed (chain_of self.old number) next (chain_of self.old number).front.tag) }
        ensures bounds { IsBounded self.new }
    {
        self.store.change_head(number, Change::NextPacket(next));
    }

    /// Links a chain before another in a train, and sets its tag.
    pub(crate) fn set_after(&mut self, number: u32, after: Option<u32>, tag: u32)
        requires live { IsLive self.old number }
        requires headed { (chain_of self.old number).front.header ≡ true }
        requires link { IfSome after (IsLive self.old) }
        ensures placed { self.new ≡
            with_chain self.old number (placed (chain_of self.old number) after tag) }
        ensures bounds { IsBounded self.new }
    {
        self.store.change_head(number, Change::NextPacket(after));
        self.store.change_head(number, Change::Arrival(tag));
    }
}

/// Builds the head of the only mbuf of a chain.
#[inline(always)]
fn head_for(header: bool, start: u32, len: u32, cluster: Option<u32>) -> Head
    ensures { result ≡ only_head header start len cluster }
{
    let packet = if header {
        Some(PacketHeader { len, arrival: 0 })
    } else {
        None
    };
    Head {
        next: None,
        next_packet: None,
        len,
        start,
        kind: KIND,
        packet,
        cluster,
    }
}

/// Builds the head of an mbuf of `own` bytes, before a chain of `len` bytes.
#[inline(always)]
fn head_before(start: u32, own: u32, next: u32, len: u32) -> Head
    requires { own + len < 2 ^ 32 }
    ensures { result ≡ head_before start own next len }
{
    Head {
        next: Some(next),
        next_packet: None,
        len: own,
        start,
        kind: KIND,
        packet: Some(PacketHeader {
            len: own + len,
            arrival: 0,
        }),
        cluster: None,
    }
}
