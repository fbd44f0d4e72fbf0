//! Reading a chain's mbufs in place, one after another.
ghost use Rattle.std.specs.Prelude.{◌≡◌, Some};
ghost use Rattle.std.specs.Iterator.{YieldsFirst, YieldsFirstBy, YieldsFirstRef, item_count};
ghost use Rattle.mbuf_chain.specs.Chain.{chain_of, layout};
ghost use Rattle.mbuf_chain.specs.Heads.{heads};
ghost use Rattle.mbuf_chain.specs.Inside.Access.{HasChain};
ghost use Rattle.mbuf_chain.specs.Inside.Cells.{pool_of};
ghost use Rattle.mbuf_chain.specs.Pieces.{chain_pieces};
ghost use Rattle.mbuf_chain.specs.Inside.Readable.{data_of};

use crate::data::buffer_of;
use crate::mbuf_head::MbufHead;
use mbuf_pool::{Head, Part, Store};
use std::marker::Model;

/// An iterator over a chain's mbufs. For each it yields the number of its bytes, and the number of the cluster that
/// contains them: `None` if they are in the mbuf itself. Contracts see it as the list of its remaining items.
#[derive(Drop)]
pub struct Entries<'a> {
    store: &'a Store,
    at: Option<u32>,
}

impl<'a> Model for Entries<'a> {
    ghost use Rattle.std.specs.Prelude.{ℕ, List, Option};
    ghost use Rattle.mbuf_chain.specs.Chain.{layout_of};
    ghost use Rattle.mbuf_chain.specs.Inside.Readable.{entries_from, IsReadable};

    ghost Value = { List (ℕ × Option ℕ) };

    ghost view = { λ e. layout_of (entries_from e.store.now e.at) };

    ghost invariant = { λ e. IsReadable e.store.now e.at };
}

/// An iterator over a chain's mbufs. It yields the bytes of each, without copying. Contracts see it as the list of its
/// remaining items.
#[derive(Drop)]
pub struct Pieces<'a> {
    store: &'a Store,
    at: Option<u32>,
}

impl<'a> Model for Pieces<'a> {
    ghost use Rattle.std.specs.Prelude.{ℕ, List};
    ghost use Rattle.mbuf_chain.specs.Pieces.{pieces_of};
    ghost use Rattle.mbuf_chain.specs.Inside.Readable.{entries_from, IsReadable};

    ghost Value = { List (List ℕ) };

    ghost view = { λ p. pieces_of (entries_from p.store.now p.at) };

    ghost invariant = { λ p. IsReadable p.store.now p.at };
}

/// An iterator over a chain's mbufs. It yields the head fields and the bytes of each, without copying. Contracts see it
/// as the list of its remaining items.
#[derive(Drop)]
pub struct MbufHeads<'a> {
    store: &'a Store,
    at: Option<u32>,
}

impl<'a> Model for MbufHeads<'a> {
    ghost use Rattle.std.specs.Prelude.{ℕ, List};
    ghost use Rattle.mbuf_chain.specs.declared.mbuf_head.MbufHead.{MbufHead};
    ghost use Rattle.mbuf_chain.specs.Inside.Readable.{reported_from, IsReadable};

    ghost Value = { List (MbufHead × List ℕ) };

    ghost view = { λ h. reported_from h.store.now h.at };

    ghost invariant = { λ h. IsReadable h.store.now h.at };
}

/// Returns the location of the bytes of an mbuf with this head.
fn data_of(cell: u32, head: Head) -> Part
    ensures { result ≡ data_of cell head }
{
    Part {
        buffer: buffer_of(cell, head.cluster),
        start: head.start,
        len: head.len,
    }
}

/// Iterates over the mbufs of a chain: their lengths and clusters.
pub(crate) fn layout_of(store: &Store, first: u32) -> Entries<'_>
    requires { HasChain store.now first }
    ensures { result ≡ layout (chain_of (pool_of store.now) first) }
{
    Entries {
        store,
        at: Some(first),
    }
}

/// Iterates over the mbufs of a chain: their bytes.
pub(crate) fn pieces_of(store: &Store, first: u32) -> Pieces<'_>
    requires { HasChain store.now first }
    ensures { result ≡ chain_pieces (chain_of (pool_of store.now) first) }
{
    Pieces {
        store,
        at: Some(first),
    }
}

/// Iterates over the mbufs of a chain: their head fields and their bytes.
pub(crate) fn heads_of(store: &Store, first: u32) -> MbufHeads<'_>
    requires { HasChain store.now first }
    ensures { result ≡ heads (chain_of (pool_of store.now) first) }
{
    MbufHeads {
        store,
        at: Some(first),
    }
}

impl<'a> Iterator for Entries<'a> {
    type Item = (u32, Option<u32>);

    ghost next_gives = { YieldsFirst (λ s. s) };

    ghost remaining = { item_count (λ s. s) };

    /// Returns the length and the cluster of the next mbuf, or `None` after the last.
    fn next(&mut self) -> Option<(u32, Option<u32>)> {
        let cell = self.at?;
        let head = self.store.head(cell);
        self.at = head.next;
        Some((head.len, head.cluster))
    }
}

impl<'a> Iterator for Pieces<'a> {
    type Item = &'a [u8];

    ghost next_gives = { YieldsFirstRef (λ s. s) };

    ghost remaining = { item_count (λ s. s) };

    /// Returns the bytes of the next mbuf, or `None` after the last.
    fn next(&mut self) -> Option<&'a [u8]> {
        let cell = self.at?;
        let head = self.store.head(cell);
        self.at = head.next;
        Some(self.store.bytes(data_of(cell, head)))
    }
}

impl<'a> Iterator for MbufHeads<'a> {
    type Item = (MbufHead, &'a [u8]);

    ghost next_gives = { YieldsFirstBy (λ item. (item.0, item.1.now)) (λ s. s) };

    ghost remaining = { item_count (λ s. s) };

    /// Returns the head fields and the bytes of the next mbuf, or `None` after the last.
    fn next(&mut self) -> Option<(MbufHead, &'a [u8])> {
        let cell = self.at?;
        let head = self.store.head(cell);
        self.at = head.next;
        let bytes = self.store.bytes(data_of(cell, head));
        Some((MbufHead::of(cell, head), bytes))
    }
}
