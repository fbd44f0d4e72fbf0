//! The data of an mbuf: its location, reading it in place, and writing it if no other mbuf shares it.
ghost use Rattle.std.specs.Prelude.{◌≡◌, ◌+◌, ◌-◌, ◌<◌, ◌≤◌, ◌^◌, length, take, drop};
ghost use Rattle.params.specs.declared.TheConstants.{MCLBYTES};
ghost use Rattle.mbuf_pool.specs.Store.{IsStore, mbuf_head, with_bytes, bytes_in, IsRoom};
ghost use Rattle.mbuf_pool.specs.Cells.{over};
ghost use Rattle.mbuf_chain.specs.Chain.{IsLive, chain_of, entry_in, HasLeadingSpace, HasTrailingSpace};
ghost use Rattle.mbuf_chain.specs.Steps.{with_front, with_back, narrowed, overwritten};
ghost use Rattle.mbuf_chain.specs.Inside.Access.{CanWrite, HasMbuf, Replaced, Written};
ghost use Rattle.mbuf_chain.specs.Inside.Cells.{IsPool, IsOff, pool_of, buffer_of, head_room_low, room_high, with_segment, entry_from};

use crate::place::Place;
use mbuf_pool::{Buffer, Change, Part, Store};

/// Returns the mbuf or cluster that contains an mbuf's bytes.
#[inline(always)]
pub(crate) fn buffer_of(cell: u32, cluster: Option<u32>) -> Buffer
    ensures { result ≡ buffer_of cell cluster }
{
    match cluster {
        Some(number) => Buffer::Cluster(number),
        None => Buffer::Mbuf(cell),
    }
}

/// Writes bytes into a buffer from offset `start`.
// Inlined together with its callers, so that a caller that knows the length compiles to stores.
#[inline(always)]
fn write(store: &mut Store, buffer: Buffer, start: u32, bytes: &[u8])
    requires room { IsRoom store.old buffer start (length bytes.now) }
    requires few { length bytes.now ≤ MCLBYTES }
    ensures change { store.new ≡
        with_bytes store.old buffer (over (bytes_in store.old buffer) start bytes.now) }
    ensures store { IsStore store.new }
{
    let part = Part {
        buffer,
        start,
        len: bytes.len() as u32,
    };
    store.bytes_mut(part).copy_from_slice(bytes);
}

/// Writes bytes into an mbuf's buffer, which no other mbuf shares. `cluster` is the cluster of its head.
#[inline(always)]
pub(crate) fn write_in(
    store: &mut Store,
    first: u32,
    at: Place,
    cluster: Option<u32>,
    start: u32,
    bytes: &[u8],
)
    requires can { CanWrite store.old first at }
    requires cluster { cluster ≡ (mbuf_head store.old at.cell).cluster }
    requires low { head_room_low (mbuf_head store.old at.cell) ≤ start }
    requires high { start + length bytes.now ≤ room_high (mbuf_head store.old at.cell) }
    ensures { Written store.old store.new first at start bytes.now }
{
    write(store, buffer_of(at.cell, cluster), start, bytes);
}

/// Copies `count` bytes of an mbuf, after the first `skip`, into another mbuf's buffer, which no other mbuf shares.
fn copy_in(
    store: &mut Store,
    first: u32,
    at: Place,
    start: u32,
    other: u32,
    from: Place,
    skip: u32,
    count: u32,
)
    requires can { CanWrite store.old first at }
    requires low { head_room_low (mbuf_head store.old at.cell) ≤ start }
    requires high { start + count ≤ room_high (mbuf_head store.old at.cell) }
    requires from { HasMbuf store.old other from }
    requires within { skip + count ≤ length (entry_in (pool_of store.old) other from).bytes }
    ensures { Written store.old store.new first at start
        (take count (drop skip (entry_in (pool_of store.old) other from).bytes)) }
{
    let head = store.head(at.cell);
    let source = store.head(from.cell);
    let read = Part {
        buffer: buffer_of(from.cell, source.cluster),
        start: source.start + skip,
        len: count,
    };
    let written = Part {
        buffer: buffer_of(at.cell, head.cluster),
        start,
        len: count,
    };
    store.copy(read, written);
}

/// Adjusts a chain's packet length, if it has one, by the numbers of bytes added and removed.
#[inline(always)]
pub(crate) fn set_total(store: &mut Store, first: u32, added: u32, removed: u32)
    requires off { IsOff store.old first added removed }
    requires live { IsLive (pool_of store.old) first }
    requires few { removed < 2 ^ 31 }
    ensures pool { IsPool store.new }
    ensures same { pool_of store.new ≡ pool_of store.old }
{
    let head = store.head(first);
    if let Some(packet) = head.packet {
        let len = packet.len + added - removed;
        store.change_head(first, Change::PacketLen(len));
    }
}

/// Makes the `len` bytes from offset `start` of its buffer the data of an mbuf.
#[inline(always)]
pub(crate) fn resize(store: &mut Store, first: u32, at: Place, start: u32, len: u32)
    requires place { HasMbuf store.old first at }
    requires low { head_room_low (mbuf_head store.old at.cell) ≤ start }
    requires high { start + len ≤ room_high (mbuf_head store.old at.cell) }
    ensures { Replaced store.old store.new first at
        (entry_from store.old at.cell (with_segment (mbuf_head store.old at.cell) start len)) }
{
    let head = store.head(at.cell);
    store.change_head(at.cell, Change::Data { start, len });
    set_total(store, first, len, head.len);
}

/// Keeps only `keep` bytes of an mbuf, after the first `skip`.
#[inline(always)]
pub(crate) fn narrow(store: &mut Store, first: u32, at: Place, skip: u32, keep: u32)
    requires place { HasMbuf store.old first at }
    requires within { skip + keep ≤ length (entry_in (pool_of store.old) first at).bytes }
    ensures { Replaced store.old store.new first at
        (narrowed (entry_in (pool_of store.old) first at) skip keep) }
{
    let head = store.head(at.cell);
    resize(store, first, at, head.start + skip, keep);
}

/// Appends bytes to those of an mbuf, into its trailing space.
#[inline(always)]
pub(crate) fn put_back(store: &mut Store, first: u32, at: Place, bytes: &[u8])
    requires can { CanWrite store.old first at }
    requires fits { HasTrailingSpace (entry_in (pool_of store.old) first at) (length bytes.now) }
    ensures { Replaced store.old store.new first at
        (with_back (entry_in (pool_of store.old) first at) bytes.now) }
{
    let head = store.head(at.cell);
    let end = head.start + head.len;
    write_in(store, first, at, head.cluster, end, bytes);
    resize(store, first, at, head.start, head.len + bytes.len() as u32);
}

/// Prepends bytes to those of an mbuf, into its leading space.
#[inline(always)]
pub(crate) fn put_front(store: &mut Store, first: u32, at: Place, bytes: &[u8])
    requires can { CanWrite store.old first at }
    requires fits { HasLeadingSpace (chain_of (pool_of store.old) first) at.index (length bytes.now) }
    ensures { Replaced store.old store.new first at
        (with_front (entry_in (pool_of store.old) first at) bytes.now) }
{
    let head = store.head(at.cell);
    let added = bytes.len() as u32;
    let start = head.start - added;
    write_in(store, first, at, head.cluster, start, bytes);
    resize(store, first, at, start, head.len + added);
}

/// Overwrites bytes of an mbuf from `offset` on.
#[inline(always)]
pub(crate) fn overwrite(store: &mut Store, first: u32, at: Place, offset: u32, bytes: &[u8])
    requires can { CanWrite store.old first at }
    requires within { offset + length bytes.now ≤ length (entry_in (pool_of store.old) first at).bytes }
    ensures { Replaced store.old store.new first at
        (overwritten (entry_in (pool_of store.old) first at) offset bytes.now) }
{
    let head = store.head(at.cell);
    write_in(store, first, at, head.cluster, head.start + offset, bytes);
}

/// Appends `count` bytes of an mbuf, after the first `skip`, to those of another mbuf.
pub(crate) fn append(
    store: &mut Store,
    first: u32,
    at: Place,
    other: u32,
    from: Place,
    skip: u32,
    count: u32,
)
    requires can { CanWrite store.old first at }
    requires fits { HasTrailingSpace (entry_in (pool_of store.old) first at) count }
    requires from { HasMbuf store.old other from }
    requires within { skip + count ≤ length (entry_in (pool_of store.old) other from).bytes }
    ensures { Replaced store.old store.new first at
        (with_back (entry_in (pool_of store.old) first at)
        (take count (drop skip (entry_in (pool_of store.old) other from).bytes))) }
{
    let head = store.head(at.cell);
    copy_in(
        store,
        first,
        at,
        head.start + head.len,
        other,
        from,
        skip,
        count,
    );
    resize(store, first, at, head.start, head.len + count);
}

/// Returns the bytes of an mbuf, without copying.
#[inline(always)]
pub(crate) fn bytes(store: &Store, first: u32, at: Place) -> &[u8]
    requires { HasMbuf store.now first at }
    ensures value { result.now ≡ (entry_in (pool_of store.now) first at).bytes }
    ensures len { length result.now ≡ length (entry_in (pool_of store.now) first at).bytes }
{
    let head = store.head(at.cell);
    store.bytes(Part {
        buffer: buffer_of(at.cell, head.cluster),
        start: head.start,
        len: head.len,
    })
}
