//! The packets of a datagram: the chain itself, trimmed, and copies that share its clusters.
ghost use Rattle.std.specs.Prelude.{◌≡◌, ℕ, ◌+◌, ◌-◌, ◌*◌, ◌/◌, ◌%◌, ◌<◌, ◌≤◌, [], ◌∷◌, ◌++◌, true, false, length, sum_by, IfOk, OnOk, OnErr};
ghost use Rattle.flat_model.specs.Fragments.Cuts.{part};
ghost use Rattle.mbuf_chain.specs.Chain.{IsLive, chain_of, string, alone, held_mbufs};
ghost use Rattle.mbuf_chain.specs.Owners.{Moves, times_among};
ghost use Rattle.mbuf_chain.specs.Train.{IsHeld, numbers};
ghost use Rattle.chain_ops.specs.Makes.{Makes, HasMbufs, LacksMbufs};
ghost use Rattle.chain_ops.specs.Copies.{copied};
ghost use Rattle.chain_ops.specs.Cursors.{IsCursor};
ghost use Rattle.ip_out.specs.Packets.{BeginPlain, IsDatagramChain, part_head, later_need, train_packets, packets_of, part_need};
ghost use Rattle.ip_out.specs.Inside.{CanCut, HasDatagram, Packs, head_entry, parts_to, IsCutInto, IsLater};

use crate::head::{IpHead, MAX_OFFSET, write_head};
use chain_ops::theorems::copy_weight;
use chain_ops::{Cursor, advance, copy_at, cursor_at, trim_back};
use mbuf_chain::{Chain, Pool, Train};
use mbuf_pool::NoBufs;
use params::{FRAGMENT_UNIT, IP_HEADER, IP_MAX_DATA, IP_MAX_PACKET, MIN_MTU, PACKET_START};

/// The cut of bytes that don't fit into one packet.
#[derive(Clone, Copy)]
pub(crate) struct Cut {
    /// The number of bytes that each packet except the last carries.
    pub(crate) chunk: u32,
    /// The number of packets.
    pub(crate) count: u32,
}

/// Returns the cut of `n` bytes, which don't fit into one packet.
#[inline(always)]
pub(crate) fn cut_of(n: u32, mtu: u32) -> Cut
    requires long { mtu < IP_HEADER + n }
    requires short { n ≤ IP_MAX_DATA }
    requires least { MIN_MTU ≤ mtu }
    requires most { mtu ≤ 65535 }
    ensures cut { IsCutInto n mtu result.chunk result.count }
    ensures chunk { result.chunk ≡ (mtu - IP_HEADER) / FRAGMENT_UNIT * FRAGMENT_UNIT }
    ensures count { result.count ≡ (n + (result.chunk - 1)) / result.chunk }
{
    let chunk = (mtu - IP_HEADER) / FRAGMENT_UNIT * FRAGMENT_UNIT;
    Cut {
        chunk,
        count: (n + (chunk - 1)) / chunk,
    }
}

/// Returns the header of the packet that carries part `i` of `n` bytes in chunks.
#[inline(always)]
fn head_of(head: IpHead, n: u32, chunk: u32, i: u32) -> IpHead
    requires short { n ≤ IP_MAX_DATA }
    requires chunk { chunk ≤ IP_MAX_PACKET }
    requires some { i * chunk ≤ n }
    ensures { result ≡ part_head head (part n chunk i) }
{
    let offset = i * chunk;
    IpHead {
        total: (IP_HEADER + chunk.min(n - offset)) as u16,
        more: offset + chunk < n,
        offset,
        ..head
    }
}

/// Makes a fragment: an mbuf with a header, and after it a copy of `size` bytes of a chain from a cursor on.
#[inline(always)]
fn fragment(
    pool: &mut Pool,
    chain: &Chain,
    head: IpHead,
    from: Cursor,
    size: u32,
) -> Result<Chain, NoBufs>
    requires live { IsLive pool.old chain.now }
    requires offset { head.offset ≤ MAX_OFFSET }
    requires unit { head.offset % FRAGMENT_UNIT ≡ 0 }
    requires cursor { IsCursor (chain_of pool.old chain.now) from }
    requires after { 0 < from.off }
    requires some { 0 < size }
    requires within { from.off + size ≤ length (string (chain_of pool.old chain.now)) }
    ensures ok { IfOk result (λ d. Makes pool.old pool.new d (alone true)
        (head_entry head ∷ copied false (chain_of pool.old chain.now).entries from.off size)) }
    ensures enough { OnOk result (HasMbufs pool.old
        (1 + length (copied false (chain_of pool.old chain.now).entries from.off size))) }
    ensures err { OnErr result (LacksMbufs pool.old
        (1 + length (copied false (chain_of pool.old chain.now).entries from.off size))) }
    ensures same { OnErr result (pool.new ≡ pool.old) }
{
    let mut bytes = [0; IP_HEADER as usize];
    write_head(&mut bytes, head);
    let Ok(back) = copy_at(pool, chain, from, size) else {
        return Err(NoBufs);
    };
    if pool.free_mbufs() == 0 {
        pool.free_chain(back);
        return Err(NoBufs);
    }
    Ok(pool.new_plain_before(PACKET_START, &bytes, back, size))
}

/// Makes the packets of the parts after the first of `n` bytes. The chain is walked once.
fn later(pool: &mut Pool, chain: &Chain, head: IpHead, n: u32, cut: Cut) -> Result<Train, NoBufs>
    requires live { IsLive pool.old chain.now }
    requires datagram { IsDatagramChain (chain_of pool.old chain.now) }
    requires len { n + IP_HEADER ≡ length (string (chain_of pool.old chain.now)) }
    requires chunk { 0 < cut.chunk }
    requires wide { cut.chunk ≤ IP_MAX_PACKET }
    requires unit { cut.chunk % FRAGMENT_UNIT ≡ 0 }
    requires count { 0 < cut.count }
    requires inside { (i : ℕ) → 0 < i → i < cut.count → i * cut.chunk < n }
    ensures ok { IfOk result (λ t. IsLater pool.old pool.new t
        (chain_of pool.old chain.now) head (parts_to n cut.chunk cut.count)) }
    ensures enough { OnOk result (HasMbufs pool.old
        (sum_by (part_need (chain_of pool.old chain.now)) (parts_to n cut.chunk cut.count))) }
    ensures err { OnErr result (LacksMbufs pool.old
        (sum_by (part_need (chain_of pool.old chain.now)) (parts_to n cut.chunk cut.count))) }
    ensures same { OnErr result (pool.new ≡ pool.old) }
{
    copy_weight();
    let mut train = Train::new();
    let mut from = cursor_at(pool, chain, 0);
    'parts: for i in 1..cut.count {
        let off = IP_HEADER + i * cut.chunk;
        let size = cut.chunk.min(n - i * cut.chunk);
        from = advance(pool, chain, from, off - from.off);
        let Ok(packet) = fragment(pool, chain, head_of(head, n, cut.chunk, i), from, size) else {
            train.free(pool);
            return Err(NoBufs);
        };
        let end = train.len();
        train.insert(pool, end, packet, 0);
    }
    pool.laws();
    Ok(train)
}

/// Puts the packet of a datagram that isn't cut at the end of a train: the chain itself, of `len` bytes, with its
/// header written over its first bytes.
#[inline(always)]
pub(crate) fn add_whole(pool: &mut Pool, train: &mut Train, chain: Chain, head: IpHead, len: u32)
    requires has { HasDatagram pool.old chain len }
    requires held { IsHeld pool.old train.old }
    requires apart { times_among chain (numbers pool.old train.old) ≡ 0 }
    ensures held { IsHeld pool.new train.new }
    ensures len { train.new.len ≡ train.old.len + 1 }
    ensures packets { (mtu : ℕ) → len ≤ mtu → train_packets pool.new train.new
        ≡ train_packets pool.old train.old ++ packets_of (chain_of pool.old chain) head mtu }
    ensures plain { BeginPlain pool.old train.old → BeginPlain pool.new train.new }
    ensures moves { Moves pool.old (chain ∷ numbers pool.old train.old) pool.new (numbers pool.new train.new) }
{
    let whole = IpHead {
        total: len as u16,
        more: false,
        offset: 0,
        ..head
    };
    let mut bytes = [0; IP_HEADER as usize];
    write_head(&mut bytes, whole);
    let at = pool.first(&chain);
    pool.overwrite(&chain, at, 0, &bytes);
    let end = train.len();
    train.insert(pool, end, chain, 0);
}

/// Makes the packet of a datagram of `len` bytes that isn't cut: see `add_whole`.
fn one_packet(pool: &mut Pool, chain: Chain, head: IpHead, len: u32) -> Train
    requires { HasDatagram pool.old chain len }
    ensures held { IsHeld pool.new result }
    ensures packets { (mtu : ℕ) → len ≤ mtu
        → train_packets pool.new result ≡ packets_of (chain_of pool.old chain) head mtu }
    ensures plain { BeginPlain pool.new result }
    ensures moves { Moves pool.old (chain ∷ []) pool.new (numbers pool.new result) }
    ensures count { (mtu : ℕ) → len ≤ mtu
        → held_mbufs pool.new ≡ held_mbufs pool.old + later_need (chain_of pool.old chain) mtu }
    ensures enough { (mtu : ℕ) → len ≤ mtu → HasMbufs pool.old (later_need (chain_of pool.old chain) mtu) }
{
    let mut train = Train::new();
    add_whole(pool, &mut train, chain, head, len);
    pool.laws();
    train
}

/// Makes the packets of a datagram of `len` bytes with its header, which don't fit into one packet: see `fragments`.
fn cut_packets(
    pool: &mut Pool,
    chain: Chain,
    head: IpHead,
    len: u32,
    mtu: u16,
) -> Result<Train, NoBufs>
    requires has { HasDatagram pool.old chain len }
    requires long { mtu < len }
    requires least { MIN_MTU ≤ mtu }
    ensures { Packs pool.old chain head mtu pool.new result }
{
    let n = len - IP_HEADER;
    let cut = cut_of(n, mtu as u32);
    let Ok(mut train) = later(pool, &chain, head, n, cut) else {
        pool.free_chain(chain);
        return Err(NoBufs);
    };
    trim_back(pool, &chain, IP_HEADER + cut.chunk.min(n));
    let at = pool.first(&chain);
    let mut bytes = [0; IP_HEADER as usize];
    write_head(&mut bytes, head_of(head, n, cut.chunk, 0));
    pool.overwrite(&chain, at, 0, &bytes);
    train.insert(pool, 0, chain, 0);
    Ok(train)
}

/// Cuts a datagram, which is in a chain after 20 bytes for its header, into packets of at most `mtu` bytes. The first
/// is the chain itself, trimmed at its end; each of the others has an mbuf for its header, and after it a copy that
/// shares clusters.
///
/// # Errors
///
/// `NoBufs` exactly if fewer mbufs are free than the later packets take. Then none is made, and the chain is freed.
pub(crate) fn fragments(
    pool: &mut Pool,
    chain: Chain,
    head: IpHead,
    mtu: u16,
) -> Result<Train, NoBufs>
    requires { CanCut pool.old chain mtu }
    ensures { Packs pool.old chain head mtu pool.new result }
{
    let len = pool.len(&chain);
    if len > mtu as u32 {
        return cut_packets(pool, chain, head, len, mtu);
    }
    Ok(one_packet(pool, chain, head, len))
}
