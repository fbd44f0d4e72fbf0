//! The bytes of a datagram, reassembled from its fragments in the order in which they arrived. If they overlap, the
//! stack's rule decides which byte stays (volume 2, chapter 10).
ghost use Rattle.std.specs.Prelude.{◌≡◌, ℕ, ◌+◌, ◌<◌, ◌≤◌, ◌&&◌, ◌++◌, [], List, None, count_by, length, max, nat_le, nat_lt, vec_len};
ghost use Rattle.std.specs.List.{range_with_len};
ghost use Rattle.params.specs.declared.TheConstants.{IP_HEADER};
ghost use Rattle.flat_model.specs.Fragments.Overlay as Overlay;
ghost use Rattle.flat_model.specs.Fragments.Overlay.{Map, Fragment};
ghost use Rattle.flat_model.specs.Fragments.Whole as Whole;
ghost use Rattle.flat_model.specs.Fragments.Whole.{bytes_below};
ghost use Rattle.play_why.specs.declared.joined.TheConstants.{DATAGRAM};
ghost use Rattle.play_why.specs.Joined as joined;
ghost use Rattle.play_why.specs.Joined.{IsReassembled, IsWithin};

use crate::blame::carried_of;
use crate::key::{offset_of, same_key};
use crate::parts::Part;
use flat_model::FragmentKey;
use script_loop::Buffer;
use std::alloc::{AllocError, Global};

/// The most bytes of a datagram.
pub const DATAGRAM: usize = 65_535;

/// A byte of a datagram, and the least offset that its piece owns.
#[derive(Clone, Copy, Debug, PartialEq, Eq)]
pub(crate) struct Spot {
    byte: u8,
    first: usize,
}

/// Memory for reassembling a datagram, and the bytes of the last one.
#[derive(Drop)]
pub(crate) struct Joined {
    spots: Vec<Option<Spot>>,
    bytes: Buffer<DATAGRAM>,
    ghost spots_len: { vec_len spots ≡ DATAGRAM },
}

/// Returns whether the byte there stays when a fragment at this offset arrives.
fn stays(spot: Option<Spot>, offset: usize) -> bool
    ensures { result ≡ Overlay.stays offset (joined.spot_held spot) }
{
    match spot {
        None => false,
        Some(spot) => spot.first <= offset,
    }
}

/// Returns the byte there, or 0 if none has arrived.
fn byte_in(spot: Option<Spot>) -> u8
    ensures { result ≡ Whole.byte_of (joined.spot_held spot) }
{
    match spot {
        None => 0,
        Some(spot) => spot.byte,
    }
}

/// Returns `count`, or one more if the byte there stays.
fn counted(count: usize, spot: Option<Spot>, offset: usize) -> usize
    requires { count ≤ DATAGRAM }
    ensures { result ≡ joined.one_more (Overlay.stays offset (joined.spot_held spot)) count }
{
    if stays(spot, offset) {
        count + 1
    } else {
        count
    }
}

/// Returns at how many of `len` offsets, from `offset`, the byte there stays.
fn staying(spots: &[Option<Spot>], offset: usize, len: usize) -> usize
    requires inside { offset + len ≤ length spots.now }
    requires small { length spots.now ≤ DATAGRAM }
    ensures number { result
        ≡ count_by (λ k. Overlay.stays offset (joined.spots_map spots.now k)) (range_with_len offset len) }
    ensures most { result ≤ len }
{
    let mut count = 0;
    'places: for place in 0..len {
        count = counted(count, spots[offset + place], offset);
    }
    count
}

/// Returns the least offset that a fragment's piece will own.
fn first_owned(spots: &[Option<Spot>], offset: usize, bytes: &[u8]) -> usize
    requires inside { offset + length bytes.now ≤ length spots.now }
    requires small { length spots.now ≤ DATAGRAM }
    ensures { result ≡ Overlay.first_owned (joined.spots_map spots.now) (joined.as_fragment offset bytes.now) }
{
    offset + staying(spots, offset, bytes.len())
}

/// Returns whether an offset is between these two.
fn is_between(k: usize, offset: usize, end: usize) -> bool
    ensures { result ≡ (nat_le offset k && nat_lt k end) }
{
    offset <= k && k < end
}

/// Returns what is at an offset of a fragment after it was inserted.
fn inserted_inside(old: Option<Spot>, offset: usize, new: Spot) -> Option<Spot>
    ensures { joined.spot_held result ≡ joined.inside (joined.spot_held old) offset new.byte new.first }
{
    if stays(old, offset) { old } else { Some(new) }
}

/// Returns what is at another offset after a fragment was inserted.
fn inserted_outside(old: Option<Spot>, offset: usize, end: usize) -> Option<Spot>
    ensures { joined.spot_held result ≡ joined.outside (joined.spot_held old) offset end }
{
    match old {
        None => None,
        Some(spot) => {
            if offset < spot.first && spot.first < end {
                return Some(Spot {
                    byte: spot.byte,
                    first: end,
                });
            }
            Some(spot)
        }
    }
}

/// Returns what is at offset `k` after a fragment was inserted. `first` is the least offset that its piece
/// owns.
fn inserted(old: Option<Spot>, k: usize, offset: usize, bytes: &[u8], first: usize) -> Option<Spot>
    requires { offset + length bytes.now ≤ DATAGRAM }
    ensures { (map : Map) → map k ≡ joined.spot_held old →
        Overlay.first_owned map (joined.as_fragment offset bytes.now) ≡ first →
        joined.spot_held result ≡ Overlay.overlay map (joined.as_fragment offset bytes.now) k }
{
    let end = offset + bytes.len();
    if is_between(k, offset, end) {
        let byte = bytes[k - offset];
        inserted_inside(old, offset, Spot { byte, first })
    } else {
        inserted_outside(old, offset, end)
    }
}

/// Returns an offset below which a fragment changes nothing. It's that of the fragment if all bytes are before it.
fn first_changed(reach: usize, offset: usize) -> usize
    ensures most { result ≤ offset }
    ensures behind { 0 < result → reach ≤ offset }
{
    if reach <= offset { offset } else { 0 }
}

/// Lays a fragment over the bytes, of which none is at `reach` or after it. Returns how far they reach then.
fn insert(spots: &mut [Option<Spot>], reach: usize, offset: usize, bytes: &[u8]) -> usize
    requires inside { offset + length bytes.now ≤ DATAGRAM }
    requires within { IsWithin spots.old reach }
    ensures map { (k : ℕ) → joined.spots_map spots.new k
        ≡ Overlay.overlay (joined.spots_map spots.old) (joined.as_fragment offset bytes.now) k }
    ensures within { IsWithin spots.new result }
    ensures reach { result ≡ max reach (offset + length bytes.now) }
{
    let first = first_owned(spots, offset, bytes);
    let end = reach.max(offset + bytes.len());
    'places: for k in first_changed(reach, offset)..end {
        spots[k] = inserted(spots[k], k, offset, bytes, first);
    }
    end
}

/// Returns whether a fragment ends inside the longest datagram.
fn fits(offset: usize, len: usize) -> bool
    ensures { result ≡ nat_le (offset + len) DATAGRAM }
{
    len <= DATAGRAM && offset <= DATAGRAM - len
}

/// Lays a fragment over the bytes if it ends inside the longest datagram.
fn insert_fitting(spots: &mut [Option<Spot>], reach: usize, offset: usize, bytes: &[u8]) -> usize
    requires { IsWithin spots.old reach }
    ensures table { (fs : List Fragment) → IsReassembled spots.old reach fs
        → IsReassembled spots.new result (fs ++ joined.fitting offset bytes.now) }
    ensures within { IsWithin spots.new result }
{
    if fits(offset, bytes.len()) {
        insert(spots, reach, offset, bytes)
    } else {
        reach
    }
}

/// Lays a fragment that is kept over the bytes if it's one of this datagram.
fn insert_part(spots: &mut [Option<Spot>], reach: usize, part: &Part, key: FragmentKey) -> usize
    requires { IsWithin spots.old reach }
    ensures table { (fs : List Fragment) → IsReassembled spots.old reach fs
        → IsReassembled spots.new result (fs ++ joined.fragment_if key part.now) }
    ensures within { IsWithin spots.new result }
{
    if same_key(part.key, key) {
        insert_fitting(spots, reach, part.offset, part.bytes.as_slice())
    } else {
        reach
    }
}

/// Lays the fragments of a datagram that are kept, in their order. Returns how far they reach.
fn insert_parts(spots: &mut [Option<Spot>], parts: &[Part], key: FragmentKey) -> usize
    requires len { length spots.old ≡ DATAGRAM }
    requires empty { (k : ℕ) → joined.spots_map spots.old k ≡ None }
    ensures table { IsReassembled spots.new result (joined.fragments_of key parts.now) }
    ensures within { IsWithin spots.new result }
{
    let mut reach = 0;
    for part in parts {
        reach = insert_part(spots, reach, part, key);
    }
    reach
}

/// Removes all bytes.
fn clear_all(spots: &mut [Option<Spot>])
    ensures { (k : ℕ) → joined.spots_map spots.new k ≡ None }
{
    'places: for k in 0..spots.len() {
        spots[k] = None;
    }
}

/// Puts the bytes below an offset into a buffer.
fn put_bytes(bytes: &mut Buffer<DATAGRAM>, spots: &[Option<Spot>], reach: usize)
    requires { IsWithin spots.now reach }
    ensures { bytes.new ≡ bytes_below (joined.spots_map spots.now) reach }
{
    bytes.clear();
    'places: for k in 0..reach {
        bytes.push(byte_in(spots[k]));
    }
}

impl Joined {
    /// No byte. Fails if the host has no memory.
    pub(crate) fn new(alloc: Global) -> Result<Joined, AllocError> {
        Ok(Joined {
            spots: vec![in alloc; None; DATAGRAM]?,
            bytes: Buffer::new(alloc)?,
        })
    }

    /// The bytes of the datagram that was reassembled last.
    pub(crate) fn bytes(&self) -> &[u8]
        ensures is { result.now ≡ self.now.bytes }
        ensures most { length result.now ≤ DATAGRAM }
    {
        let _at_most = self.bytes.len();
        self.bytes.as_slice()
    }

    /// Forgets the bytes.
    pub(crate) fn clear(&mut self)
        ensures { self.new.bytes ≡ [] }
    {
        self.bytes.clear();
    }

    /// Reassembles the datagram of a packet: from its fragments among those that are kept, and then from the packet.
    pub(crate) fn join(&mut self, parts: &[Part], key: FragmentKey, packet: &[u8])
        requires { IP_HEADER ≤ length packet.now }
        ensures { self.new.bytes ≡ joined.joined_of key packet.now parts.now }
    {
        let spots = self.spots.as_mut_slice();
        clear_all(spots);
        let reach = insert_parts(spots, parts, key);
        let end = insert_fitting(spots, reach, offset_of(packet), carried_of(packet));
        put_bytes(&mut self.bytes, spots, end);
    }
}
