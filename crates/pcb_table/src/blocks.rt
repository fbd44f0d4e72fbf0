//! The blocks of a table, with two arrays that index them, so that most lookups don't walk the blocks.
ghost use Rattle.std.specs.Prelude.{◌≡◌, ◌+◌, ◌<◌, ◌≤◌, ◌∷◌, [], drop, length, remove, slice_set, find, option_copied, IfSome, IsSome};
ghost use Rattle.arrayvec.specs.ArrayVec.{array_vec_len};
ghost use Rattle.params.specs.declared.TheConstants.{MAX_SOCKETS};
ghost use Rattle.pcb_table.specs.Apart.{has_fd};
ghost use Rattle.pcb_table.specs.Inside.Fields.{IsIndexOf, IsLocated, Locates, HasPorts, ImpliesNoneConnected, ImpliesNoneLimited, PassesLanes, has_limit, is_connected};
ghost use Rattle.pcb_table.specs.Inside.Search.{from_port};

use crate::block::Block;
use crate::search::{Place, locate_by_walk};
use crate::table::SOCKETS;
use arrayvec::ArrayVec;
use std::marker::Model;
use std::simd::prelude::*;

/// How many ports are compared at once.
const LANES: usize = 16;

/// The length of the array of ports: one port for each block, and enough elements after them that sixteen can be loaded
/// from the last block on.
const INDEXED_PORTS: usize = SOCKETS + LANES;

/// The blocks of at most 64 sockets, the youngest first. Each change writes their index again.
#[derive(Drop)]
pub(crate) struct Blocks {
    blocks: ArrayVec<Block, SOCKETS>,
    index: Index,
}

/// Two arrays that index blocks, and whether no block is connected or none has a receive limit.
///
/// `ports` has the port of the block at each index, so that one comparison skips sixteen blocks with another port.
/// `places` has the index of the block of each descriptor. It's a hint: the block at that index is tested, and if it's
/// another one, a walk finds the right one.
///
/// If `params::indexes_sockets` returns `false`, the blocks are walked: only `ports` is written, and nothing is read.
#[derive(Drop)]
pub(crate) struct Index {
    // 0 for a block without a port
    ports: [u16; INDEXED_PORTS],
    // the index of a descriptor's block, by descriptor modulo 64
    places: [u8; SOCKETS],
    // if true, none of the blocks is connected
    none_connected: bool,
    // if true, none of the blocks has a receive limit
    none_limited: bool,
}

impl Model for Blocks {
    ghost use Rattle.std.specs.Prelude.{List};
    ghost use Rattle.pcb_table.specs.declared.block.Block.{Block};

    ghost Value = { List Block };

    ghost use Rattle.pcb_table.specs.Inside.Fields.{IsIndexOf};

    ghost view = { λ b. b.blocks.items };

    ghost invariant = { λ b. IsIndexOf b.blocks.items b.index };
}

impl Blocks {
    /// No block.
    pub(crate) fn new() -> Blocks
        ensures { result ≡ [] }
    {
        Blocks {
            blocks: ArrayVec::new(),
            index: Index {
                ports: [0; INDEXED_PORTS],
                places: [0; SOCKETS],
                none_connected: true,
                none_limited: true,
            },
        }
    }

    /// How many there are, at most 64.
    pub(crate) fn len(&self) -> usize
        ensures value { result ≡ length self.now }
        ensures few { result ≤ MAX_SOCKETS }
    {
        self.blocks.len()
    }

    pub(crate) fn as_slice(&self) -> &[Block]
        ensures value { result.now ≡ self.now }
        ensures few { length result.now ≤ MAX_SOCKETS }
    {
        self.blocks.as_slice()
    }

    /// Whether none is connected, without looking at the blocks. `false` means that one may be.
    #[inline(always)]
    pub(crate) fn is_none_connected(&self) -> bool
        ensures { ImpliesNoneConnected result self.now }
    {
        params::indexes_sockets() && self.index.none_connected
    }

    /// Whether none has a receive limit, without looking at the blocks. `false` means that one may have it.
    #[inline(always)]
    pub(crate) fn is_none_limited(&self) -> bool
        ensures { ImpliesNoneLimited result self.now }
    {
        params::indexes_sockets() && self.index.none_limited
    }

    /// The index of an open descriptor's block, and the block, if `places` has that index.
    // A reference, because a send reads few of its fields.
    #[inline(always)]
    pub(crate) fn indexed(&self, fd: u32) -> Option<(usize, &Block)>
        ensures { IfSome result (λ r. IsLocated fd self.now r.0 r.1.now) }
    {
        if !params::indexes_sockets() {
            return None;
        }
        let blocks = self.blocks.as_slice();
        let index = self.index.places[fd as usize % SOCKETS] as usize;
        if index < blocks.len() && fd == blocks[index].fd {
            return Some((index, &blocks[index]));
        }
        None
    }

    /// Replaces the block at an index.
    pub(crate) fn set_block(&mut self, index: usize, block: Block)
        requires { index < length self.old }
        ensures { self.new ≡ slice_set self.old index block }
    {
        self.blocks[index] = block;
        self.index.update(self.blocks.as_slice());
    }

    /// Inserts a block before the others.
    pub(crate) fn insert_first(&mut self, block: Block)
        requires { length self.old < MAX_SOCKETS }
        ensures { self.new ≡ block ∷ self.old }
    {
        insert_first(&mut self.blocks, block);
        self.index.update(self.blocks.as_slice());
    }

    /// Removes the block at an index, and moves the later ones down.
    pub(crate) fn remove_at(&mut self, index: usize)
        requires { index < length self.old }
        ensures { self.new ≡ remove self.old index }
    {
        remove_at(&mut self.blocks, index);
        self.index.update(self.blocks.as_slice());
    }

    /// The block of a descriptor, with its index.
    // Inlined, because a send needs only the block, and so nothing is copied.
    #[inline(always)]
    pub(crate) fn locate(&self, fd: u32) -> Option<Place>
        ensures { Locates fd self.now result }
    {
        match self.indexed(fd) {
            Some((index, block)) => Some(Place {
                index,
                block: *block,
            }),
            None => locate_by_walk(self.blocks.as_slice(), fd),
        }
    }

    /// The block of an open descriptor, with its index.
    pub(crate) fn located(&self, fd: u32) -> Place
        requires { IsSome (find (has_fd fd) self.now) }
        ensures { IsLocated fd self.now result.index result.block }
    {
        self.locate(fd).unwrap()
    }

    /// How many blocks from this index on `ports` skips, because they have another port.
    #[inline(always)]
    fn others_from(&self, at: usize, port: u16) -> usize
        requires { at ≤ SOCKETS }
        ensures skipped { from_port port (drop (at + result) self.now) ≡ from_port port (drop at self.now) }
        ensures most { result ≤ LANES }
    {
        if !params::indexes_sockets() {
            return 0;
        }
        lanes_before(&self.index.ports, at, port)
    }

    /// The blocks from the first one with this port on, after the first `passed` blocks.
    // Inlined into its only caller.
    #[inline(always)]
    pub(crate) fn from_port(&self, passed: usize, port: u16) -> &[Block]
        requires { passed ≤ length self.now }
        ensures { result.now ≡ from_port port (drop passed self.now) }
    {
        let blocks = self.blocks.as_slice();
        let mut at = passed;
        'places: while at < blocks.len() {
            let next = at + self.others_from(at, port);
            if next >= blocks.len() {
                return &blocks[blocks.len()..];
            }
            if blocks[next].port == Some(port) {
                return &blocks[next..];
            }
            at = next + 1;
        }
        &blocks[blocks.len()..]
    }
}

impl Index {
    /// Indexes these blocks.
    fn update(&mut self, blocks: &[Block])
        requires { length blocks.now ≤ SOCKETS }
        ensures { IsIndexOf blocks.now self.new }
    {
        update_index(blocks, &mut self.ports, &mut self.places);
        self.none_connected = params::indexes_sockets() && is_none_connected(blocks);
        self.none_limited = params::indexes_sockets() && is_none_limited(blocks);
    }
}

/// Replaces the block at an index.
fn set_block(blocks: &mut ArrayVec<Block, SOCKETS>, index: usize, block: Block)
    requires { index < array_vec_len blocks.old }
    ensures { blocks.new.items ≡ slice_set blocks.old.items index block }
{
    blocks[index] = block;
}

/// Inserts a block before the others. The array must not be full.
// Block by block: `ArrayVec::insert` rotates a part of its array, which takes nine kilobytes of code.
fn insert_first(blocks: &mut ArrayVec<Block, SOCKETS>, block: Block)
    requires { array_vec_len blocks.old < SOCKETS }
    ensures { blocks.new.items ≡ block ∷ blocks.old.items }
{
    let mut moved = block;
    for index in 0..blocks.len() {
        let next = blocks[index];
        blocks[index] = moved;
        moved = next;
    }
    blocks.push(moved);
}

/// Removes the block at an index, and moves the later ones down.
// Block by block, like `insert_first`.
fn remove_at(blocks: &mut ArrayVec<Block, SOCKETS>, index: usize)
    requires { index < array_vec_len blocks.old }
    ensures { blocks.new.items ≡ remove blocks.old.items index }
{
    let last = blocks.len() - 1;
    for place in index..last {
        let next = blocks[place + 1];
        set_block(blocks, place, next);
    }
    blocks.pop();
}

/// How many of the sixteen ports from index `at` on come before the first that is this one: all of them, if none is.
#[inline(always)]
fn lanes_before(ports: &[u16], at: usize, port: u16) -> usize
    requires { at + LANES ≤ length ports.now }
    ensures passes { PassesLanes ports.now port at result }
    ensures most { result ≤ LANES }
{
    let lanes = u16x16::from_slice(&ports[at..]);
    let mask = lanes.simd_eq(u16x16::splat(port)).to_bitmask();
    if mask == 0 {
        LANES
    } else {
        mask.trailing_zeros() as usize
    }
}

/// The youngest block that is connected.
fn first_connected(blocks: &[Block]) -> Option<&Block>
    ensures { option_copied result ≡ find is_connected blocks.now }
{
    blocks.iter().find(|block| block.peer.is_some())
}

/// Whether no block is connected.
fn is_none_connected(blocks: &[Block]) -> bool
    ensures { ImpliesNoneConnected result blocks.now }
{
    match first_connected(blocks) {
        None => true,
        Some(_) => false,
    }
}

/// The youngest block with a receive limit.
fn first_limited(blocks: &[Block]) -> Option<&Block>
    ensures { option_copied result ≡ find has_limit blocks.now }
{
    blocks.iter().find(|block| block.receive_limit != 0)
}

/// Whether no block has a receive limit.
fn is_none_limited(blocks: &[Block]) -> bool
    ensures { ImpliesNoneLimited result blocks.now }
{
    first_limited(blocks).is_none()
}

/// Writes the port of each block, and the index of each descriptor's block if it's read.
// The ports are always written: otherwise each look-up would have to test whether they are.
fn update_index(blocks: &[Block], ports: &mut [u16; INDEXED_PORTS], places: &mut [u8; SOCKETS])
    requires { length blocks.now ≤ SOCKETS }
    ensures { HasPorts blocks.now ports.new }
{
    'places: for place in 0..blocks.len() {
        let block = &blocks[place];
        ports[place] = block.port.unwrap_or(0);
        if params::indexes_sockets() {
            places[block.fd as usize % SOCKETS] = place as u8;
        }
    }
}
