//! Searches of the control blocks, in their order.
ghost use Rattle.std.specs.Prelude.{◌≡◌, ◌==◌, ◌<◌, ◌≤◌, [], length, map, find, option_copied, position};
ghost use Rattle.pcb_table.specs.Inside.Search.{best_block, from_port, receiving_blocks, youngest_block};
ghost use Rattle.pcb_table.specs.Apart.{has_fd};
ghost use Rattle.pcb_table.specs.Inside.Fields.{Locates};

use crate::block::Block;
use crate::blocks::Blocks;
use crate::table::SOCKETS;
use arrayvec::ArrayVec;
use flat_model::LookupKey;

/// Up to this many blocks, a walk is faster than a search by port.
const FEW: usize = 8;

/// A block and its index.
#[derive(Clone, Copy)]
pub(crate) struct Place {
    pub(crate) index: usize,
    pub(crate) block: Block,
}

fn index_of(blocks: &[Block], fd: u32) -> Option<usize>
    ensures { result ≡ position (has_fd fd) blocks.now }
{
    blocks.iter().position(|block| block.fd == fd)
}

/// The block of a descriptor, with its index.
pub(crate) fn locate_by_walk(blocks: &[Block], fd: u32) -> Option<Place>
    ensures { Locates fd blocks.now result }
{
    match index_of(blocks, fd) {
        None => None,
        Some(index) => Some(Place {
            index,
            block: blocks[index],
        }),
    }
}

/// The youngest of the blocks that match the key with the fewest wildcards.
// Inlined, so that what the caller's key has set isn't tested for each block.
#[inline(always)]
pub(crate) fn best(blocks: &Blocks, key: LookupKey) -> Option<&Block>
    ensures { option_copied result ≡ best_block key blocks.now }
{
    let Some(port) = key.port else {
        return None;
    };
    let mut found: Option<&Block> = None;
    let mut fewest = 3;
    let mut rest = blocks.as_slice();
    let len = rest.len();
    while let [block, after @ ..] = blocks.from_port(len - rest.len(), port) {
        if block.agrees(&key) {
            let wildcards = block.wildcards(&key);
            if wildcards == 0 {
                return Some(block);
            }
            if wildcards < fewest {
                fewest = wildcards;
                found = Some(block);
            }
        }
        rest = after;
    }
    found
}

/// The youngest of the blocks that match the key without a wildcard, by a walk.
fn exact_by_walk(blocks: &[Block], key: LookupKey) -> Option<&Block>
    ensures { option_copied result ≡ youngest_block 0 key blocks.now }
{
    blocks.iter().find(|block| block.matches_exactly(&key))
}

/// The youngest of the blocks that match the key without a wildcard: the best match, if it has none.
// With few blocks it walks: without the walk, a send with one open socket took 46 instructions more.
// Never inlined: a send calls it only if another socket is connected.
#[inline(never)]
pub(crate) fn exact(blocks: &Blocks, key: LookupKey) -> Option<&Block>
    ensures { option_copied result ≡ youngest_block 0 key blocks.now }
{
    let all = blocks.as_slice();
    if !params::indexes_sockets() || all.len() <= FEW {
        return exact_by_walk(all, key);
    }
    let Some(block) = best(blocks, key) else {
        return None;
    };
    if block.wildcards(&key) == 0 {
        Some(block)
    } else {
        None
    }
}

/// Adds the descriptors of the blocks that match the key to `fds`, which must be empty: the youngest first, up to and
/// including the first one that doesn't share its port.
pub(crate) fn receivers(blocks: &[Block], key: LookupKey, fds: &mut ArrayVec<u32, SOCKETS>)
    requires few { length blocks.now ≤ SOCKETS }
    requires empty { fds.old.items ≡ [] }
    ensures { fds.new.items ≡ map (λ b. b.fd) (receiving_blocks key blocks.now) }
{
    for block in blocks {
        if block.matches(&key) {
            fds.push(block.fd);
            if !block.reuse_port {
                return;
            }
        }
    }
}
