//! Slots that hold a chain or are empty.
ghost use Rattle.std.specs.Prelude.{◌≡◌, ◌<◌, ℕ, Some, None, [], length, slice_set, slice_index_or};
ghost use Rattle.chain_script.specs.Inside.Needs.{HasSlot};
ghost use Rattle.chain_script.specs.Inside.Slots.{slot_numbers, FitsSlots};

use mbuf_chain::{Chain, Pool};
use std::mem;

/// Puts a chain into an empty slot.
pub(crate) fn put(chains: &mut [Option<Chain>], slot: usize, chain: Chain)
    requires within { slot < length chains.old }
    requires empty { slice_index_or chains.old slot None ≡ None }
    ensures { chains.new ≡ slice_set chains.old slot (Some chain) }
{
    match mem::replace(&mut chains[slot], Some(chain)) {
        None => {}
        Some(_other) => unreachable!(),
    }
}

/// Removes the chain from a slot that has one.
pub(crate) fn take(chains: &mut [Option<Chain>], slot: usize) -> Chain
    requires within { slot < length chains.old }
    requires held { (c : ℕ) × (slice_index_or chains.old slot None ≡ Some c) }
    ensures value { slice_index_or chains.old slot None ≡ Some result }
    ensures after { chains.new ≡ slice_set chains.old slot None }
{
    match chains[slot].take() {
        Some(chain) => chain,
        None => unreachable!(),
    }
}

/// Frees the chain of a slot, if it has one.
fn free_slot(pool: &mut Pool, chains: &mut [Option<Chain>], slot: usize)
    requires { HasSlot pool.old chains.old slot }
    ensures fits { FitsSlots pool.new chains.new }
    ensures after { chains.new ≡ slice_set chains.old slot None }
{
    let Some(_) = &chains[slot] else {
        return;
    };
    let chain = take(chains, slot);
    pool.free_chain(chain);
}

/// Frees the chains of all slots.
pub(crate) fn free_all(pool: &mut Pool, chains: &mut [Option<Chain>])
    requires { FitsSlots pool.old chains.old }
    ensures fits { FitsSlots pool.new chains.new }
    ensures empty { slot_numbers chains.new ≡ [] }
    ensures len { length chains.new ≡ length chains.old }
{
    'slots: for slot in 0..chains.len() {
        free_slot(pool, chains, slot);
    }
}
