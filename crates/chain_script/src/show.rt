//! The replies to queries: the layout of a chain, and the usage of the pool.
ghost use Rattle.std.specs.Prelude.{◌≡◌, ℕ, ◌+◌, ◌*◌, ◌<◌, ◌≤◌, ◌++◌, length, flat_map, Some};
ghost use Rattle.mbuf_chain.specs.Chain.{IsLive, chain_of, references, string};
ghost use Rattle.chain_script.specs.Lines.{Show, Ask_usage};
ghost use Rattle.chain_script.specs.Steps.{Layout_shown, chain_answer_text, shape_text, shapes_of, count_in};
ghost use Rattle.chain_script.specs.Inside.Needs.{HasSlot, Replies};
ghost use Rattle.chain_script.specs.Inside.Slots.{machine_of, FitsSlots};

use crate::fault::Fault;
use crate::reply::{MBUF_TEXT, TEXT, put_done, put_mbuf, put_usage};
use mbuf_chain::{Chain, Pool};
use script_loop::{Buffer, HELD, put_number};

/// Returns the reference count of a cluster, if there is one.
fn count_of(pool: &Pool, cluster: Option<u32>) -> Option<u32>
    requires { (c : ℕ) → cluster ≡ Some c → c < pool.now.clusters }
    ensures { result ≡ count_in (references pool.now) cluster }
{
    match cluster {
        Some(cluster) => Some(pool.count(cluster)),
        None => None,
    }
}

/// Appends all mbufs of a chain, in order.
fn put_mbufs(text: &mut Buffer<TEXT>, pool: &Pool, chain: &Chain)
    requires live { IsLive pool.now chain.now }
    requires text { length text.old + MBUF_TEXT * length (chain_of pool.now chain.now).entries ≤ TEXT }
    ensures items { text.new ≡ text.old
        ++ flat_map shape_text (shapes_of (references pool.now) (chain_of pool.now chain.now).entries) }
    ensures len { length text.new ≤ length text.old + MBUF_TEXT * length (chain_of pool.now chain.now).entries }
{
    let mut at = pool.first(chain);
    'mbufs: loop {
        let segment = pool.segment(chain, at);
        put_mbuf(text, segment.len, count_of(pool, segment.cluster));
        let Some(place) = pool.next(chain, at) else {
            return;
        };
        at = place;
    }
}

/// Appends the line for the layout of a chain.
fn put_layout(text: &mut Buffer<TEXT>, pool: &Pool, chain: &Chain)
    requires live { IsLive pool.now chain.now }
    requires text { length text.old ≤ HELD }
    ensures { text.new ≡ text.old ++ chain_answer_text (Some (
        Layout_shown (length (string (chain_of pool.now chain.now)))
        (shapes_of (references pool.now) (chain_of pool.now chain.now).entries))) }
{
    pool.laws();
    text.append(b"len ");
    put_number(text, pool.len(chain));
    put_mbufs(text, pool, chain);
    text.append(b"\n");
}

/// Appends the layout of a slot's chain.
pub(crate) fn show(pool: &Pool, chains: &[Option<Chain>], slot: usize, text: &mut Buffer<TEXT>)
    requires slot { HasSlot pool.now chains.now slot }
    requires text { length text.old ≤ HELD }
    ensures { Replies (machine_of pool.now chains.now) (Show slot) text.old (machine_of pool.now chains.now) text.new }
{
    match &chains[slot] {
        Some(chain) => put_layout(text, pool, chain),
        None => put_done(text, Err(Fault::Chain)),
    }
}

/// Appends the usage of the pool.
pub(crate) fn usage(pool: &Pool, chains: &[Option<Chain>], text: &mut Buffer<TEXT>)
    requires fits { FitsSlots pool.now chains.now }
    requires text { length text.old ≤ HELD }
    ensures { Replies (machine_of pool.now chains.now) Ask_usage text.old (machine_of pool.now chains.now) text.new }
{
    put_usage(text, pool.usage());
}
