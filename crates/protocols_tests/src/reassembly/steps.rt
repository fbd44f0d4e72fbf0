//! A pool and a table, with steps that check their own conditions.

ghost use Rattle.std.specs.Prelude.{◌≡◌, ◌∷◌, ◌<◌, length, true};
ghost use Rattle.mbuf_chain.specs.Chain.{chain_of, string};
ghost use Rattle.mbuf_chain.specs.Owners.{IsOwned};
ghost use Rattle.ip_reass.specs.Table.{IsReady, held_all};

use chain_ops::from_wire;
use flat_model::Counters;
use ip_reass::Reass;
use mbuf_chain::{Chain, Pool};
use mbuf_pool::{NoBufs, Sizes, Store};
use std::alloc::Global;
use std::process::Abort;

/// A pool, the table of unfinished datagrams in it, and the counters.
pub(super) struct Host {
    pub(super) pool: Pool,
    pub(super) table: Reass,
    pub(super) counters: Counters,
}

/// Creates a pool in which everything is free, and an empty table.
pub(super) fn booted(rt: &impl Abort, alloc: Global, mbufs: u32, clusters: u32) -> Host
    ensures { IsReady result.pool result.table }
{
    let store = Store::boot(alloc, Sizes { mbufs, clusters }).expect(rt, "a pool");
    let table = Reass::boot(alloc, mbufs).expect(rt, "a table");
    Host {
        pool: Pool::over(store),
        table,
        counters: Counters::none(),
    }
}

/// Receives a packet into the pool of a table.
pub(super) fn received(rt: &impl Abort, pool: &mut Pool, table: &Reass, bytes: &[u8]) -> Chain
    requires ready { IsReady pool.old table.now }
    requires short { length bytes.now < 65536 }
    ensures ready { IsReady pool.new table.now }
    ensures owned { IsOwned pool.new (result ∷ held_all pool.new table.now.datagrams) }
    ensures headed { (chain_of pool.new result).front.header ≡ true }
    ensures string { string (chain_of pool.new result) ≡ bytes.now }
{
    match from_wire(pool, bytes) {
        Ok(chain) => chain,
        Err(NoBufs) => panic!(rt; "no buffer is free"),
    }
}

impl Host {
    /// Lets this many ticks pass, and returns how many datagrams they drop.
    pub(super) fn ticks(&mut self, n: u32) -> u32
        requires { IsReady self.old.pool self.old.table }
        ensures { IsReady self.new.pool self.new.table }
    {
        let mut dropped = 0u32;
        'ticks: for _ in 0..n {
            dropped = dropped.saturating_add(self.table.tick(&mut self.pool));
        }
        dropped
    }

    /// Frees what is unfinished, and returns whether all of the pool is free then.
    pub(super) fn ended(self) -> bool
        requires { IsReady self.pool self.table }
    {
        let Host {
            pool,
            table,
            counters: _,
        } = self;
        let mut pool = pool;
        table.end(&mut pool);
        let usage = pool.usage();
        usage.free_mbufs == usage.mbufs && usage.references == 0
    }
}
