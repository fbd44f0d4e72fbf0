//! The stack: its parts, its start and its end.
ghost use Rattle.std.specs.Prelude.{◌≡◌, ◌≤◌, ◌↔◌, Err, MatchResult};
ghost use Rattle.params.specs.declared.TheConstants.{MAX_MTU};
ghost use Rattle.flat_model.specs.Amounts.Weight.{nothing};
ghost use Rattle.flat_model.specs.Machine.State.{HasSizes, IsConfig};
ghost use Rattle.flat_model.specs.Machine.State.{boot as flat_boot};
ghost use Rattle.ledger.specs.Accounts.{IsAccounted};
ghost use Rattle.net_stack.specs.Boots.{IsUnbooted, free_pool};
ghost use Rattle.net_stack.specs.Stack.{IsStack, state_of};

use crate::host::Host;
use flat_model::{Config, ConfigFault, Reached};
use ip_reass::Reass;
use mbuf_chain::Pool;
use mbuf_pool::{Sizes, Store};
use sock_calls::{Net, Socks};
use std::alloc::Global;
use std::marker::Model;
use thiserror::Error;

/// Why `boot` fails.
#[derive(Clone, Copy, Debug, PartialEq, Eq, Error)]
pub enum BootFault {
    /// An allocation of host memory failed.
    #[error("no memory")]
    Memory,
    /// A pool can't have these numbers of mbufs and clusters.
    #[error("bad sizes")]
    BadSizes,
    /// A machine can't have these addresses or this MTU.
    #[error("bad config")]
    BadConfig,
}

/// A host with one interface: its sockets, its unfinished datagrams, and the packets for the link, over one pool of
/// mbufs and clusters. It must be consumed, by `end`.
///
/// A contract sees it as a `StackView`, the views of its parts, and `state_of` of that is the flat machine's state:
/// each call is a step from the state before it to the state after it. Only `boot` allocates host memory.
pub struct Stack {
    pub(crate) config: Config,
    // in a box, because its tables have 4 kB
    pub(crate) host: Box<Host>,
}

impl Model for Stack {
    ghost use Rattle.std.specs.Coded.{codes};
    ghost use Rattle.mbuf_chain.specs.Chain.{coded_pool};
    ghost use Rattle.net_stack.specs.Stack.{StackView};
    ghost use Rattle.net_stack.specs.Inside.Fields.{fields, stack_of, IsStackInside};

    ghost Value = { StackView };

    ghost coded = { Prim.hlevel (codes, coded_pool) };

    ghost view = { λ s. stack_of (fields s) };

    ghost invariant = { λ s. IsStackInside (fields s) };
}

impl Stack {
    /// Creates a stack: no socket is open, all queues are empty, and all counters are 0. It allocates all host memory
    /// that the stack will ever need.
    ///
    /// # Errors
    ///
    /// In this order: `BadSizes` if the pool would have no mbuf, more than 65,535 of them or more than 4,096 clusters;
    /// `BadConfig` if the MTU isn't 68 to 4352, an address isn't that of a host, or both addresses are the same;
    /// `Memory` if an allocation fails. Everything allocated is freed then.
    pub fn boot(alloc: Global, config: Config) -> Result<Stack, BootFault>
        ensures sizes { (result ≡ Err BootFault.BadSizes) ↔ ¬ HasSizes config }
        ensures config { (result ≡ Err BootFault.BadConfig) ↔ (HasSizes config × ¬ IsConfig config) }
        ensures booted { MatchResult result (λ s. IsConfig config × (state_of s ≡ flat_boot config))
            (IsUnbooted config) }
    {
        match config.check() {
            Ok(()) => Stack::start(alloc, config),
            Err(ConfigFault::BadSizes) => Err(BootFault::BadSizes),
            Err(ConfigFault::BadConfig) => Err(BootFault::BadConfig),
        }
    }

    /// `boot` with a configuration that was checked.
    fn start(alloc: Global, config: Config) -> Result<Stack, BootFault>
        requires { IsConfig config }
        ensures { MatchResult result (λ s. state_of s ≡ flat_boot config) (λ fault. fault ≡ BootFault.Memory) }
    {
        let sizes = Sizes {
            mbufs: config.mbufs,
            clusters: config.clusters,
        };
        let Ok(store) = Store::boot(alloc, sizes) else {
            return Err(BootFault::Memory);
        };
        let pool = Pool::over(store);
        let Ok(reass) = Reass::boot(alloc, config.mbufs) else {
            return Err(BootFault::Memory);
        };
        // it allocates nothing
        let Ok(socks) = Socks::boot(alloc, config.addr, config.bcast) else {
            unreachable!();
        };
        let host = Host {
            pool,
            socks,
            reass,
            net: Net::new(config.mtu, config.first_id),
            reached: Reached::nobody(),
        };
        match Box::new(alloc, host) {
            Ok(host) => Ok(Stack { config, host }),
            Err(refused) => {
                refused.value.end_new();
                Err(BootFault::Memory)
            }
        }
    }

    /// What always holds of a stack: its parts fit together, and its pool accounts for exactly what the state holds. So
    /// the reference count of each cluster is the number of live mbufs that refer to it. A buffer of 4,352 bytes is
    /// enough for each packet of the link. It does nothing.
    pub fn laws(&self)
        ensures link { self.now.config.mtu ≤ MAX_MTU }
        ensures stack { IsStack self.now }
        ensures accounted { IsAccounted self.now.pool (state_of self.now) nothing }
    {
        let _ = &self.config;
    }

    /// Frees everything that the stack holds, and returns its pool, in which all buffers are free.
    pub fn end(self) -> Pool
        ensures { result ≡ free_pool self.config }
    {
        let Stack {
            config: _,
            mut host,
        } = self;
        let parts = host.as_mut();
        parts.socks.flush(&mut parts.pool);
        let Host {
            mut pool,
            socks,
            reass,
            net,
            reached: _,
        } = Box::into_inner(host);
        socks.end_empty();
        reass.end(&mut pool);
        net.end(&mut pool);
        pool
    }
}
