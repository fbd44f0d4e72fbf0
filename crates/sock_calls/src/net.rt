//! The link, the packets and the counters that all sockets share.
ghost use Rattle.std.specs.Prelude.{◌≡◌, [], None};
ghost use Rattle.flat_model.specs.Machine.Count.{no_counts};
ghost use Rattle.mbuf_chain.specs.Chain.{PoolView};
ghost use Rattle.mbuf_chain.specs.Owners.{Moves};
ghost use Rattle.mbuf_chain.specs.Train.{numbers};
ghost use Rattle.ip_out.specs.Queues.{IsOutputQueue};

use flat_model::Counters;
use ip_out::Queue;
use mbuf_chain::{Pool, Train};

/// What all sockets of a machine share: its link, the packets on their way, and the counters. It must be consumed, by
/// `end`.
pub struct Net {
    /// The length in bytes of the longest packet that the link takes, 68 to 4352.
    pub mtu: u16,
    /// The identification of the next datagram sent.
    pub next_id: u16,
    /// The counters since boot.
    pub counters: Counters,
    /// The output queue: the packets for the link.
    pub out: Queue,
    /// The packets that come back to this machine, in order. A send puts them here, and they must be taken before the
    /// next send.
    pub looped: Train,
}

impl Net {
    /// Creates it without packets; all counters are 0.
    pub fn new(mtu: u16, first_id: u16) -> Net
        ensures mtu { result.mtu ≡ mtu }
        ensures next_id { result.next_id ≡ first_id }
        ensures counters { result.counters ≡ no_counts }
        ensures out { (p : PoolView) → IsOutputQueue p result.out }
        ensures waits { result.out.len ≡ 0 }
        ensures looped { result.looped ≡ record { first = None; last = None; len = 0 } }
    {
        Net {
            mtu,
            next_id: first_id,
            counters: Counters::none(),
            out: Queue::new(),
            looped: Train::new(),
        }
    }

    /// Frees all packets in the output queue. `looped` must be empty.
    pub fn end(self, pool: &mut Pool)
        requires out { IsOutputQueue pool.old self.out }
        requires none { self.looped.len ≡ 0 }
        ensures { Moves pool.old (numbers pool.old self.out) pool.new [] }
    {
        let Net {
            mtu: _,
            next_id: _,
            counters: _,
            out,
            looped,
        } = self;
        looped.end_empty();
        out.end(pool);
    }
}
