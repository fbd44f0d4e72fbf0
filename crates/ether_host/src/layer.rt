//! The link state that a host keeps as well as the stack.
ghost use Rattle.std.specs.Prelude.{◌≡◌, ◌≤◌, IfOk, vec_capacity};
ghost use Rattle.flat_ether.specs.declared.sizes.TheConstants.{HELD_PACKETS};

use crate::buffer::PacketBuffer;
use crate::reply::Reply;
use arrayvec::ArrayVec;
use flat_ether::{
    Claim, ERRORS_A_TICK, FIRST_FRAGMENTS, HELD_PACKETS, Link, NEIGHBOURS, Neighbour,
    PENDING_REPLIES, PendingReply, QUOTE, SOCKET_ERRORS, SocketError, Tallies,
};
use flat_model::Config;
use std::alloc::{AllocError, Global};

/// The link's half of a host: its state, without the stack. All its memory is allocated at boot.
#[derive(Drop)]
pub struct LinkLayer {
    pub(crate) config: Config,
    pub(crate) link: Link,
    pub(crate) neighbours: ArrayVec<Neighbour, NEIGHBOURS>,
    pub(crate) replies: ArrayVec<PendingReply, PENDING_REPLIES>,
    pub(crate) held: Vec<PacketBuffer>,
    pub(crate) answer: Reply,
    pub(crate) answer_hop: u32,
    pub(crate) answer_id: u16,
    pub(crate) firsts: ArrayVec<[u8; QUOTE], FIRST_FRAGMENTS>,
    pub(crate) errors: ArrayVec<SocketError, SOCKET_ERRORS>,
    pub(crate) claim: Claim,
    pub(crate) errors_left: u8,
    pub(crate) tallies: Tallies,
    ghost places: { HELD_PACKETS ≤ vec_capacity held },
}

impl LinkLayer {
    ghost use Rattle.flat_ether.specs.Links.{link_up};
    ghost use Rattle.ether_host.specs.Inside.{link_seen};

    /// A link that knows nothing yet. Fails with `AllocError` if the host has no memory for the packets that it may
    /// hold.
    pub fn boot(alloc: Global, config: Config, link: Link) -> Result<LinkLayer, AllocError>
        ensures { IfOk result (λ l. link_seen l ≡ link_up config link) }
    {
        let held = Vec::with_capacity(alloc, HELD_PACKETS)?;
        Ok(LinkLayer {
            config,
            link,
            neighbours: ArrayVec::new(),
            replies: ArrayVec::new(),
            held,
            answer: Reply::blank(),
            answer_hop: 0,
            answer_id: config.first_id,
            firsts: ArrayVec::new(),
            errors: ArrayVec::new(),
            claim: Claim::new(link.probe),
            errors_left: ERRORS_A_TICK,
            tallies: Tallies::default(),
        })
    }
}
