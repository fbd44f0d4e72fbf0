//! The output queue.
ghost use Rattle.std.specs.Prelude.{◌≡◌, ℕ, ◌+◌, ◌<◌, ◌≤◌, ◌==◌, ◌++◌, [], ◌∷◌, true, false, None, IfSome, MatchOption, option_map, drop, take, length, nat_lt, IfNone};
ghost use Rattle.mbuf_chain.specs.Chain.{PoolView, IsLive, chain_of, entry_of, string, alone};
ghost use Rattle.mbuf_chain.specs.Heads.{nth_heads};
ghost use Rattle.mbuf_chain.specs.Owners.{Moves, IsOwned, times_among};
ghost use Rattle.mbuf_chain.specs.Train.{IsHeld, numbers};
ghost use Rattle.ledger.specs.Accounts.{item_at};
ghost use Rattle.ip_out.specs.Inside.{CanPush, IsPushed, IsEnqueued};
ghost use Rattle.ip_out.specs.Packets.{BeginPlain, IsDatagramChain, train_packets, packets_of, chain_parts};
ghost use Rattle.ip_out.specs.Questions.{nth_packet, oldest_length};
ghost use Rattle.ip_out.specs.Queues.{IsOutputQueue};

use crate::fragments::add_whole;
use crate::head::IpHead;
use crate::waiting::copy_packet;
use mbuf_chain::{Chain, MbufHeads, Pool, Train};
use params::OUTPUT_QUEUE_PACKETS;
use std::marker::Model;
use std::mem;

/// The packets that wait for the link, at most 50, first in first out: `ifqueue` of TCP/IP Illustrated volume 2,
/// chapter 3. They are linked through their own first mbufs, so the queue takes no buffer. It must be consumed, by
/// `end`.
///
/// Each call gets the pool that contains the packets.
pub struct Queue {
    train: Train,
}

/// Replaces an empty train by another one of at most 50 packets. O(1).
fn take_over(pool: &Pool, train: &mut Train, more: Train)
    requires none { train.old.len ≡ 0 }
    requires few { more.len ≤ OUTPUT_QUEUE_PACKETS }
    requires more { IsHeld pool.now more }
    ensures { IsEnqueued pool.now train.old more pool.now train.new false }
{
    let _ = pool;
    mem::replace(train, more).end_empty();
}

/// Appends packets to a train up to the 50th, and frees the others. Returns whether there were others.
fn move_packets(pool: &mut Pool, train: &mut Train, more: Train) -> bool
    requires held { IsHeld pool.old train.old }
    requires more { IsHeld pool.old more }
    requires owned { IsOwned pool.old (numbers pool.old train.old ++ numbers pool.old more) }
    requires room { train.old.len ≤ OUTPUT_QUEUE_PACKETS }
    ensures { IsEnqueued pool.old train.old more pool.new train.new result }
{
    let mut rest = more;
    'packets: while train.len() < OUTPUT_QUEUE_PACKETS && rest.len() > 0 {
        let (packet, _) = rest.take(pool, 0);
        let end = train.len();
        train.insert(pool, end, packet, 0);
    }
    let is_lost = rest.len() > 0;
    rest.free(pool);
    is_lost
}

impl Model for Queue {
    ghost use Rattle.mbuf_chain.specs.Train.{TrainView};

    ghost Value = { TrainView };

    ghost view = { λ q. q.train };
}

impl Queue {
    /// Creates a queue without packets.
    pub const fn new() -> Queue
        ensures empty { result ≡ record { first = None; last = None; len = 0 } }
        ensures queue { (p : PoolView) → IsOutputQueue p result }
        ensures plain { (p : PoolView) → BeginPlain p result }
    {
        Queue {
            train: Train::new(),
        }
    }

    /// Returns the number of queued packets.
    pub const fn len(&self) -> u32
        ensures { result ≡ self.now.len }
    {
        self.train.len()
    }

    /// Returns whether the queue is empty.
    pub const fn is_empty(&self) -> bool
        ensures { result ≡ (self.now.len == 0) }
    {
        self.train.is_empty()
    }

    /// Returns the length in bytes of the oldest packet, or `None` if the queue is empty. It changes nothing and takes
    /// O(1) steps.
    pub fn next_len(&self, pool: &Pool) -> Option<u32>
        requires { IsOutputQueue pool.now self.now }
        ensures { result ≡ oldest_length (train_packets pool.now self.now) }
    {
        let at = self.train.first(pool)?;
        Some(self.train.len_at(pool, at))
    }

    /// Copies the bytes of the packet at index `i` to the front of `buffer`, and returns their number; `None` exactly
    /// if no more than `i` packets are queued. The rest of `buffer` is unchanged. The packet must fit there. It stays
    /// in the queue. It takes one step for each packet before it.
    pub fn packet(&self, pool: &Pool, i: u32, buffer: &mut [u8]) -> Option<usize>
        requires queue { IsOutputQueue pool.now self.now }
        requires fits { IfSome (nth_packet i (train_packets pool.now self.now))
            (λ bytes. length bytes ≤ length buffer.old) }
        ensures packet { option_map (λ n. take n buffer.new) result ≡ nth_packet i (train_packets pool.now self.now) }
        ensures within { IfSome result (λ n. n ≤ length buffer.new) }
        ensures same { IfNone result (buffer.new ≡ buffer.old) }
        ensures rest { IfSome result (λ n. drop n buffer.new ≡ drop n buffer.old) }
    {
        copy_packet(pool, &self.train, i, buffer)
    }

    /// Returns the mbufs of the packet at index `i`, in order, for drawing them: the head fields and the bytes of each.
    /// Returns `None` exactly if no more than `i` packets are queued. It takes one step for each packet before it.
    pub fn heads<'a>(&self, pool: &'a Pool, i: u32) -> Option<MbufHeads<'a>>
        requires { IsOutputQueue pool.now self.now }
        ensures { result ≡ nth_heads pool.now (numbers pool.now self.now) i }
    {
        self.train.heads(pool, i)
    }

    /// Appends a packet. Fewer than 50 must be queued, and its first mbuf must have a packet header. It takes O(1)
    /// steps.
    pub fn push(&mut self, pool: &mut Pool, packet: Chain)
        requires queue { IsOutputQueue pool.old self.old }
        requires room { self.old.len < OUTPUT_QUEUE_PACKETS }
        requires live { IsLive pool.old packet }
        requires headed { (chain_of pool.old packet).front.header ≡ true }
        requires apart { times_among packet (numbers pool.old self.old) ≡ 0 }
        ensures packets { train_packets pool.new self.new
            ≡ train_packets pool.old self.old ++ item_at pool.old packet ∷ [] }
        ensures plain { (entry_of (chain_of pool.old packet) 0).cluster ≡ None → BeginPlain pool.old self.old
            → BeginPlain pool.new self.new }
        ensures queue { IsOutputQueue pool.new self.new }
        ensures len { self.new.len ≡ self.old.len + 1 }
        ensures moves { Moves pool.old (packet ∷ numbers pool.old self.old) pool.new (numbers pool.new self.new) }
    {
        let end = self.len();
        self.train.insert(pool, end, packet, 0);
    }

    /// Appends a datagram of `len` bytes as one packet, or frees it if the queue is full. Returns whether it was full.
    #[inline(always)]
    pub(crate) fn push_whole(
        &mut self,
        pool: &mut Pool,
        chain: Chain,
        head: IpHead,
        len: u32,
    ) -> bool
        requires { CanPush pool.old self.old chain len }
        ensures { IsPushed pool.old self.old chain head len pool.new self.new result }
    {
        if self.len() >= OUTPUT_QUEUE_PACKETS {
            pool.free_chain(chain);
            return true;
        }
        self.push_one(pool, chain, head, len);
        false
    }

    /// Appends a datagram of `len` bytes as one packet. Fewer than 50 must be queued, and the conditions of
    /// `send_packets` hold for the chain. It takes O(1) steps.
    #[inline(always)]
    pub fn push_one(&mut self, pool: &mut Pool, chain: Chain, head: IpHead, len: u32)
        requires queue { IsOutputQueue pool.old self.old }
        requires room { self.old.len < OUTPUT_QUEUE_PACKETS }
        requires live { IsLive pool.old chain }
        requires datagram { IsDatagramChain (chain_of pool.old chain) }
        requires len { len ≡ length (string (chain_of pool.old chain)) }
        requires apart { times_among chain (numbers pool.old self.old) ≡ 0 }
        ensures packets { (mtu : ℕ) → len ≤ mtu → train_packets pool.new self.new ≡ take OUTPUT_QUEUE_PACKETS
            (train_packets pool.old self.old ++ packets_of (chain_of pool.old chain) head mtu) }
        ensures lost { (mtu : ℕ) → len ≤ mtu → false ≡ nat_lt OUTPUT_QUEUE_PACKETS
            (length (train_packets pool.old self.old ++ packets_of (chain_of pool.old chain) head mtu)) }
        ensures cut { (mtu : ℕ) → len ≤ mtu → false ≡ nat_lt 1 (length (chain_parts (chain_of pool.old chain) mtu)) }
        ensures plain { BeginPlain pool.old self.old → BeginPlain pool.new self.new }
        ensures queue { IsOutputQueue pool.new self.new }
        ensures moves { Moves pool.old (chain ∷ numbers pool.old self.old) pool.new (numbers pool.new self.new) }
    {
        add_whole(pool, &mut self.train, chain, head, len);
    }

    /// Removes and returns the oldest packet, or returns `None` if the queue is empty. It takes O(1) steps.
    pub fn pop(&mut self, pool: &mut Pool) -> Option<Chain>
        requires { IsOutputQueue pool.old self.old }
        ensures packets { MatchOption result
            ((train_packets pool.old self.old ≡ []) × (pool.new ≡ pool.old) × (self.new ≡ self.old))
            (λ packet. train_packets pool.old self.old ≡ item_at pool.new packet ∷ train_packets pool.new self.new) }
        ensures alone { MatchOption result (self.old.len ≡ 0)
            (λ packet. (chain_of pool.new packet).front ≡ alone true) }
        ensures plain { IfSome result (λ packet. BeginPlain pool.old self.old
            → ((entry_of (chain_of pool.new packet) 0).cluster ≡ None) × BeginPlain pool.new self.new) }
        ensures live { IfSome result (IsLive pool.new) }
        ensures apart { IfSome result (λ packet. times_among packet (numbers pool.new self.new) ≡ 0) }
        ensures queue { IsOutputQueue pool.new self.new }
        ensures moves { MatchOption result (self.old.len ≡ 0)
            (λ packet. Moves pool.old (numbers pool.old self.old) pool.new (packet ∷ numbers pool.new self.new)) }
    {
        if self.is_empty() {
            return None;
        }
        let (packet, _) = self.train.take(pool, 0);
        Some(packet)
    }

    /// Appends packets until the queue is full, and frees the others. Returns whether there were others.
    pub fn push_all(&mut self, pool: &mut Pool, more: Train) -> bool
        requires queue { IsOutputQueue pool.old self.old }
        requires more { IsHeld pool.old more }
        requires owned { IsOwned pool.old (numbers pool.old self.old ++ numbers pool.old more) }
        ensures packets { train_packets pool.new self.new
            ≡ take OUTPUT_QUEUE_PACKETS (train_packets pool.old self.old ++ train_packets pool.old more) }
        ensures lost { result
            ≡ nat_lt OUTPUT_QUEUE_PACKETS (length (train_packets pool.old self.old ++ train_packets pool.old more)) }
        ensures plain { BeginPlain pool.old self.old → BeginPlain pool.old more → BeginPlain pool.new self.new }
        ensures queue { IsOutputQueue pool.new self.new }
        ensures moves { Moves pool.old (numbers pool.old self.old ++ numbers pool.old more)
            pool.new (numbers pool.new self.new) }
    {
        if self.is_empty() && more.len() <= OUTPUT_QUEUE_PACKETS {
            take_over(pool, &mut self.train, more);
            return false;
        }
        move_packets(pool, &mut self.train, more)
    }

    /// Frees all packets, and consumes the queue.
    pub fn end(self, pool: &mut Pool)
        requires { IsOutputQueue pool.old self }
        ensures { Moves pool.old (numbers pool.old self) pool.new [] }
    {
        let Queue { train } = self;
        train.free(pool);
    }
}
