//! The queue and its calls.

ghost use Rattle.std.specs.Prelude.{◌≡◌, ◌+◌, ◌*◌, ◌==◌, ◌<◌, ◌≤◌, ◌∷◌, [], ◌++◌, true, false, length, if◌then◌else◌, MatchOption, Ok, Option, ℕ};
ghost use Rattle.params.specs.declared.TheConstants.{MAX_MBUFS, MCLBYTES};
ghost use Rattle.flat_model.specs.Sockets.Fits as flat;
ghost use Rattle.mbuf_chain.specs.Chain.{Adds, IsLive, PoolView, chain_of, free_clusters, held_mbufs, string};
ghost use Rattle.mbuf_chain.specs.Heads.{nth_heads};
ghost use Rattle.mbuf_chain.specs.Owners.{times_among, Moves};
ghost use Rattle.mbuf_chain.specs.Steps.{one_mbuf};
ghost use Rattle.ledger.specs.Accounts.{weight_at};
ghost use Rattle.sockbuf.specs.Questions.{oldest_of};
ghost use Rattle.sockbuf.specs.Stored.{IsTaken, StoresAt};
ghost use Rattle.sockbuf.specs.SockBuf.{Appended, AppendsAddr, CanAppend, IsEmpty, IsSockBuf, TakesOldest, chains_of, datagram_from, datagrams, no_datagrams};

use crate::address::{sockaddr_bytes, sockaddr_in};
use crate::measure::memory_of;
use flat_model::Addr;
use mbuf_chain::{Chain, MbufHeads, Pool, Reclaim, Train};
use params::{
    MBUF_HEADER, MCLBYTES, MSIZE, PACKET_START, SOCKADDR_BYTES, UDP_RECEIVE_MEMORY,
    UDP_RECEIVE_SPACE,
};
use std::alloc::{AllocError, Global};
use std::marker::Model;
use thiserror::Error;

/// Why a datagram wasn't queued.
#[derive(Clone, Copy, Debug, PartialEq, Eq, Error)]
pub enum Refusal {
    /// It doesn't fit, given what is queued already.
    #[error("receive queue full")]
    Full,
    /// No mbuf is free for the sender's address.
    #[error("no buffers")]
    NoBufs,
}

/// The datagrams that a socket has received and the program hasn't read yet, oldest first. It must be consumed by
/// `end`.
///
/// It holds at most 41,600 bytes, including 16 for each sender's address, and 83,200 bytes of memory: 128 for each mbuf
/// and 2048 for each reference to a cluster. A datagram's own mbufs don't count in the test of whether it fits, as in
/// `sbappendaddr` of volume 2, chapter 16.
///
/// Each call that appends is given the queue's limit. If it isn't 0, the queue holds at most that many bytes, and twice
/// as many bytes of memory. Then a datagram's own mbufs count too, so that a queue never holds more.
pub struct SockBuf {
    train: Train,
    cc: u32,
    mbcnt: u32,
}

impl Model for SockBuf {
    ghost use Rattle.sockbuf.specs.SockBuf.{SockBufView};

    ghost Value = { SockBufView };

    ghost view = { λ b. record { train = b.train; cc = b.cc; mbcnt = b.mbcnt } };
}

/// Makes a chain of one mbuf with the bytes from offset `start`, in a cluster of its own or in the mbuf's data area.
/// The buffers must be free.
#[inline(always)]
fn one_mbuf(pool: &mut Pool, is_large: bool, start: u32, bytes: &[u8]) -> Chain
    requires low { MBUF_HEADER ≤ start }
    requires high { start + length bytes.now ≤ (if is_large then MCLBYTES else MSIZE) }
    requires free { held_mbufs pool.old < pool.old.mbufs }
    requires cluster { is_large ≡ true → 0 < free_clusters pool.old }
    ensures { (o : Option ℕ) × IsTaken pool.old is_large o × Adds pool.old pool.new result
        (one_mbuf false (record { bytes = bytes.now; start = start; cluster = o }) result) }
{
    if is_large {
        let Ok(chain) = pool.new_cluster_with(false, start, bytes) else {
            unreachable!()
        };
        chain
    } else {
        let Ok(chain) = pool.new_plain_with(false, start, bytes) else {
            unreachable!()
        };
        chain
    }
}

impl SockBuf {
    /// Creates an empty queue. It fits every pool.
    pub const fn new() -> SockBuf
        ensures { result ≡ no_datagrams }
    {
        SockBuf {
            train: Train::new(),
            cc: 0,
            mbcnt: 0,
        }
    }

    /// Creates an empty queue like `new`, for a caller that boots it like the other parts of a stack. The queued
    /// datagrams are in the pool, so this allocates nothing and always returns `Ok`.
    pub fn boot(_alloc: Global) -> Result<SockBuf, AllocError>
        ensures { result ≡ Ok no_datagrams }
    {
        Ok(SockBuf::new())
    }

    /// Returns the number of queued datagrams.
    pub const fn len(&self) -> u32
        ensures { (p : PoolView) → IsSockBuf p self.now → result ≡ length (datagrams p self.now) }
    {
        self.train.len()
    }

    /// Returns whether the queue is empty.
    pub const fn is_empty(&self) -> bool
        ensures { (p : PoolView) → IsSockBuf p self.now → result ≡ (length (datagrams p self.now) == 0) }
    {
        self.train.is_empty()
    }

    /// Returns the number of queued bytes, including 16 for each sender's address: `sb_cc`.
    pub fn cc(&self) -> u32
        ensures { (p : PoolView) → IsSockBuf p self.now → result ≡ flat.bytes_queued (datagrams p self.now) }
    {
        self.cc
    }

    /// Returns how much memory the queued datagrams occupy, in bytes: `sb_mbcnt`.
    pub fn mbcnt(&self) -> u32
        ensures { (p : PoolView) → IsSockBuf p self.now → result ≡ flat.memory_queued (datagrams p self.now) }
    {
        self.mbcnt
    }

    /// Returns whether a datagram of `len` bytes that takes `memory` bytes fits, if the queue has this limit.
    pub fn fits(&self, limit: u16, len: u32, memory: u32) -> bool
        ensures { (p : PoolView) → IsSockBuf p self.now
            → result ≡ flat.fits limit (datagrams p self.now) len memory }
    {
        let with_address = u64::from(SOCKADDR_BYTES) + u64::from(len);
        let (bytes, used) = (u64::from(self.cc), u64::from(self.mbcnt));
        if limit == 0 {
            return with_address + bytes <= u64::from(UDP_RECEIVE_SPACE)
                && with_address + used <= u64::from(UDP_RECEIVE_MEMORY);
        }
        with_address + bytes <= u64::from(limit)
            && u64::from(MSIZE) + u64::from(memory) + used <= 2 * u64::from(limit)
    }

    /// Returns the sender and the length in bytes of the oldest datagram; `None` if the queue is empty. It changes
    /// nothing. The number of steps doesn't depend on the queue.
    pub fn oldest(&self, pool: &Pool) -> Option<(Addr, u32)>
        requires { IsSockBuf pool.now self.now }
        ensures { result ≡ oldest_of (datagrams pool.now self.now) }
    {
        let at = self.train.first(pool)?;
        let len = self.train.len_at(pool, at);
        let mut pieces = self.train.pieces_at(pool, at);
        match pieces.next() {
            Some(front) => Some((sockaddr_in(front), len - SOCKADDR_BYTES)),
            None => unreachable!(),
        }
    }

    /// Returns the mbufs of the datagram at index `i`, in order, for drawing them: each one's head fields and its
    /// bytes. The first mbuf contains the sender's address. Returns `None` exactly if there are no more than `i`
    /// datagrams. It takes one step for each datagram before it.
    pub fn heads<'a>(&self, pool: &'a Pool, i: u32) -> Option<MbufHeads<'a>>
        requires { IsSockBuf pool.now self.now }
        ensures { result ≡ nth_heads pool.now (chains_of pool.now self.now) i }
    {
        self.train.heads(pool, i)
    }

    /// Appends a datagram, with its sender's address in an mbuf before it (`sbappendaddr`), to a queue of this limit.
    /// It takes one mbuf. The number of steps doesn't depend on the queue.
    ///
    /// # Errors
    ///
    /// `Full` exactly if the datagram doesn't fit; `NoBufs` exactly if it fits and no mbuf is free. On error nothing
    /// changes and the caller gets the chain back.
    pub fn append_addr(
        &mut self,
        pool: &mut Pool,
        limit: u16,
        sender: Addr,
        chain: Chain,
    ) -> Result<(), (Chain, Refusal)>
        requires ready { IsSockBuf pool.old self.old }
        requires live { IsLive pool.old chain }
        requires apart { times_among chain (chains_of pool.old self.old) ≡ 0 }
        ensures appends { AppendsAddr limit pool.old self.old sender chain result pool.new self.new }
        ensures ready { IsSockBuf pool.new self.new }
    {
        let len = pool.len(&chain);
        let memory = memory_of(pool, &chain);
        if !self.fits(limit, len, memory) {
            return Err((chain, Refusal::Full));
        }
        if pool.free_mbufs() == 0 {
            return Err((chain, Refusal::NoBufs));
        }
        self.append_fitting(pool, limit, sender, chain, len, memory);
        Ok(())
    }

    /// Appends a datagram of `len` bytes that takes `memory` bytes like `append_addr`, for a caller that has made the
    /// tests: it must fit, and an mbuf must be free.
    // Inlined, because a stack appends in only one place.
    #[inline(always)]
    pub fn append_fitting(
        &mut self,
        pool: &mut Pool,
        _limit: u16,
        sender: Addr,
        chain: Chain,
        len: u32,
        memory: u32,
    )
        requires can { CanAppend _limit pool.old self.old chain len }
        requires memory { memory ≡ flat.memory_of (weight_at pool.old chain) }
        requires bound { memory ≤ (MSIZE + MCLBYTES) * MAX_MBUFS }
        ensures { Appended pool.old self.old chain sender pool.new self.new }
    {
        pool.laws();
        // By new_plain_before, `store` wouldn't be inlined, at 40 instructions for a datagram that is received.
        let Ok(whole) = pool.new_plain_with(true, PACKET_START, &sockaddr_bytes(sender)) else {
            unreachable!()
        };
        let first = pool.first(&whole);
        pool.link_counted(&whole, first, chain, len);
        let end = self.train.len();
        self.train.insert(pool, end, whole, 0);
        self.cc += SOCKADDR_BYTES + len;
        self.mbcnt += MSIZE + memory;
    }

    /// Appends a datagram of one mbuf, after an mbuf with its sender's address. The bytes go into a cluster or into the
    /// mbuf's own data area, from offset `start`. They must fit there and into the queue, and the buffers must be free.
    // Inlined, because a stack stores in only one place.
    #[inline(always)]
    pub fn store(
        &mut self,
        pool: &mut Pool,
        limit: u16,
        sender: Addr,
        is_large: bool,
        start: u32,
        bytes: &[u8],
    )
        requires ready { IsSockBuf pool.old self.old }
        requires low { MBUF_HEADER ≤ start }
        requires high { start + length bytes.now ≤ (if is_large then MCLBYTES else MSIZE) }
        requires fits { flat.fits limit (datagrams pool.old self.old) (length bytes.now)
            (if is_large then MSIZE + MCLBYTES else MSIZE) ≡ true }
        requires free { held_mbufs pool.old + 2 ≤ pool.old.mbufs }
        requires cluster { is_large ≡ true → 0 < free_clusters pool.old }
        ensures { StoresAt pool.old self.old sender is_large start bytes.now pool.new self.new }
    {
        let chain = one_mbuf(pool, is_large, start, bytes);
        let memory = if is_large { MSIZE + MCLBYTES } else { MSIZE };
        self.append_fitting(pool, limit, sender, chain, bytes.len() as u32, memory);
    }

    /// Removes the oldest datagram and returns its sender and its chain. The chain's mbufs are those that were queued;
    /// only its packet header is gone. The chain is in no train. The mbuf with the address is freed. Returns `None` if
    /// the queue is empty.
    // Inlined, because a stack reads in only one place.
    #[inline(always)]
    pub fn take(&mut self, pool: &mut Pool) -> Option<(Addr, Chain)>
        requires ready { IsSockBuf pool.old self.old }
        ensures takes { MatchOption result (IsEmpty pool.old self.old pool.new self.new)
            (λ found. TakesOldest pool.old self.old found.0 found.1 pool.new self.new) }
        ensures ready { IsSockBuf pool.new self.new }
    {
        if self.train.is_empty() {
            return None;
        }
        let (whole, _) = self.train.take(pool, 0);
        let first = pool.first(&whole);
        let sender = sockaddr_in(pool.bytes(&whole, first));
        // a chain counts with the sixteen bytes of its address; the sums of a queue's only chain are those of the queue
        let (len, memory) = if self.train.is_empty() {
            (self.cc, self.mbcnt)
        } else {
            (pool.len(&whole), memory_of(pool, &whole))
        };
        let chain = pool.free_first(whole);
        self.cc -= len;
        self.mbcnt -= memory;
        Some((sender, chain))
    }

    /// Frees all datagrams (`sbflush`).
    pub fn flush(&mut self, pool: &mut Pool)
        requires ready { IsSockBuf pool.old self.old }
        ensures empty { datagrams pool.new self.new ≡ [] }
        ensures ready { IsSockBuf pool.new self.new }
        ensures moves { Moves pool.old (chains_of pool.old self.old) pool.new [] }
    {
        let _freed = self.train.reclaim(pool);
        self.cc = 0;
        self.mbcnt = 0;
    }

    /// Consumes an empty queue. This needs no pool.
    pub fn end_empty(self)
        requires { self.train.len ≡ 0 }
    {
        let SockBuf {
            train,
            cc: _,
            mbcnt: _,
        } = self;
        train.end_empty();
    }

    /// Frees all datagrams, and consumes the queue.
    pub fn end(self, pool: &mut Pool)
        requires { IsSockBuf pool.old self }
        ensures { Moves pool.old (chains_of pool.old self) pool.new [] }
    {
        let SockBuf {
            train,
            cc: _,
            mbcnt: _,
        } = self;
        train.free(pool);
    }
}
