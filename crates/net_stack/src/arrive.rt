//! Packets that arrive in a chain, by loopback.
ghost use Rattle.std.specs.Prelude.{◌≡◌, ◌≤◌, [], ◌∷◌, true, length, IfOk, IfErr};
ghost use Rattle.mbuf_chain.specs.Chain.{IsLive, chain_of, string};
ghost use Rattle.mbuf_chain.specs.Train.{IsHeld, numbers};
ghost use Rattle.ip_out.specs.Packets.{BeginPlain};
ghost use Rattle.net_stack.specs.Inside.Arrivals.{EndsInChain, IsHeadForUs, fate_by};
ghost use Rattle.net_stack.specs.Inside.Hosts.{TrainArrives, ArrivesInChain, PartsFit, FragmentIsTaken};

use crate::host::{Ending, Host};
use crate::receive::{is_for_us, is_fragment};
use chain_ops::{trim_back, trim_front};
use flat_model::{Counter, Why};
use ip_out::{IpHead, read_head};
use ip_reass::Arrival;
use mbuf_chain::{Chain, Pool, Train};
use params::{IP_HEADER, IP_MAX_PACKET};
use sock_calls::Socks;

/// Reads the header of a packet in a chain, if the packet is for this machine. `Err` is the cause that it's dropped
/// for: the first test of its header that fails, or `CantForward`, because packets aren't forwarded.
#[inline(always)]
fn head_for_us(pool: &Pool, socks: &Socks, chain: &Chain) -> Result<IpHead, Why>
    requires { IsLive pool.now chain.now }
    ensures ok { IfOk result (IsHeadForUs socks.now (string (chain_of pool.now chain.now))) }
    ensures err { IfErr result (EndsInChain pool.now socks.now chain.now) }
{
    let head = read_head(pool, chain)?;
    if is_for_us(socks, head.dst) {
        Ok(head)
    } else {
        Err(Why::CantForward)
    }
}

impl Host {
    /// A fragment for this machine arrives. If it completes its datagram, that arrives.
    pub(crate) fn take_fragment(&mut self, chain: Chain, head: IpHead) -> Ending
        requires fit { PartsFit self.old (chain ∷ []) }
        requires headed { (chain_of self.old.pool chain).front.header ≡ true }
        requires total { length (string (chain_of self.old.pool chain)) ≡ head.total }
        requires header { IP_HEADER ≤ head.total }
        requires offset { head.offset ≤ IP_MAX_PACKET }
        ensures { FragmentIsTaken self.old chain head (fate_by result self.new.reached) self.new }
    {
        match self
            .reass
            .arrive(&mut self.pool, &mut self.net.counters, chain, head)
        {
            Arrival::Whole(chain, head) => {
                let whole = self.socks.input(
                    &mut self.pool,
                    &mut self.reass,
                    &mut self.net.counters,
                    chain,
                    head,
                    &mut self.reached,
                );
                Ending::of_completed(whole)
            }
            Arrival::Kept => Ending::Waits,
            Arrival::Dropped(why) => Ending::Ends(why),
        }
    }

    /// A packet arrives by loopback; its chain is consumed (`ipintr` of volume 2, chapter 8).
    ///
    /// It's counted. Then, in this order, it's dropped for the first test of its header that fails, or for
    /// `CantForward` if it's for another machine, because packets aren't forwarded. Bytes after its total length are
    /// trimmed. A fragment goes to the reassembly, and a datagram that it completes to the sockets; any other packet
    /// goes to the sockets directly, without its header. Each dropped packet is counted for its cause.
    pub(crate) fn arrive(&mut self, chain: Chain) -> Ending
        requires fit { PartsFit self.old (chain ∷ []) }
        requires headed { (chain_of self.old.pool chain).front.header ≡ true }
        ensures { ArrivesInChain self.old chain (fate_by result self.new.reached) self.new }
    {
        self.net.counters.count(Counter::IpTotal);
        let head = match head_for_us(&self.pool, &self.socks, &chain) {
            Ok(head) => head,
            Err(why) => {
                self.pool.free_chain(chain);
                self.net.counters.count_ended(why);
                return Ending::Ends(why);
            }
        };
        trim_back(&mut self.pool, &chain, u32::from(head.total));
        if is_fragment(&head) {
            self.take_fragment(chain, head)
        } else {
            trim_front(&mut self.pool, &chain, IP_HEADER);
            let whole = self.socks.input(
                &mut self.pool,
                &mut self.reass,
                &mut self.net.counters,
                chain,
                head,
                &mut self.reached,
            );
            Ending::of_whole(whole)
        }
    }

    /// The packets of a train arrive, one after another; the later ones keep their buffers meanwhile. Each must begin
    /// in a plain mbuf, as looped packets do.
    pub(crate) fn arrive_all(&mut self, mut train: Train)
        requires fit { PartsFit self.old (numbers self.old.pool train) }
        requires held { IsHeld self.old.pool train }
        requires plain { BeginPlain self.old.pool train }
        ensures { TrainArrives self.old train self.new }
    {
        'packets: while !train.is_empty() {
            let (chain, _) = train.take(&mut self.pool, 0);
            self.arrive(chain);
        }
        train.end_empty();
    }
}
