//! The judge of the records of a capture, one after another.
ghost use Rattle.std.specs.Prelude.{◌≡◌, ◌≤◌, IfOk, MatchResult, length, replicate};
ghost use Rattle.params.specs.declared.TheConstants.{IP_MAX_PACKET};
ghost use Rattle.flat_model.specs.Machine.Event.{Tick};
ghost use Rattle.net_stack.specs.Boots.{IsUnbooted};
ghost use Rattle.net_stack.specs.Stack.{state_of};
ghost use Rattle.play_text.specs.Fates.{fate_of};
ghost use Rattle.play_why.specs.Judged as judged;
ghost use Rattle.play_why.specs.Judged.{HasPassed, IsJudged, IsNew, IsOf, IsTick, Led, ReportsLost, ReportsUnfinished};
ghost use Rattle.play_why.specs.Kept.{Remembers};
ghost use Rattle.play_why.specs.Objects.{IsPrinted};

use crate::FATE;
use crate::finding::Counted;
use crate::host::{Host, arrive, counters_of};
use crate::lacks::{End, put_unfinished};
use crate::layout::Layout;
use crate::object::{Strings, put_object};
use crate::outcome::Outcome;
use crate::parts::{Loss, Parts};
use crate::ports::Ports;
use crate::scratch::Scratch;
use crate::seen::Seen;
use crate::sentences::{Report, put_lines};
use crate::table::{Losses, Verdicts};
use crate::verdict::Verdict;
use flat_model::{Config, Counters};
use flat_plain::u32_at;
use net_stack::{BootFault, Stack};
use params::{IP_HEADER, LIMITED_BROADCAST, LOOPBACK, MAX_CLUSTERS, MAX_MBUFS};
use play_text::Piece::{Address, Either, Long, Text};
use play_text::{Fate, add, fate_of};
use script_loop::Buffer;
use std::alloc::{AllocError, Global};

/// Half a second, in nanoseconds.
const TICK: u64 = 500_000_000;

/// More ticks than this at once have no further effect: each unfinished datagram has expired by then.
const MOST_TICKS: u64 = 61;

/// A record with an IPv4 packet.
#[derive(Clone, Copy)]
pub struct Arrival<'a> {
    /// Its number in the capture, from 1.
    pub number: u64,
    /// Nanoseconds since the first record.
    pub time: u64,
    /// How many bytes the record had on the wire, and how many of them the capture kept.
    pub original: u32,
    pub captured: u32,
    /// The packet, with its IP header first.
    pub packet: &'a [u8],
    /// Whether its UDP checksum was left to the sender's card, and is filled in here.
    pub filled: bool,
    /// The record of the ICMP error with which the host refused it, if there is one.
    pub refused: Option<u64>,
    /// The ports of its datagram, if they are known from another fragment.
    pub source_port: Option<u16>,
    pub destination_port: Option<u16>,
}

/// What happened to all packets.
#[derive(Clone, Copy)]
struct Totals {
    packets: u64,
    delivered: u64,
    kept: u64,
    refused: u64,
    offload: u64,
    cut: u64,
    dropped: u64,
}

/// What else a capture has, for the summary as a JSON object.
#[derive(Clone, Copy)]
pub struct Others {
    /// Packets for other machines.
    pub elsewhere: u64,
    /// Records without IPv4.
    pub without: u64,
    /// Datagrams that are unfinished at the end.
    pub unfinished: u64,
}

/// A host at which the packets of a capture arrive, and the last report. It must be consumed by `end`.
pub struct Judge {
    host: Host,
    layout: Layout,
    broadcast: u32,
    ports: Ports,
    parts: Parts,
    scratch: Scratch,
    text: Buffer<FATE>,
    verdicts: Verdicts,
    totals: Totals,
    losses: Losses,
    /// How many ticks have passed.
    ticks: u64,
}

/// Returns the broadcast address of the network of 256 addresses that has this address.
pub fn broadcast_of(ours: u32) -> u32
    ensures { result ≡ judged.broadcast_of ours }
{
    let last = ours / 256 * 256 + 255;
    if last == ours { ours - 1 } else { last }
}

/// Returns the configuration of the machine for an address. For 127.0.0.1 the machine has another address too.
fn config_of(ours: u32, broadcast: u32) -> Config
    ensures { result ≡ judged.machine_for ours broadcast }
{
    let is_loopback = ours == LOOPBACK;
    Config {
        addr: if is_loopback { 0x0a00_0001 } else { ours },
        bcast: if is_loopback { 0x0a00_00ff } else { broadcast },
        mtu: 1500,
        mbufs: MAX_MBUFS,
        clusters: MAX_CLUSTERS,
        first_id: 1,
    }
}

/// Lets `count` ticks pass.
#[tactic(auto, unfolding(stack_call::specs::Moves::StackSteps))]
fn tick_all(machine: &mut Stack, count: u64)
    ensures { Led IsTick (replicate count Tick) (state_of machine.old) (state_of machine.new) }
{
    let mut left = count;
    while left > 0 {
        machine.tick();
        left -= 1;
    }
}

/// Returns the record with this packet, and the datagram that was reassembled.
fn seen_by<'a>(parts: &'a Parts, arrival: &Arrival<'_>, packet: &'a [u8]) -> Seen<'a>
    requires same { packet.now ≡ arrival.now.packet.now }
    requires short { length packet.now ≤ IP_MAX_PACKET }
    ensures { IsOf arrival.now parts.now result }
{
    Seen {
        number: arrival.number,
        original: arrival.original,
        captured: arrival.captured,
        packet,
        whole: parts.bytes(),
        filled: arrival.filled,
        refused: arrival.refused,
        source_port: arrival.source_port,
        destination_port: arrival.destination_port,
    }
}

/// Puts a record into a buffer.
fn put_record(text: &mut Buffer<FATE>, layout: Layout, report: &Report<'_>, strings: &mut Strings)
    ensures { IsPrinted layout report.now.time report.now.verdict.now text.new }
{
    match layout {
        Layout::Lines => put_lines(text, report),
        Layout::Objects => put_object(text, report, strings),
    }
}

/// Keeps a packet's fragment, or forgets the fragments of its datagram if that is complete.
fn remember(
    parts: &mut Parts,
    number: u64,
    packet: &[u8],
    before: &Counters,
    after: &Counters,
) -> Result<(), AllocError>
    ensures { IfOk result
        (λ u. Remembers (fate_of before.now after.now) number packet.now parts.old parts.new) }
{
    match fate_of(before, after) {
        Fate::Whole => parts.forget(packet),
        Fate::Kept => parts.keep(number, packet)?,
        Fate::Other => {}
    }
    Ok(())
}

/// Appends the front of the summary as an object.
fn put_host(text: &mut Buffer<FATE>, ours: u32) {
    add(
        text,
        &[
            Text(b"{\"summary\":{\"host\":\""),
            Address(ours),
            Text(b"\","),
        ],
    );
}

/// Appends members for what else a capture has.
fn put_others(text: &mut Buffer<FATE>, others: Others) {
    add(
        text,
        &[
            Text(b",\"unfinished\":"),
            Long(others.unfinished),
            Text(b",\"elsewhere\":"),
            Long(others.elsewhere),
            Text(b",\"without_ipv4\":"),
            Long(others.without),
        ],
    );
}

impl Totals {
    /// Counts one more packet.
    fn counted(self, outcome: Outcome) -> Totals
        ensures { result ≡ judged.counted_as outcome self }
    {
        let mut totals = self;
        totals.packets = self.packets.saturating_add(1);
        match outcome {
            Outcome::Delivered => totals.delivered = self.delivered.saturating_add(1),
            Outcome::Kept => totals.kept = self.kept.saturating_add(1),
            Outcome::Refused => totals.refused = self.refused.saturating_add(1),
            Outcome::Offload => totals.offload = self.offload.saturating_add(1),
            Outcome::Cut => totals.cut = self.cut.saturating_add(1),
            Outcome::Dropped => totals.dropped = self.dropped.saturating_add(1),
        }
        totals
    }

    /// Appends the line with all packets.
    fn put(&self, ours: u32, text: &mut Buffer<FATE>) {
        add(
            text,
            &[
                Text(b"\nTo "),
                Address(ours),
                Text(b": "),
                Long(self.packets),
                Either(
                    self.packets == 1,
                    b" packet. Delivered: ",
                    b" packets. Delivered: ",
                ),
                Long(self.delivered),
                Text(b". Kept as fragments: "),
                Long(self.kept),
            ],
        );
        if self.refused != 0 {
            add(
                text,
                &[Text(b". Refused by the host: "), Long(self.refused)],
            );
        }
        if self.offload != 0 {
            add(text, &[Text(b". Left to the card: "), Long(self.offload)]);
        }
        if self.cut != 0 {
            add(text, &[Text(b". Cut by the capture: "), Long(self.cut)]);
        }
        add(
            text,
            &[Text(b". Dropped: "), Long(self.dropped), Text(b".\n")],
        );
    }

    /// Appends the members of a JSON object for them.
    fn put_members(&self, text: &mut Buffer<FATE>) {
        add(
            text,
            &[
                Text(b"\"packets\":"),
                Long(self.packets),
                Text(b",\"delivered\":"),
                Long(self.delivered),
                Text(b",\"kept\":"),
                Long(self.kept),
                Text(b",\"refused\":"),
                Long(self.refused),
            ],
        );
        add(
            text,
            &[
                Text(b",\"offload\":"),
                Long(self.offload),
                Text(b",\"cut\":"),
                Long(self.cut),
                Text(b",\"dropped\":"),
                Long(self.dropped),
            ],
        );
    }
}

impl Judge {
    /// A machine with this address in a network with this broadcast address, at which no packet has arrived. Each port
    /// is bound when a datagram for it arrives, or only `port`. Fails with `BadConfig` if no machine can have these
    /// addresses, otherwise with `Memory`.
    pub fn new(
        alloc: Global,
        layout: Layout,
        ours: u32,
        broadcast: u32,
        port: Option<u16>,
    ) -> Result<Judge, BootFault>
        ensures { MatchResult result
            (IsNew layout ours broadcast port)
            (IsUnbooted (judged.machine_for ours broadcast)) }
    {
        let stack = Stack::boot(alloc, config_of(ours, broadcast))?;
        let (Ok(parts), Ok(scratch), Ok(text)) = (
            Parts::new(alloc),
            Scratch::new(alloc),
            Buffer::new(alloc),
        ) else {
            let _ = stack.end();
            return Err(BootFault::Memory);
        };
        Ok(Judge {
            host: Host {
                stack,
                address: ours,
            },
            layout,
            broadcast,
            ports: Ports::new(alloc, port),
            parts,
            scratch,
            text,
            verdicts: Verdicts::new(),
            totals: Totals {
                packets: 0,
                delivered: 0,
                kept: 0,
                refused: 0,
                offload: 0,
                cut: 0,
                dropped: 0,
            },
            losses: Losses::none(),
            ticks: 0,
        })
    }

    /// Consumes the host's stack.
    pub fn end(self) {
        let Judge {
            host,
            layout: _layout,
            broadcast: _broadcast,
            ports: _ports,
            parts: _parts,
            scratch: _scratch,
            text: _text,
            verdicts: _verdicts,
            totals: _totals,
            losses: _losses,
            ticks: _ticks,
        } = self;
        let Host {
            stack,
            address: _address,
        } = host;
        let _ = stack.end();
    }

    /// Returns whether a packet is for this machine: it goes to its address, to the broadcast address of its network or
    /// to 255.255.255.255; or it's too short to say.
    pub fn is_ours(&self, packet: &[u8]) -> bool
        ensures { result ≡ judged.is_for self.now packet.now }
    {
        if packet.len() < IP_HEADER as usize {
            return true;
        }
        let destination = u32_at(packet, 16);
        destination == self.host.address
            || (destination == self.broadcast || destination == LIMITED_BROADCAST)
    }

    /// Lets time pass, in nanoseconds since the first record: a tick each half second. `report_lost` reports the
    /// datagrams that expired. Fails if the host has no memory for their records.
    pub fn pass(&mut self, time: u64) -> Result<(), AllocError>
        ensures { IfOk result (λ done. HasPassed self.old time self.new) }
    {
        let due = time / TICK;
        let count = due.saturating_sub(self.ticks).min(MOST_TICKS);
        let passed = self.ticks.max(due);
        let before = counters_of(&self.host.stack);
        tick_all(&mut self.host.stack, count);
        let after = counters_of(&self.host.stack);
        self.ticks = passed;
        self.parts.expire(&self.host.stack, &before, &after)
    }

    /// Lets a record's packet arrive. Returns the verdict on it; `text` then returns the output for it, and
    /// `records` the records of the other fragments of its datagram. `report_lost` reports the datagrams that were
    /// dropped for their buffers. Fails if the host has no memory for a fragment; the packet may have arrived then.
    pub fn receive(&mut self, arrival: &Arrival<'_>) -> Result<Verdict, AllocError>
        requires { length arrival.now.packet.now ≤ IP_MAX_PACKET }
        ensures { IfOk result (λ verdict. IsJudged self.old arrival.now verdict self.new) }
    {
        let packet = arrival.packet;
        self.parts.gather(packet)?;
        self.ports
            .prepare(&mut self.host.stack, packet, arrival.refused)?;
        let before = counters_of(&self.host.stack);
        arrive(
            &mut self.host.stack,
            packet,
            self.scratch.packet.as_mut_slice(),
        );
        let after = counters_of(&self.host.stack);
        self.parts.join(packet, &before, &after);
        let seen = seen_by(&self.parts, arrival, packet);
        let counted = Counted {
            before: &before,
            after: &after,
        };
        let verdict = Verdict::of(&seen, &counted, &self.host, &mut self.scratch.covered);
        let report = Report {
            seen: &seen,
            time: arrival.time,
            verdict: &verdict,
            records: self.parts.records(),
        };
        put_record(
            &mut self.text,
            self.layout,
            &report,
            &mut self.scratch.strings,
        );
        self.verdicts.count_record(&seen, &before, &after);
        self.totals = self.totals.counted(verdict.outcome);
        self.ports
            .drain(&mut self.host.stack, self.scratch.packet.as_mut_slice());
        self.parts.reclaim(packet, &before, &after)?;
        remember(&mut self.parts, arrival.number, packet, &before, &after)?;
        Ok(verdict)
    }

    /// Returns the text of the last report.
    pub fn text(&self) -> &[u8]
        ensures { result.now ≡ self.now.text }
    {
        self.text.as_slice()
    }

    /// Reports on all packets: how many arrived, what happened to them, and for each cause how many were dropped and
    /// the first record. `text` then returns the lines, or an object, which has `others` too.
    pub fn report_totals(&mut self, others: Others)
        ensures { self.new ≡ record (self.old) { text = self.new.text } }
    {
        self.text.clear();
        match self.layout {
            Layout::Lines => {
                self.totals.put(self.host.address, &mut self.text);
                self.verdicts.put(&mut self.text);
                self.losses.put(&mut self.text);
            }
            Layout::Objects => {
                put_host(&mut self.text, self.host.address);
                self.totals.put_members(&mut self.text);
                self.losses.put_members(&mut self.text);
                put_others(&mut self.text, others);
                self.verdicts.put_members(&mut self.text);
                add(&mut self.text, &[Text(b"}}\n")]);
            }
        }
    }

    /// Reports on the first datagram that was dropped unfinished and that wasn't reported yet. Returns why it was
    /// dropped; `records` and `text` then return the records of its fragments and the report. Returns `None` if no such
    /// datagram is left. Fails if the host has no memory for the records.
    pub fn report_lost(&mut self) -> Result<Option<Loss>, AllocError>
        ensures { IfOk result (λ why. ReportsLost why self.old self.new) }
    {
        let Some(lost) = self.parts.take_lost()? else {
            return Ok(None);
        };
        let numbers = self.parts.records();
        let datagram = (lost.key, End::Lost(lost.why));
        put_unfinished(
            &mut self.text,
            self.layout,
            &self.host.stack,
            datagram,
            numbers,
        );
        self.losses.count_record(lost.why, numbers);
        Ok(Some(lost.why))
    }

    /// Reports on the unfinished datagram at index `i`: the missing bytes, and the records of its fragments, which
    /// `text` and `records` then return. Returns whether there is such a datagram; if not, nothing changes. Fails if
    /// the host has no memory for the records.
    pub fn report_unfinished(&mut self, i: u32) -> Result<bool, AllocError>
        ensures { IfOk result (λ there. ReportsUnfinished there i self.old self.new) }
    {
        let Some(datagram) = self.host.stack.unfinished(i) else {
            return Ok(false);
        };
        self.parts.gather_of(datagram.key)?;
        put_unfinished(
            &mut self.text,
            self.layout,
            &self.host.stack,
            (datagram.key, End::Left(i)),
            self.parts.records(),
        );
        Ok(true)
    }

    /// Returns the records of the fragments that were gathered for the last report.
    pub fn records(&self) -> &[u64]
        ensures { result.now ≡ self.now.parts.numbers.items }
    {
        self.parts.records()
    }
}
