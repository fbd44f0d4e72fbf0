//! What changed between two snapshots of a machine.
ghost use Rattle.std.specs.Prelude.{◌≡◌, ◌<◌, get_or, length, nat_lt};
ghost use Rattle.params.specs.declared.TheConstants.{MAX_MTU, MAX_SOCKETS};
ghost use Rattle.play_show.specs.Changes as changes;

use crate::SHOWN;
use crate::snapshot::{SOCKETS, Snapshot};
use flat_model::{Counter, Counters};
use net_stack::Stack;
use params::FIRST_DESCRIPTOR;
use play_text::Piece::{Amount, Long, Number, Text};
use play_text::{CAUSES, Fate, add, add_fate, add_packet, drops_between, fate_of};
use script_loop::Buffer;

/// The most packets of a send that are printed; if there are more, only their number is printed.
const MOST_SENT: u32 = 16;

/// How the number of free buffers changed.
#[derive(Clone, Copy, Debug, PartialEq, Eq)]
pub enum Change {
    /// The number is the same.
    Same,
    /// This many were taken from the pool.
    Taken(u32),
    /// This many were returned to the pool.
    Given(u32),
}

/// The effect of an event on a machine, by snapshots before and after it.
#[derive(Clone, Copy)]
pub struct Effect {
    /// The causes for which packets were dropped, in the order of [`play_text::causes`].
    pub drops: [bool; CAUSES],
    /// What happened to a packet's fragment.
    pub fate: Fate,
    /// Whether a datagram was delivered to each socket, that of descriptor 3 first.
    pub delivered: [bool; SOCKETS],
    /// How many packets waited for the link before.
    pub first_sent: u32,
    /// How many packets were added to the output queue.
    pub sent: u32,
    /// How many unfinished datagrams were dropped after their 60 ticks.
    pub timed_out: u64,
    /// How many unfinished datagrams were dropped because their buffers were reclaimed.
    pub reclaimed: u64,
    /// How many mbufs were taken from the pool or returned to it.
    pub mbufs: Change,
    /// How many clusters were taken from the pool or returned to it.
    pub clusters: Change,
}

/// Returns by how much a counter went up.
fn risen(counter: Counter, before: &Counters, after: &Counters) -> u64
    ensures { result ≡ changes.risen counter before.now after.now }
{
    after.value(counter).saturating_sub(before.value(counter))
}

/// Returns how the number of free buffers changed.
fn change_of(before: u32, after: u32) -> Change
    ensures { result ≡ changes.change_of before after }
{
    if after < before {
        Change::Taken(before - after)
    } else if before < after {
        Change::Given(after - before)
    } else {
        Change::Same
    }
}

/// Returns whether more datagrams wait in a socket than before.
fn is_delivered(before: &Snapshot, after: &Snapshot, place: usize) -> bool
    requires { place < MAX_SOCKETS }
    ensures { result ≡ nat_lt (get_or before.now.waiting place 0) (get_or after.now.waiting place 0) }
{
    before.waiting[place] < after.waiting[place]
}

/// Returns in which sockets more datagrams wait than before.
fn delivered_between(before: &Snapshot, after: &Snapshot) -> [bool; SOCKETS]
    ensures { changes.AreDelivered before.now after.now result }
{
    let mut delivered = [false; SOCKETS];
    'places: for place in 0..SOCKETS {
        delivered[place] = is_delivered(before, after, place);
    }
    delivered
}

/// Compares two snapshots of a machine, taken before and after an event.
pub fn effect_of(before: &Snapshot, after: &Snapshot) -> Effect
    ensures { changes.IsEffect before.now after.now result }
{
    let (old, new) = (&before.counters, &after.counters);
    Effect {
        drops: drops_between(old, new),
        fate: fate_of(old, new),
        delivered: delivered_between(before, after),
        first_sent: before.output,
        sent: after.output.saturating_sub(before.output),
        timed_out: risen(Counter::IpFragtimeout, old, new),
        reclaimed: risen(Counter::IpReclaimed, old, new),
        mbufs: change_of(before.usage.free_mbufs, after.usage.free_mbufs),
        clusters: change_of(before.usage.free_clusters, after.usage.free_clusters),
    }
}

/// Appends what a packet's headers say, as a line.
fn add_line(text: &mut Buffer<SHOWN>, packet: &[u8]) {
    add(text, &[Text(b"    ")]);
    add_packet(text, packet);
    add(text, &[Text(b"\n")]);
}

/// Appends a line for each socket to which a datagram was delivered.
fn put_delivered(text: &mut Buffer<SHOWN>, delivered: &[bool; SOCKETS]) {
    for place in 0..SOCKETS {
        if delivered[place] {
            let fd = FIRST_DESCRIPTOR + place as u32;
            add(
                text,
                &[Text(b"    delivered to socket "), Number(fd), Text(b"\n")],
            );
        }
    }
}

/// Appends lines if packets were sent: how many, and the first of them, which are read from the machine.
fn put_sent(text: &mut Buffer<SHOWN>, machine: &Stack, first: u32, all: u32, buffer: &mut [u8])
    requires { length buffer.old ≡ MAX_MTU }
{
    if all == 0 {
        return;
    }
    machine.laws();
    add(
        text,
        &[Text(b"    sent as "), Amount(all, b"packet"), Text(b"\n")],
    );
    for i in first..first.saturating_add(all.min(MOST_SENT)) {
        if let Some(len) = machine.output_packet(i, buffer) {
            add_line(text, &buffer[..len]);
        }
    }
    if MOST_SENT < all {
        let more = all - MOST_SENT;
        add(text, &[Text(b"    and "), Number(more), Text(b" more\n")]);
    }
}

/// Appends a line if unfinished datagrams were dropped.
fn put_lost(text: &mut Buffer<SHOWN>, count: u64, what: &[u8]) {
    if count != 0 {
        add(
            text,
            &[
                Text(b"    unfinished datagrams "),
                Text(what),
                Text(b": "),
                Long(count),
                Text(b"\n"),
            ],
        );
    }
}

/// Appends a line if mbufs or clusters were taken or returned.
fn put_change(text: &mut Buffer<SHOWN>, change: Change, what: &[u8]) {
    let front = Text(b"    ");
    match change {
        Change::Same => {}
        Change::Taken(n) => add(text, &[front, Amount(n, what), Text(b" taken\n")]),
        Change::Given(n) => add(text, &[front, Amount(n, what), Text(b" given back\n")]),
    }
}

/// Writes what an event changed into a buffer, by the snapshots of the machine before and after it; `packet` is the one
/// that arrived or left. Each of these is a line with its line feed: the packet's headers; what
/// happened to its fragment; each socket to which a datagram was delivered; the number of packets that were sent, and
/// the headers of the first 16, which are read from the machine; the number of unfinished datagrams that were dropped;
/// and the numbers of mbufs and clusters taken or returned. What didn't change has no line. The old contents of the
/// buffer are lost. The packets are copied into `buffer`, which has 4,352 bytes.
pub fn put_changes(
    text: &mut Buffer<SHOWN>,
    packet: Option<&[u8]>,
    looks: (&Snapshot, &Snapshot),
    machine: &Stack,
    buffer: &mut [u8],
)
    requires { length buffer.old ≡ MAX_MTU }
{
    let (before, after) = looks;
    let it = effect_of(before, after);
    text.clear();
    if let Some(packet) = packet {
        add_line(text, packet);
        add_fate(text, packet, it.fate);
    }
    put_delivered(text, &it.delivered);
    put_sent(text, machine, it.first_sent, it.sent, buffer);
    put_lost(text, it.timed_out, b"timed out");
    put_lost(text, it.reclaimed, b"dropped for their buffers");
    put_change(text, it.mbufs, b"mbuf");
    put_change(text, it.clusters, b"cluster");
}
