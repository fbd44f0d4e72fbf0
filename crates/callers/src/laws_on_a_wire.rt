//! Two stacks on a wire that loses, repeats and exchanges packets, and the laws of their runs.
ghost use Rattle.std.specs.Prelude.{◌≡◌, ◌≤◌, ◌∷◌, [], length, take, true, Contains, IfOk, IfSome, All, List, None, Some, ℕ, ◌<◌};
ghost use Rattle.flat_model.specs.Machine.Event.{Reply};
ghost use Rattle.flat_model.specs.Machine.Replies.{received_reply, given_reply};
ghost use Rattle.net_stack.specs.Runs.{AreCalls};
ghost use Rattle.callers.specs.Received.{HasGiven, IsReceivedInOrder, packet_comes, receives, send_event};
ghost use Rattle.params.specs.declared.TheConstants.{IP_MAX_PACKET, MAX_MTU};
ghost use Rattle.flat_model.specs.Machine.State.{Datagram, Socket, Unfinished};
ghost use Rattle.flat_model.specs.declared.config.Config.{Config};
ghost use Rattle.flat_ether.specs.Ever.{PassedAct, acts_passed};
ghost use Rattle.flat_ether.specs.Hosts.{Host, HostAct};
ghost use Rattle.flat_ether.specs.Laws.{WasSentOnEthernet};
ghost use Rattle.flat_ether.specs.declared.link.Link.{Link};
ghost use Rattle.net_stack.specs.Stack.{state_of};
ghost use Rattle.flat_model.specs.Machine.Event.{Given, Transmit};
ghost use Rattle.flat_model.specs.Machine.Step.{Step};
ghost use Rattle.callers.specs.Parts.{HasSocket, IsDatagramPassed, IsFresh, IsUnchanged};
ghost use Rattle.callers.specs.Rounds.{AreRounds, IsIdle, IsOneOfBoth, IsRound};
ghost use Rattle.callers.specs.Runs.{AreFirstGiven, AreOnPacedEthernet, AreTwoParts, IsAccountedFor, IsReceivedUnlessLacking};

use flat_ether::hosts_on_an_ethernet_for_ever;
use flat_model::{Addr, Config, Counter, Counters, Errno, Fate, states_are_consistent};
use flat_wire::{age_law, conservation_law, pace_law, progress_law, queue_law};
use net_stack::{BootFault, Stack, calls_are_run, stacks_on_a_wire, stacks_on_a_wire_for_ever};
use params::MAX_MTU;
use std::alloc::Global;

/// The host 10.0.0.1, which sends.
pub const FIRST: Config = Config {
    addr: 0x0a00_0001,
    bcast: 0x0a00_00ff,
    mtu: 1500,
    mbufs: 64,
    clusters: 8,
    first_id: 1,
};

/// The host 10.0.0.2, which receives.
pub const SECOND: Config = Config {
    addr: 0x0a00_0002,
    bcast: 0x0a00_00ff,
    mtu: 1500,
    mbufs: 64,
    clusters: 8,
    first_id: 1,
};

/// The first descriptor of each host.
pub const SOCKET: u32 = 3;

/// The port at which the second host receives.
pub const PORT: u16 = 7;

/// The size of a buffer for a packet of any link.
const ROOM: usize = MAX_MTU as usize;

/// What `receive_out_of_order` returns.
#[derive(Drop)]
pub struct Received {
    /// How many sends the first host has counted. Below 65,536 no two had the same identification.
    pub sends: u64,
    /// The result of the second host's `recvfrom`: the sender, and how many bytes it put at the front of `buffer`.
    pub answer: Result<(Addr, usize), Errno>,
}

/// Sends a datagram to the second host, whatever the result is.
fn send(stack: &mut Stack, bytes: &[u8])
    ensures { (reply : Reply) × AreCalls stack.old
        (record { event = send_event bytes.now; reply = reply } ∷ []) stack.new }
{
    let to = Addr {
        ip: SECOND.addr,
        port: PORT,
    };
    let _ = stack.sendto(SOCKET, Some(to), bytes);
}

/// Takes the packet that waits for the link, and returns how many bytes it has, or 0 if none waits.
fn give(stack: &mut Stack, buffer: &mut [u8]) -> usize
    requires { MAX_MTU ≤ length buffer.old }
    ensures given { HasGiven stack.old stack.new (take result buffer.new) }
    ensures fits { result ≤ length buffer.new }
    ensures len { length buffer.new ≡ length buffer.old }
{
    stack.laws();
    match stack.tx(buffer) {
        Some(len) => len,
        None => 0,
    }
}

/// Passes a packet to a stack.
fn hand_over(stack: &mut Stack, packet: &[u8])
    requires { length packet.now ≤ IP_MAX_PACKET }
    ensures { AreCalls stack.old (packet_comes packet.now ∷ []) stack.new }
{
    stack.rx(packet);
}

/// Boots two hosts on one wire. The first sends three datagrams to the second, which receives at port 7. The wire loses
/// the packet of the first datagram, delivers that of the third before that of the second, and then that of the third
/// again. Then a datagram is requested from the second host, and its bytes go to the front of `buffer`.
///
/// # Errors
///
/// `Memory` if the host memory for one of them can't be allocated.
pub fn receive_out_of_order(
    alloc: Global,
    lost: &[u8],
    late: &[u8],
    early: &[u8],
    buffer: &mut [u8],
) -> Result<Received, BootFault>
    ensures { IfOk result (λ received. IsReceivedInOrder lost.now late.now early.now (length buffer.old) received.sends
        (received_reply received.answer buffer.new)) }
{
    let mut first = Stack::boot(alloc, FIRST)?;
    let Ok(mut second) = Stack::boot(alloc, SECOND) else {
        let _ = first.end();
        return Err(BootFault::Memory);
    };
    let _ = first.socket();
    send(&mut first, lost);
    send(&mut first, late);
    send(&mut first, early);
    let mut late_packet = [0; ROOM];
    let mut early_packet = [0; ROOM];
    let _ = give(&mut first, &mut late_packet);
    let late_len = give(&mut first, &mut late_packet);
    let early_len = give(&mut first, &mut early_packet);
    let _ = second.socket();
    let _ = second.bind(SOCKET, Addr { ip: 0, port: PORT });
    hand_over(&mut second, &early_packet[..early_len]);
    hand_over(&mut second, &late_packet[..late_len]);
    hand_over(&mut second, &early_packet[..early_len]);
    let answer = second.recvfrom(SOCKET, buffer);
    let sends = first.counters().value(Counter::IpLocalout);
    calls_are_run();
    stacks_on_a_wire();
    stacks_on_a_wire_for_ever();
    let _ = first.end();
    let _ = second.end();
    Ok(Received { sends, answer })
}

/// What `account_for` returns.
#[derive(Drop)]
pub struct Accounted {
    /// The fate of the packet.
    pub fate: Fate,
    /// The counters after it.
    pub counters: Counters,
}

/// Boots a host that receives at port 7, and passes it a packet. Each counter of a cause then has what the packet's
/// place counts, and the place agrees with its fate: `conservation_law`.
///
/// # Errors
///
/// `Memory` if the host memory can't be allocated.
pub fn account_for(alloc: Global, packet: &[u8]) -> Result<Accounted, BootFault>
    requires { length packet.now ≤ IP_MAX_PACKET }
    ensures { IfOk result (λ r. IsAccountedFor r.fate r.counters) }
{
    let mut stack = Stack::boot(alloc, FIRST)?;
    let _ = stack.socket();
    let _ = stack.bind(SOCKET, Addr { ip: 0, port: PORT });
    let fate = stack.rx_told(packet);
    let counters = stack.counters();
    states_are_consistent();
    conservation_law();
    let _ = stack.end();
    Ok(Accounted { fate, counters })
}

/// Takes a packet for the link, passes the stack another one, and takes a packet again. If both times one waited, these
/// are the first two packets that waited before the call: `queue_law`.
pub fn take_two(
    stack: &mut Stack,
    one: &mut [u8],
    packet: &[u8],
    two: &mut [u8],
) -> (Option<usize>, Option<usize>)
    requires room { MAX_MTU ≤ length one.old }
    requires more_room { MAX_MTU ≤ length two.old }
    requires packet { length packet.now ≤ IP_MAX_PACKET }
    ensures { AreFirstGiven (state_of stack.old).output (given_reply result.0 one.new) (given_reply result.1 two.new) }
{
    stack.laws();
    let first = stack.tx(one);
    stack.rx(packet);
    stack.laws();
    let second = stack.tx(two);
    queue_law();
    (first, second)
}

/// Boots a host, passes it a packet, and ticks its clock once. A datagram that is unfinished then is kept for 59 more
/// ticks: `age_law`.
///
/// # Errors
///
/// `Memory` if the host memory can't be allocated.
pub fn one_tick_later(alloc: Global, packet: &[u8]) -> Result<Stack, BootFault>
    requires { length packet.now ≤ IP_MAX_PACKET }
    ensures { IfOk result (λ s. All (λ (u : Unfinished). u.ticks ≡ 59) (state_of s).unfinished) }
{
    let mut stack = Stack::boot(alloc, FIRST)?;
    stack.rx(packet);
    stack.tick();
    calls_are_run();
    age_law();
    Ok(stack)
}

/// Passes a stack the two fragments of a datagram for it, the second one first. Unless buffers lacked, the datagram is
/// then in the queue of the socket that matches, or was counted: `progress_law`.
pub fn pass_both(stack: &mut Stack, first: &[u8], second: &[u8])
    requires parts { AreTwoParts (state_of stack.old) first.now second.now }
    requires first { length first.now ≤ IP_MAX_PACKET }
    requires second { length second.now ≤ IP_MAX_PACKET }
    ensures { IsReceivedUnlessLacking first.now second.now (state_of stack.old) (state_of stack.new) }
{
    stack.rx(second);
    stack.rx(first);
    progress_law();
}

/// Returns whether no packet waits for the link; if one does, it's taken.
fn is_drained(stack: &mut Stack) -> bool
    ensures { result ≡ true → Step (state_of stack.old) Transmit (Given None) (state_of stack.new) }
{
    let mut rest = [0; ROOM];
    stack.laws();
    match stack.tx(&mut rest) {
        Some(_) => false,
        None => true,
    }
}

/// Returns whether a counter is the same, and hasn't stopped.
fn is_unchanged(counter: Counter, before: &Counters, after: &Counters) -> bool
    ensures { result ≡ true → IsUnchanged counter before.now after.now }
{
    let count = after.value(counter);
    count == before.value(counter) && count < u64::MAX
}

/// Sends a datagram from the first host, and passes its packets to the second, the later one first. Returns whether
/// they were two and no buffers lacked.
fn pass_parts(first: &mut Stack, second: &mut Stack, bytes: &[u8]) -> bool
    requires first { HasSocket first.old }
    requires second { IsFresh second.old }
    ensures { result ≡ true → IsDatagramPassed bytes.now }
{
    let mut one = [0; ROOM];
    let mut two = [0; ROOM];
    send(first, bytes);
    let one_len = give(first, &mut one);
    let two_len = give(first, &mut two);
    if !is_drained(first) {
        return false;
    }
    if one_len < 16 || two_len < 16 {
        return false;
    }
    let before = second.counters();
    second.laws();
    pass_both(second, &one[..one_len], &two[..two_len]);
    let after = second.counters();
    if !is_unchanged(Counter::IpReclaimed, &before, &after) {
        return false;
    }
    is_unchanged(Counter::Nobufs, &before, &after)
}

/// Boots two hosts, and sends a datagram of two packets from the first to the second, which gets the later one first.
/// Returns whether they were two and no buffers lacked. Then one of the two arrivals completed the datagram: the socket
/// that matches has it, or it was counted, by `pass_both`.
///
/// # Errors
///
/// `Memory` if the host memory for one of them can't be allocated.
pub fn deliver_parts(alloc: Global, bytes: &[u8]) -> Result<bool, BootFault>
    ensures { IfOk result (λ done. done ≡ true → IsDatagramPassed bytes.now) }
{
    let mut first = Stack::boot(alloc, FIRST)?;
    let Ok(mut second) = Stack::boot(alloc, SECOND) else {
        let _ = first.end();
        return Err(BootFault::Memory);
    };
    let _ = second.socket();
    let _ = second.bind(SOCKET, Addr { ip: 0, port: PORT });
    let done = match first.socket() {
        Ok(_) => pass_parts(&mut first, &mut second, bytes),
        Err(_) => false,
    };
    let _ = first.end();
    let _ = second.end();
    Ok(done)
}

/// Reads a datagram, if one waits.
fn read(stack: &mut Stack, buffer: &mut [u8])
    ensures { (most : ℕ) × (reply : Reply) × AreCalls stack.old (receives most reply ∷ []) stack.new }
{
    let _ = stack.recvfrom(SOCKET, buffer);
}

/// One round. The second host reads a datagram, if one waits. The first sends `bytes`, and two of its packets go to the
/// second, the later one first. Then the second's clock ticks. Returns whether nothing waits for the link.
fn round(first: &mut Stack, second: &mut Stack, bytes: &[u8]) -> bool
    requires { IsIdle first.old }
    ensures { result ≡ true → IsRound bytes.now first.old second.old first.new second.new }
{
    let mut late = [0; ROOM];
    let mut early = [0; ROOM];
    read(second, &mut late);
    send(first, bytes);
    let late_len = give(first, &mut late);
    let early_len = give(first, &mut early);
    hand_over(second, &early[..early_len]);
    hand_over(second, &late[..late_len]);
    second.tick();
    queue_law();
    is_drained(first)
}

/// Rounds with one datagram and the other in turn. Returns whether each datagram was one or two packets.
fn all_rounds(first: &mut Stack, second: &mut Stack, rounds: u64, one: &[u8], other: &[u8]) -> bool
    requires { IsIdle first.old }
    ensures { result ≡ true → AreRounds one.now other.now first.old second.old first.new second.new }
{
    for _ in 0..rounds {
        if !round(first, second, one) {
            return false;
        }
        if !round(first, second, other) {
            return false;
        }
    }
    true
}

/// Boots two hosts on one wire, and sends two datagrams in turn from the first to the second, `rounds` times each, with
/// the same 65,536 identifications again and again. The wire exchanges the fragments of each. Returns the reply of the
/// second's last `recvfrom`, or `None` if a datagram was more than two packets.
///
/// What is received with the first's address is the front of one of the two, and never a mixture, for any number of
/// rounds. The second's clock ticks once a round, so at most 60 sends lie between two fragments that can meet:
/// `pace_law` and `stacks_on_a_wire_for_ever`.
///
/// # Errors
///
/// `Memory` if the host memory for one of them can't be allocated.
pub fn send_in_turn(
    alloc: Global,
    rounds: u64,
    one: &[u8],
    other: &[u8],
    buffer: &mut [u8],
) -> Result<Option<Result<(Addr, usize), Errno>>, BootFault>
    ensures { IfOk result (λ done. IfSome done (λ answer. IfOk answer (λ got. got.0.ip ≡ FIRST.addr
        → IsOneOfBoth one.now other.now (length buffer.old) (take got.1 buffer.new)))) }
{
    let mut first = Stack::boot(alloc, FIRST)?;
    let Ok(mut second) = Stack::boot(alloc, SECOND) else {
        let _ = first.end();
        return Err(BootFault::Memory);
    };
    let _ = first.socket();
    let _ = second.socket();
    let _ = second.bind(SOCKET, Addr { ip: 0, port: PORT });
    let done = all_rounds(&mut first, &mut second, rounds, one, other);
    let answer = second.recvfrom(SOCKET, buffer);
    pace_law();
    stacks_on_a_wire_for_ever();
    let _ = first.end();
    let _ = second.end();
    if done { Ok(Some(answer)) } else { Ok(None) }
}

/// Two hosts on an Ethernet, of which the first paces its sends: the most sends in the life of a packet, and the most
/// in 60 of the second's ticks, are together at most 65,536. Then what waits in the second's queues was sent, for ever:
/// by `pace_law` and `hosts_on_an_ethernet_for_ever`.
pub fn paced_hosts()
    ensures { (c d : Config) (l m : Link) (sent : List PassedAct) (came : List HostAct) (s t : Host) (born made : ℕ → ℕ)
        (life pace : ℕ) (socket : Socket) (datagram : Datagram)
        → AreOnPacedEthernet c d l m sent came s t born made life pace → Contains t.machine.sockets socket
        → Contains socket.queue datagram → datagram.sender.ip ≡ c.addr
        → WasSentOnEthernet c d l (acts_passed sent) s socket datagram }
{
    pace_law();
    hosts_on_an_ethernet_for_ever();
}
