//! A snapshot of a machine, from which later changes are found.
ghost use Rattle.std.specs.Prelude.{◌≡◌};
ghost use Rattle.sock_calls.specs.Questions.{next_datagram};
ghost use Rattle.play_show.specs.Changes.{IsSnapshot, IsWaiting, waiting_of};
ghost use Rattle.stack_call.specs.Moves.{StackSteps};
ghost use Rattle.net_stack.specs.Stack.{state_of};

use flat_model::{Counters, Mbstat};
use net_stack::Stack;
use params::{FIRST_DESCRIPTOR, MAX_SOCKETS};

/// How many sockets there can be.
pub(crate) const SOCKETS: usize = MAX_SOCKETS as usize;

/// A snapshot of a machine.
#[derive(Clone, Copy)]
pub struct Snapshot {
    /// The counters since boot.
    pub counters: Counters,
    /// How much of the pool is in use.
    pub usage: Mbstat,
    /// How many packets wait for the link.
    pub output: u32,
    /// How many datagrams wait in each socket, that of descriptor 3 first; 0 for a descriptor that isn't open.
    pub waiting: [u32; SOCKETS],
}

/// Returns how many datagrams wait in a descriptor's socket.
fn waiting_in(machine: &Stack, fd: u32) -> u32
    ensures { result ≡ waiting_of (next_datagram fd (state_of machine.now)) }
{
    match machine.next_datagram(fd) {
        Ok(next) => next.waiting,
        Err(_) => 0,
    }
}

/// Returns how many datagrams wait in each descriptor's socket.
fn waiting_in_all(machine: &Stack) -> [u32; SOCKETS]
    ensures { IsWaiting (state_of machine.now) result }
{
    let mut waiting = [0; SOCKETS];
    // After most lines none waits, and this test takes less time than the loop.
    if machine.readable() != 0 {
        'places: for place in 0..SOCKETS {
            waiting[place] = waiting_in(machine, FIRST_DESCRIPTOR + place as u32);
        }
    }
    waiting
}

/// Takes a snapshot of a machine, which isn't changed. Takes a step for each of the 64 descriptors, and one for each
/// cluster.
#[tactic(auto, unfolding(stack_call::specs::Moves::StackSteps))]
pub fn snapshot_of(machine: &Stack) -> Snapshot
    ensures { IsSnapshot StackSteps (state_of machine.now) result }
{
    Snapshot {
        counters: machine.counters(),
        usage: machine.mbstat(),
        output: machine.output_len(),
        waiting: waiting_in_all(machine),
    }
}
