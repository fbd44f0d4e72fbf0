//! A fragment put among those of its datagram, and the datagram removed when it's whole.
ghost use Rattle.std.specs.Prelude.{◌≡◌, ◌+◌, ◌<◌, ◌≤◌, ◌∷◌, ◌++◌, [], true, count_by, get_or, length, remove, vec_capacity, vec_len};
ghost use Rattle.flat_model.specs.Machine.State.{State, is_key};
ghost use Rattle.flat_model.specs.Amounts.Weight.{Weight};
ghost use Rattle.flat_model.specs.Machine.Ledger.{exact_ledger};
ghost use Rattle.flat_model.specs.Machine.Arrival.{InsertsAs};
ghost use Rattle.flat_model.specs.Machine.Fate.{told};
ghost use Rattle.flat_model.specs.declared.fate.Fate.{Fate};
ghost use Rattle.flat_model.specs.declared.counters.Why.TheVariants.{FragmentDropped};
ghost use Rattle.ip_reass.specs.Arrivals.{ArrivalMoves, GoesOn, HasWhole, key_in, with_waiting};
ghost use Rattle.ip_reass.specs.Fragments.{fragment_of, fragments, map_of};
ghost use Rattle.ip_reass.specs.Layouts.{HasCause, LeavesAt, queues};
ghost use Rattle.ip_reass.specs.Table.{IsTable, unfinished, unfinished_of};
ghost use Rattle.ip_reass.specs.Inside.Place.{CanInsertAt};
ghost use Rattle.ip_reass.specs.Inside.Walks.{ReportsWhole, arrived, is_left};
ghost use Rattle.ip_reass.specs.Inside.Steps.{InsertsIn, TakesOut, datagram_at};

use crate::arrival::Arrival;
use crate::datagram::Datagram;
use crate::queue::{Insertion, insert, join_all};
use crate::span::Span;
use flat_model::{Counter, Counters, Why};
use ip_out::IpHead;
use mbuf_chain::{Chain, Pool};
use params::IP_HEADER;

/// Puts a fragment among those of the datagram at a place.
#[inline(always)]
pub(crate) fn insert_in(
    pool: &mut Pool,
    table: &mut [Datagram],
    i: usize,
    chain: Chain,
    span: Span,
) -> Insertion
    requires { CanInsertAt pool.old table.old i chain span.offset }
    ensures inserts { InsertsIn pool.old table.old i chain (arrived pool.old chain span.offset span.more)
        (is_left result) pool.new table.new }
    ensures whole { ReportsWhole (map_of (fragments pool.new (datagram_at table.new i).fragments)) result }
{
    let datagram = &mut table[i];
    insert(pool, datagram, chain, span)
}

/// Moves a row to the end of the table. Those after it move down by one.
// Not inlined: usually it's the last already. `Vec::remove`, whose loop for many rows is unrolled, took 4 KB of code.
#[inline(never)]
fn bring_to_end(rows: &mut [Datagram], i: usize)
    requires { i < length rows.old }
    ensures { (d : Datagram) → rows.new ≡ remove rows.old i ++ get_or rows.old i d ∷ [] }
{
    let mut k = i;
    'rows: while k + 1 < rows.len() {
        rows.swap(k, k + 1);
        k += 1;
    }
}

/// Removes a row from the table. Those after it move down by one.
#[inline(always)]
fn take_row(table: &mut Vec<Datagram>, i: usize) -> Datagram
    requires { i < length table.old.items }
    ensures value { result ≡ get_or table.old.items i result }
    ensures items { table.new.items ≡ remove table.old.items i }
    ensures len { vec_len table.new ≤ vec_len table.old }
    ensures capacity { vec_capacity table.new ≡ vec_capacity table.old }
{
    bring_to_end(table.as_mut_slice(), i);
    match table.pop() {
        Some(row) => row,
        None => unreachable!(),
    }
}

/// Removes a datagram from the table, frees its key's mbuf and joins its fragments.
#[inline(never)]
pub(crate) fn take_out(pool: &mut Pool, table: &mut Vec<Datagram>, i: usize) -> Chain
    requires table { IsTable pool.old table.old.items }
    requires place { i < length table.old.items }
    requires some { 0 < (datagram_at table.old.items i).fragments.len }
    ensures takes { TakesOut pool.old table.old.items i result pool.new table.new.items }
    ensures len { vec_len table.new ≤ vec_len table.old }
    ensures capacity { vec_capacity table.new ≡ vec_capacity table.old }
{
    let Datagram {
        key: _,
        holder,
        ticks: _,
        fragments,
        bytes: _,
    } = take_row(table, i);
    pool.free_chain(holder);
    join_all(pool, fragments)
}

/// A fragment that arrived, without its IP header, and the fields of that header.
pub(crate) struct Fragment {
    pub(crate) chain: Chain,
    pub(crate) head: IpHead,
}

/// Puts a fragment among those of the datagram at a place, and counts. If the datagram is then whole, it's removed.
#[inline(always)]
pub(crate) fn insert_and_count(
    pool: &mut Pool,
    table: &mut Vec<Datagram>,
    counters: &mut Counters,
    i: usize,
    fragment: Fragment,
) -> Arrival
    requires { CanInsertAt pool.old table.old.items i fragment.chain fragment.head.offset }
    ensures step { (fate : Fate) (rest : State) (held : Weight) (new : State) →
        is_key (key_in fragment.head) (unfinished_of pool.old (datagram_at table.old.items i)) ≡ true →
        count_by (is_key (key_in fragment.head)) (unfinished pool.old table.old.items) ≤ 1 →
        GoesOn (told fate) held pool.new result (with_waiting pool.new table.new.items counters.new rest) new →
        InsertsAs exact_ledger (told fate) held (key_in fragment.head)
        (fragment_of (arrived pool.old fragment.chain fragment.head.offset fragment.head.more))
        (unfinished_of pool.old (datagram_at table.old.items i))
        (with_waiting pool.old table.old.items counters.old rest) new }
    ensures whole { HasWhole pool.new fragment.head result }
    ensures layout { LeavesAt i (arrived pool.old fragment.chain fragment.head.offset fragment.head.more)
        (queues pool.old table.old.items)
        pool.new result (queues pool.new table.new.items) }
    ensures cause { HasCause FragmentDropped result }
    ensures table { IsTable pool.new table.new.items }
    ensures moves { ArrivalMoves pool.old (fragment.chain ∷ []) table.old.items result pool.new table.new.items }
    ensures len { vec_len table.new ≤ vec_len table.old }
    ensures capacity { vec_capacity table.new ≡ vec_capacity table.old }
{
    let Fragment { chain, head } = fragment;
    let span = Span {
        offset: head.offset,
        more: head.more,
    };
    let len = match insert_in(pool, table.as_mut_slice(), i, chain, span) {
        Insertion::Covered => {
            counters.count_ended(Why::FragmentDropped);
            return Arrival::Dropped(Why::FragmentDropped);
        }
        Insertion::Waits => return Arrival::Kept,
        Insertion::Whole(len) => len,
    };
    pool.laws();
    let chain = take_out(pool, table, i);
    counters.count(Counter::IpReassembled);
    Arrival::Whole(
        chain,
        IpHead {
            total: (IP_HEADER + len) as u16,
            more: false,
            offset: 0,
            ..head
        },
    )
}
