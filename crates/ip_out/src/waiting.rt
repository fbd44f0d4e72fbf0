//! A packet in the output queue, read in place.
ghost use Rattle.std.specs.Prelude.{◌≡◌, ◌<◌, ◌≤◌, drop, length, take, option_map, IfNone, IfSome};
ghost use Rattle.std.specs.List.{concat};
ghost use Rattle.mbuf_chain.specs.Train.{IsHeld, IsQueuedPlace};
ghost use Rattle.ip_out.specs.Packets.{train_packets};
ghost use Rattle.ip_out.specs.Questions.{nth_packet};

use mbuf_chain::{Pieces, Pool, QueuedPlace, Train};

/// Returns the place of the packet at index `i`.
fn place_at(pool: &Pool, train: &Train, i: u32) -> QueuedPlace
    requires within { i < train.now.len }
    requires held { IsHeld pool.now train.now }
    ensures index { result.index ≡ i }
    ensures place { IsQueuedPlace pool.now train.now result }
{
    let mut at = match train.first(pool) {
        Some(first) => first,
        None => unreachable!(),
    };
    'packets: for _passed in 0..i {
        at = match train.next(pool, at) {
            Some(next) => next,
            None => unreachable!(),
        };
    }
    at
}

/// Copies the bytes of all mbufs to the front of `buffer`, in which they must fit, and returns their number.
fn copy_all(pieces: Pieces<'_>, buffer: &mut [u8]) -> usize
    requires { length (concat pieces) ≤ length buffer.old }
    ensures copied { take result buffer.new ≡ concat pieces.entry }
    ensures within { result ≤ length buffer.new }
    ensures rest { drop result buffer.new ≡ drop result buffer.old }
{
    let mut at = 0;
    'mbufs: for piece in pieces {
        let end = at + piece.len();
        buffer[at..end].copy_from_slice(piece);
        at = end;
    }
    at
}

/// Copies the packet at index `i`: see `Queue::packet`.
pub(crate) fn copy_packet(pool: &Pool, train: &Train, i: u32, buffer: &mut [u8]) -> Option<usize>
    requires held { IsHeld pool.now train.now }
    requires fits { IfSome (nth_packet i (train_packets pool.now train.now)) (λ p. length p ≤ length buffer.old) }
    ensures packet { option_map (λ n. take n buffer.new) result ≡ nth_packet i (train_packets pool.now train.now) }
    ensures within { IfSome result (λ n. n ≤ length buffer.new) }
    ensures same { IfNone result (buffer.new ≡ buffer.old) }
    ensures rest { IfSome result (λ n. drop n buffer.new ≡ drop n buffer.old) }
{
    if i >= train.len() {
        return None;
    }
    let at = place_at(pool, train, i);
    Some(copy_all(train.pieces_at(pool, at), buffer))
}
