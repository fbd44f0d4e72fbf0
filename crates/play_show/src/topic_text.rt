//! The text of a query.
use crate::SHOWN;
use crate::counters::{put_counters, put_pool};
use crate::sockets::{put_queue, put_sockets};
use crate::topic::Topic;
use crate::unfinished::put_unfinished;
use flat_model::Counter;
use net_stack::Stack;
use play_text::Piece::Amount;
use play_text::add;
use script_loop::Buffer;

/// Writes the text of a query: the reply, of a few words, into `reply`, and the lines below it, each with its newline,
/// into `below`. These are one line for each open socket, ordered by descriptor; one for each of the first 32
/// unfinished datagrams, oldest first, with the first 16 ranges of its bytes; one for each counter, in the order of
/// [`Counter::all`](flat_model::Counter::all); none for the output queue and the pool. The old contents of the buffers
/// are lost. The machine isn't changed. Takes a step for each of the 64 descriptors, and for the pool one for each
/// cluster.
pub fn write_topic(
    machine: &Stack,
    topic: Topic,
    reply: &mut Buffer<SHOWN>,
    below: &mut Buffer<SHOWN>,
) {
    reply.clear();
    below.clear();
    match topic {
        Topic::Sockets => {
            let count = put_sockets(machine, below);
            add(reply, &[Amount(count, b"socket")]);
        }
        Topic::Unfinished => {
            put_unfinished(machine, below);
            add(
                reply,
                &[Amount(machine.unfinished_len(), b"unfinished datagram")],
            );
        }
        Topic::Queue => put_queue(reply, machine.output_len(), machine.next_packet()),
        Topic::Counters => {
            put_counters(below, &machine.counters());
            add(reply, &[Amount(Counter::all().len() as u32, b"counter")]);
        }
        Topic::Pool => put_pool(reply, machine.mbstat()),
    }
}
