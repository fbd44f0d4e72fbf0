//! Copies the oldest packet of the output queue out.
ghost use Rattle.std.specs.Prelude.{◌≡◌, ◌≤◌, drop, length, IfNone, IfSome};
ghost use Rattle.flat_model.specs.Machine.Replies.{given_reply};
ghost use Rattle.ip_out.specs.Queues.{IsOutputQueue};
ghost use Rattle.net_stack.specs.Inside.Transmit.{AreWithin, IsGiven};

use chain_ops::m_copydata;
use ip_out::Queue;
use mbuf_chain::Pool;

/// Removes the oldest packet, copies its bytes to the front of `buffer`, and frees its buffers. Returns its length;
/// `None` if the queue is empty. The rest of `buffer` is unchanged. Each queued packet must fit into `buffer`.
pub(crate) fn take_packet(pool: &mut Pool, out: &mut Queue, buffer: &mut [u8]) -> Option<usize>
    requires queue { IsOutputQueue pool.old out.old }
    requires within { AreWithin pool.old out.old (length buffer.old) }
    ensures given { IsGiven pool.old out.old (given_reply result buffer.new) pool.new out.new }
    ensures fits { IfSome result (λ n. n ≤ length buffer.new) }
    ensures same { IfNone result (buffer.new ≡ buffer.old) }
    ensures rest { IfSome result (λ n. drop n buffer.new ≡ drop n buffer.old) }
{
    let packet = out.pop(pool)?;
    let len = pool.len(&packet) as usize;
    m_copydata(pool, &packet, 0, &mut buffer[..len]);
    pool.free_chain(packet);
    Some(len)
}
