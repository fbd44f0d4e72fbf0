//! Reads the oldest datagram of a socket, and leaves it in the queue.
ghost use Rattle.std.specs.Prelude.{◌≡◌, ◌≤◌, drop, length, take, IfOk, OnErr};
ghost use Rattle.flat_model.specs.Machine.Event.{Receive};
ghost use Rattle.flat_model.specs.Machine.Replies.{received_reply, FitsRoom};
ghost use Rattle.flat_model.specs.Machine.State.{State};
ghost use Rattle.sock_calls.specs.Sockets.{IsSocks, with_sockets};
ghost use Rattle.net_stack.specs.Questions.{WouldReply, bytes_in_mbufs};

use flat_model::{Addr, Errno};
use mbuf_chain::{MbufHeads, Pool};
use sock_calls::Socks;

/// Copies the first bytes of mbufs, as many as `to` has.
fn copy_mbufs(mbufs: MbufHeads<'_>, to: &mut [u8])
    requires { length to.old ≤ length (bytes_in_mbufs mbufs) }
    ensures { to.new ≡ take (length to.old) (bytes_in_mbufs mbufs.entry) }
{
    let mut at = 0;
    'mbufs: for mbuf in mbufs {
        let bytes = mbuf.1;
        let end = at + bytes.len().min(to.len() - at);
        to[at..end].copy_from_slice(&bytes[..end - at]);
        at = end;
    }
}

/// Copies the first bytes of the oldest datagram of a socket to the front of `buffer`. Returns its sender and how many
/// bytes these are, or why `recvfrom` would fail.
pub(crate) fn copy_oldest(
    pool: &Pool,
    socks: &Socks,
    fd: u32,
    buffer: &mut [u8],
) -> Result<(Addr, usize), Errno>
    requires { IsSocks pool.now socks.now }
    ensures reply { (rest : State) → WouldReply (with_sockets pool.now socks.now rest)
        (Receive fd (length buffer.old)) (received_reply result buffer.new) }
    ensures fits { FitsRoom result buffer.new }
    ensures same { OnErr result (buffer.new ≡ buffer.old) }
    ensures rest { IfOk result (λ got. drop got.1 buffer.new ≡ drop got.1 buffer.old) }
{
    let next = match socks.next_datagram(pool, fd) {
        Ok(next) => next,
        Err(errno) => return Err(errno),
    };
    let len = (next.len as usize).min(buffer.len());
    pool.laws();
    if let Some(mut mbufs) = socks.heads(pool, fd, 0) {
        // the sender's address
        let _ = mbufs.next();
        copy_mbufs(mbufs, &mut buffer[..len]);
    }
    Ok((next.sender, len))
}
