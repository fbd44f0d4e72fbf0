//! The text of replies.
ghost use Rattle.std.specs.Prelude.{◌≡◌, ◌+◌, ◌*◌, ◌≤◌, ◌++◌, length, Some};
ghost use Rattle.flat_model.specs.Scripts.Texts.{share_text};
ghost use Rattle.params.specs.declared.TheConstants.{IP_MAX_PACKET};
ghost use Rattle.chain_script.specs.Steps.{Shown, chain_reply_text, chain_answer_text, mbuf_text};
ghost use Rattle.chain_script.specs.Inside.Replies.{fault_reply, chain_done_reply, held_reply};

use crate::fault::Fault;
use mbuf_chain::Usage;
use params::MAX_MBUFS;
use script_loop::{Buffer, HELD, put_hex, put_number};

/// The most bytes in the text of one mbuf: two letters, two numbers and a space.
pub(crate) const MBUF_TEXT: usize = 23;

/// The size of the text buffer. It has space for the longest reply after the replies that are kept: the layout of a
/// chain with all mbufs of the largest pool, and the rest of its line.
pub(crate) const TEXT: usize = HELD + MBUF_TEXT * (MAX_MBUFS as usize + 1);

fn put_fault(text: &mut Buffer<TEXT>, fault: Fault)
    requires { length text.old + 8 ≤ TEXT }
    ensures items { text.new ≡ text.old ++ chain_reply_text (fault_reply fault) }
    ensures len { length text.new ≤ length text.old + 8 }
{
    match fault {
        Fault::Chain => text.append(b"? chain"),
        Fault::Range => text.append(b"? range"),
        Fault::Shared => text.append(b"shared"),
        Fault::TooLong => text.append(b"toolong"),
        Fault::TooShort => text.append(b"tooshort"),
        Fault::NoBufs => text.append(b"nobufs"),
    }
}

/// Appends the line for a request without a result of its own.
pub(crate) fn put_done(text: &mut Buffer<TEXT>, outcome: Result<(), Fault>)
    requires { length text.old ≤ HELD }
    ensures { text.new ≡ text.old ++ chain_answer_text (Some (chain_done_reply outcome)) }
{
    match outcome {
        Ok(()) => text.append(b"ok"),
        Err(fault) => put_fault(text, fault),
    }
    text.append(b"\n");
}

/// Appends the line for bytes that were copied out into the buffer.
pub(crate) fn put_held(
    text: &mut Buffer<TEXT>,
    digits: &mut [u8],
    buffer: &[u8],
    outcome: Result<(), Fault>,
)
    requires text { length text.old ≤ HELD }
    requires room { length buffer.now ≤ IP_MAX_PACKET }
    requires digits { length digits.old ≡ 2 * IP_MAX_PACKET }
    ensures { text.new ≡ text.old ++ chain_answer_text (Some (held_reply outcome buffer.now)) }
{
    match outcome {
        Ok(()) => {
            text.append(b"data ");
            put_hex(text, digits, buffer);
        }
        Err(fault) => put_fault(text, fault),
    }
    text.append(b"\n");
}

fn put_share(text: &mut Buffer<TEXT>, free: u32, all: u32)
    requires { length text.old + 21 ≤ TEXT }
    ensures items { text.new ≡ text.old ++ share_text free all }
    ensures len { length text.new ≤ length text.old + 21 }
{
    put_number(text, free);
    text.append(b"/");
    put_number(text, all);
}

/// Appends the line for the usage of a pool.
pub(crate) fn put_usage(text: &mut Buffer<TEXT>, usage: Usage)
    requires { length text.old ≤ HELD }
    ensures { text.new ≡ text.old ++ chain_answer_text (Some (Shown (record {
      free_mbufs = usage.free_mbufs;
      mbufs = usage.mbufs;
      free_clusters = usage.free_clusters;
      clusters = usage.clusters;
      refs = usage.references;
      most = usage.greatest_count;
    }))) }
{
    text.append(b"mbufs ");
    put_share(text, usage.free_mbufs, usage.mbufs);
    text.append(b" clusters ");
    put_share(text, usage.free_clusters, usage.clusters);
    text.append(b" refs ");
    put_number(text, usage.references);
    text.append(b" most ");
    put_number(text, usage.greatest_count);
    text.append(b"\n");
}

/// Appends an mbuf of a layout: its length, and the reference count of its cluster if it has one.
pub(crate) fn put_mbuf(text: &mut Buffer<TEXT>, len: u32, count: Option<u32>)
    requires { length text.old + MBUF_TEXT ≤ TEXT }
    ensures items { text.new ≡ text.old ++ mbuf_text len count }
    ensures len { length text.new ≤ length text.old + MBUF_TEXT }
{
    match count {
        None => {
            text.append(b" P");
            put_number(text, len);
        }
        Some(count) => {
            text.append(b" C");
            put_number(text, len);
            text.append(b"x");
            put_number(text, count);
        }
    }
}
