//! The text of replies.
ghost use Rattle.std.specs.Prelude.{◌≡◌, ◌+◌, ◌*◌, ◌≤◌, ◌<◌, ◌++◌, length, Some, codes, decimal};
ghost use Rattle.params.specs.declared.TheConstants.{IP_MAX_PACKET, LONGEST_REQUEST};
ghost use Rattle.flat_model.specs.Machine.Count.{counter_name};
ghost use Rattle.flat_model.specs.Machine.Event.{Received, Given};
ghost use Rattle.flat_model.specs.Scripts.Texts.{refusal_text, lack_text, reply_text, answer_text, count, count_text, counters_text, usage_text, share_text};
ghost use Rattle.request.specs.Replies.{reply_of, len_of};

use crate::address::put_address;
use crate::reply::Reply;
use flat_model::{Addr, Counter, Counters, Errno, Mbstat};
use params::LONGEST_REQUEST;
use script_loop::{Buffer, HELD, put_hex, put_number};

/// The size of a text buffer, with space for the longest reply line after the replies that are kept.
pub const TEXT: usize = HELD + LONGEST_REQUEST as usize;

/// Appends what was lacking, after the name of an error.
fn put_lack<const N: usize>(text: &mut Buffer<N>, errno: Errno)
    requires { length text.old + 6 ≤ N }
    ensures items { text.new ≡ text.old ++ lack_text errno }
    ensures len { length text.new ≤ length text.old + 6 }
{
    if let Errno::NoBufs(lack) = errno {
        text.append(b" ");
        text.append(lack.name().as_bytes());
    }
}

fn put_refusal<const N: usize>(text: &mut Buffer<N>, errno: Errno)
    requires { length text.old + 40 ≤ N }
    ensures items { text.new ≡ text.old ++ refusal_text errno }
    ensures len { length text.new ≤ length text.old + 40 }
{
    text.append(b"error ");
    put_number(text, u32::from(errno.number()));
    text.append(b" ");
    text.append(errno.name().as_bytes());
    put_lack(text, errno);
}

/// Appends the digits of a number to the text, at most twenty. There must be space for twenty.
pub fn put_long<const N: usize>(text: &mut Buffer<N>, n: u64)
    requires { length text.old + 20 ≤ N }
    ensures items { text.new ≡ text.old ++ decimal n }
    ensures len { length text.new ≤ length text.old + 20 }
{
    let mut digits = itoa::Buffer::new();
    text.append(digits.format(n).as_bytes());
}

/// Appends a counter to the text, if it isn't 0.
fn put_count<const N: usize>(text: &mut Buffer<N>, counter: Counter, value: u64)
    requires { length text.old + 37 ≤ N }
    ensures items { text.new ≡ text.old ++ count_text (count (counter_name counter) value) }
    ensures len { length text.new ≤ length text.old + 37 }
{
    if value == 0 {
        return;
    }
    text.append(b" ");
    text.append(counter.name().as_bytes());
    text.append(b"=");
    put_long(text, value);
}

/// Appends the counters that aren't 0, in the order in which they are printed.
fn put_counters<const N: usize>(text: &mut Buffer<N>, counters: &Counters)
    requires { length text.old + 1000 ≤ N }
    ensures items { text.new ≡ text.old ++ counters_text counters.now }
    ensures len { length text.new ≤ length text.old + 1000 }
{
    text.append(b"stat");
    for counter in Counter::all() {
        put_count(text, counter, counters.value(counter));
    }
}

/// Appends the free share of a total to the text.
fn put_share<const N: usize>(text: &mut Buffer<N>, free: u32, all: u32)
    requires { length text.old + 21 ≤ N }
    ensures items { text.new ≡ text.old ++ share_text free all }
    ensures len { length text.new ≤ length text.old + 21 }
{
    put_number(text, free);
    text.append(b"/");
    put_number(text, all);
}

/// Appends the usage of the pool.
fn put_usage<const N: usize>(text: &mut Buffer<N>, usage: Mbstat)
    requires { length text.old + 100 ≤ N }
    ensures items { text.new ≡ text.old ++ usage_text usage }
    ensures len { length text.new ≤ length text.old + 100 }
{
    text.append(b"mbufs ");
    put_share(text, usage.free_mbufs, usage.mbufs);
    text.append(b" clusters ");
    put_share(text, usage.free_clusters, usage.clusters);
    text.append(b" refs ");
    put_number(text, usage.refs);
    text.append(b" most ");
    put_number(text, usage.most);
}

/// Appends the bytes that were received, and their sender.
fn put_received<const N: usize>(text: &mut Buffer<N>, digits: &mut [u8], sender: Addr, bytes: &[u8])
    requires text { length text.old + LONGEST_REQUEST ≤ N }
    requires bytes { length bytes.now ≤ IP_MAX_PACKET }
    requires digits { length digits.old ≡ 2 * IP_MAX_PACKET }
    ensures items { text.new ≡ text.old ++ reply_text (Received sender bytes.now) }
    ensures len { length text.new < length text.old + LONGEST_REQUEST }
{
    text.append(b"from ");
    put_address(text, sender.ip);
    text.append(b" ");
    put_number(text, u32::from(sender.port));
    text.append(b" ");
    put_hex(text, digits, bytes);
}

/// Appends the packet that the link takes.
fn put_given<const N: usize>(text: &mut Buffer<N>, digits: &mut [u8], packet: &[u8])
    requires text { length text.old + LONGEST_REQUEST ≤ N }
    requires bytes { length packet.now ≤ IP_MAX_PACKET }
    requires digits { length digits.old ≡ 2 * IP_MAX_PACKET }
    ensures items { text.new ≡ text.old ++ reply_text (Given (Some packet.now)) }
    ensures len { length text.new < length text.old + LONGEST_REQUEST }
{
    text.append(b"packet ");
    put_hex(text, digits, packet);
}

/// Appends `ok` and a number.
fn put_ok<const N: usize>(text: &mut Buffer<N>, n: u64)
    requires { length text.old + LONGEST_REQUEST ≤ N }
    ensures items { text.new ≡ text.old ++ codes "ok " ++ decimal n }
    ensures len { length text.new < length text.old + LONGEST_REQUEST }
{
    text.append(b"ok ");
    put_long(text, n);
}

/// Appends the text of a reply to the text. `digits` is scratch memory, and its contents are lost.
pub fn put_reply<const N: usize>(text: &mut Buffer<N>, digits: &mut [u8], reply: &Reply<'_>)
    requires text { length text.old + LONGEST_REQUEST ≤ N }
    requires fits { len_of reply.now ≤ IP_MAX_PACKET }
    requires digits { length digits.old ≡ 2 * IP_MAX_PACKET }
    ensures items { text.new ≡ text.old ++ reply_text (reply_of reply.now) }
    ensures len { length text.new < length text.old + LONGEST_REQUEST }
{
    match *reply {
        Reply::Done => text.append(b"ok"),
        Reply::Opened(fd) => put_ok(text, u64::from(fd)),
        Reply::Sent(n) => put_ok(text, n as u64),
        Reply::Received(sender, bytes) => put_received(text, digits, sender, bytes),
        Reply::Given(Some(packet)) => put_given(text, digits, packet),
        Reply::Given(None) => text.append(b"none"),
        Reply::Counted(counters) => put_counters(text, &counters),
        Reply::Shown(usage) => put_usage(text, usage),
        Reply::Refused(errno) => put_refusal(text, errno),
    }
}

/// Appends the line for a reply to the text. `digits` is scratch memory, and its contents are lost.
pub fn put_line<const N: usize>(text: &mut Buffer<N>, digits: &mut [u8], reply: &Reply<'_>)
    requires text { length text.old + LONGEST_REQUEST ≤ N }
    requires fits { len_of reply.now ≤ IP_MAX_PACKET }
    requires digits { length digits.old ≡ 2 * IP_MAX_PACKET }
    ensures { text.new ≡ text.old ++ answer_text (Some (reply_of reply.now)) }
{
    put_reply(text, digits, reply);
    text.append(b"\n");
}
