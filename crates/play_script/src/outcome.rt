//! The reply to a line, with the causes for which packets were dropped.
ghost use Rattle.std.specs.Prelude.{◌≡◌, ◌+◌, ◌*◌, ◌≤◌, ◌++◌, length};
ghost use Rattle.params.specs.declared.TheConstants.{IP_MAX_PACKET};
ghost use Rattle.flat_model.specs.Scripts.Texts.{reply_text};
ghost use Rattle.request.specs.Replies.{len_of, reply_of};
ghost use Rattle.play_script.specs.Outcomes.{cause_text, drops_text, reply_line as reply_line_of};

use flat_model::{Counters, Why};
use play_text::{causes, rose, words_for};
use request::{Reply, TEXT, put_reply};
use script_loop::Buffer;

/// The size of a buffer for all causes at once.
pub const DROPS: usize = 1024;

/// The size of a buffer for the reply to a line.
pub const REPLY_LINE: usize = TEXT + DROPS;

/// Appends a cause, if its counter went up.
fn put_cause(text: &mut Buffer<DROPS>, why: Why, before: &Counters, after: &Counters)
    requires { length text.old + 49 ≤ DROPS }
    ensures items { text.new ≡ text.old ++ cause_text before.now after.now why }
    ensures len { length text.new ≤ length text.old + 49 }
{
    if rose(why.counter(), before, after) {
        text.append(b" dropped ");
        text.append(words_for(why).as_bytes());
    }
}

/// Writes all causes whose counters went up into a buffer.
pub fn put_drops(text: &mut Buffer<DROPS>, before: &Counters, after: &Counters)
    ensures { text.new ≡ drops_text before.now after.now }
{
    text.clear();
    for why in causes() {
        put_cause(text, why, before, after);
    }
}

/// Writes a reply and the causes `drops` into a buffer. `digits` is a buffer for digits.
pub(crate) fn put_reply_line(
    text: &mut Buffer<REPLY_LINE>,
    digits: &mut [u8],
    reply: &Reply<'_>,
    drops: &[u8],
)
    requires fits { len_of reply.now ≤ IP_MAX_PACKET }
    requires digits { length digits.old ≡ 2 * IP_MAX_PACKET }
    requires drops { length drops.now ≤ DROPS }
    ensures { text.new ≡ reply_line_of (reply_text (reply_of reply.now)) drops.now }
{
    text.clear();
    match *reply {
        Reply::Done if !drops.is_empty() => text.append(&drops[1..]),
        _ => {
            put_reply(text, digits, reply);
            text.append(drops);
        }
    }
}
