//! The reply to a line, and the lines below it.
ghost use Rattle.std.specs.Prelude.{◌≡◌, ◌*◌, ◌≤◌, IfOk, [], codes, length, vec_len};
ghost use Rattle.flat_model.specs.Scripts.Texts.{reply_text};
ghost use Rattle.params.specs.declared.TheConstants.{IP_MAX_PACKET};
ghost use Rattle.play_script.specs.Outcomes.{drops_text, reply_line};
ghost use Rattle.play_script.specs.Views.{plain_line};
ghost use Rattle.request.specs.Replies.{len_of, reply_of};

use crate::line::Line;
use crate::outcome::{DROPS, REPLY_LINE, put_drops, put_reply_line};
use flat_model::Counters;
use net_stack::Stack;
use play_forms::{ADVICE, Player, advice_on, put_advice};
use play_packet::PACKET;
use play_show::{SHOWN, Topic, write_topic};
use request::Reply;
use script_loop::Buffer;
use std::alloc::{AllocError, Global};

/// Returns the bytes of a buffer.
pub fn bytes_of<const N: usize>(buffer: &Buffer<N>) -> &[u8]
    ensures is { result.now ≡ buffer.now }
    ensures most { length result.now ≤ N }
{
    let len = buffer.len();
    &buffer.as_slice()[..len]
}

/// Allocates this many zero bytes.
pub fn zero_bytes(alloc: Global, len: usize) -> Result<Vec<u8>, AllocError>
    ensures { IfOk result (λ buffer. vec_len buffer ≡ len) }
{
    vec![in alloc; 0; len]
}

/// The reply to a line and the lines below it, with the memory for them.
#[derive(Drop)]
pub struct Report {
    /// Whether there are no lines below the reply.
    pub quiet: bool,
    /// The reply, and why packets were dropped.
    pub reply_line: Buffer<REPLY_LINE>,
    /// The lines below it.
    pub below: Buffer<SHOWN>,
    pub(crate) drops: Buffer<DROPS>,
    /// What the author of a line without a request probably meant, or why a line does nothing.
    pub advice: Buffer<ADVICE>,
    /// A buffer for the reply to a query.
    shown: Buffer<SHOWN>,
    /// A buffer for the digits of a reply, and for a packet that is printed.
    pub(crate) digits: Vec<u8>,
    ghost digits_len: { vec_len digits ≡ 2 * IP_MAX_PACKET },
}

impl Report {
    /// Allocates the memory for a report; there is no reply yet.
    pub fn new(alloc: Global, quiet: bool) -> Result<Report, AllocError>
        ensures { IfOk result (λ r. (r.quiet ≡ quiet) × (r.reply_line ≡ []) × (r.below ≡ [])) }
    {
        let (Ok(reply_line), Ok(below), Ok(drops), Ok(advice), Ok(shown), Ok(digits)) = (
            Buffer::new(alloc),
            Buffer::new(alloc),
            Buffer::new(alloc),
            Buffer::new(alloc),
            Buffer::new(alloc),
            zero_bytes(alloc, 2 * PACKET),
        ) else {
            return Err(AllocError);
        };
        Ok(Report {
            quiet,
            reply_line,
            below,
            drops,
            advice,
            shown,
            digits,
        })
    }

    /// Sets the reply `ok`, with no lines below it.
    pub fn set_ok(&mut self)
        ensures reply_line { self.new.reply_line ≡ codes "ok" }
        ensures below { self.new.below ≡ [] }
        ensures quiet { self.new.quiet ≡ self.old.quiet }
    {
        self.reply_line.clear();
        self.reply_line.append(b"ok");
        self.below.clear();
    }

    /// Sets the advice on a line that isn't a request to this player. Its words are replaced by its plain line.
    pub fn set_advice(&mut self, player: Player, line: &mut Line)
        ensures below { self.new.below ≡ self.old.below }
        ensures quiet { self.new.quiet ≡ self.old.quiet }
        ensures line { line.new ≡ record (line.old) { words = plain_line line.old } }
    {
        line.write_number(self.digits.as_mut_slice());
        put_advice(&mut self.advice, &advice_on(player, bytes_of(&line.words)));
    }

    /// Sets the reply to a query about a stack, and the lines below it.
    pub fn set_topic(&mut self, stack: &Stack, topic: Topic)
        ensures { self.new.quiet ≡ self.old.quiet }
    {
        write_topic(stack, topic, &mut self.shown, &mut self.below);
        self.reply_line.clear();
        self.reply_line.append(bytes_of(&self.shown));
    }

    /// Sets the reply, with the causes for which packets were dropped, by the counters before and after.
    pub fn set_reply(&mut self, before: &Counters, after: &Counters, reply: &Reply<'_>)
        requires { len_of reply.now ≤ IP_MAX_PACKET }
        ensures reply_line { self.new.reply_line ≡ reply_line (reply_text (reply_of reply.now)) (drops_text before.now
            after.now) }
        ensures quiet { self.new.quiet ≡ self.old.quiet }
    {
        put_drops(&mut self.drops, before, after);
        put_reply_line(
            &mut self.reply_line,
            self.digits.as_mut_slice(),
            reply,
            bytes_of(&self.drops),
        );
    }
    /// Sets the reply to a call for which no packet can be dropped, with no lines below it.
    pub(crate) fn set_still(&mut self, reply: &Reply<'_>)
        requires { len_of reply.now ≤ IP_MAX_PACKET }
        ensures reply_line { self.new.reply_line ≡ reply_line (reply_text (reply_of reply.now)) [] }
        ensures quiet { self.new.quiet ≡ self.old.quiet }
    {
        self.below.clear();
        put_reply_line(&mut self.reply_line, self.digits.as_mut_slice(), reply, b"");
    }
}
