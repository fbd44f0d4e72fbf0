//! Performing an action, and reporting its reply.
ghost use Rattle.std.specs.Prelude.{◌≡◌, ◌≤◌, length, true};
ghost use Rattle.flat_model.specs.Scripts.Texts.{reply_text};
ghost use Rattle.net_stack.specs.Stack.{state_of};
ghost use Rattle.params.specs.declared.TheConstants.{IP_MAX_PACKET};
ghost use Rattle.play_script.specs.Actions.{Does};
ghost use Rattle.play_script.specs.Inside as inside;
ghost use Rattle.play_script.specs.Inside.{events_of, most_of};
ghost use Rattle.play_script.specs.Outcomes.{drops_between, reply_line};
ghost use Rattle.request.specs.Replies.{len_of, reply_of};
ghost use Rattle.stack_call.specs.Moves.{StackSteps};

use crate::action::{Action, is_still_action, moved_by, perform};
use crate::report::Report;
use net_stack::Stack;
use play_show::snapshot_of;
use request::Reply;

/// Does the same as `act` for an action that changes neither a counter nor the pool nor a queue: without snapshots.
fn act_still<'r>(
    stack: &mut Stack,
    action: Action<'_>,
    buffer: &'r mut [u8],
    report: &mut Report,
) -> Reply<'r>
    requires still { inside.is_still_action action ≡ true }
    requires fits { most_of action ≤ IP_MAX_PACKET }
    requires buffer { length buffer.old ≡ IP_MAX_PACKET }
    ensures does { Does StackSteps (state_of stack.old) (events_of action.entry) (reply_of result)
        (state_of stack.new) }
    ensures len { len_of result ≤ IP_MAX_PACKET }
    ensures reply_line { report.new.reply_line ≡ reply_line (reply_text (reply_of result)) (drops_between
        (state_of stack.old) (state_of stack.new)) }
    ensures quiet { report.new.quiet ≡ report.old.quiet }
{
    let reply = perform(stack, action, buffer);
    report.set_still(&reply);
    reply
}

/// Does the same as `act`, with a snapshot before the action and one after it.
fn act_moving<'r>(
    stack: &mut Stack,
    action: Action<'_>,
    buffer: &'r mut [u8],
    report: &mut Report,
) -> Reply<'r>
    requires fits { most_of action ≤ IP_MAX_PACKET }
    requires buffer { length buffer.old ≡ IP_MAX_PACKET }
    ensures does { Does StackSteps (state_of stack.old) (events_of action.entry) (reply_of result)
        (state_of stack.new) }
    ensures len { len_of result ≤ IP_MAX_PACKET }
    ensures reply_line { report.new.reply_line ≡ reply_line (reply_text (reply_of result)) (drops_between
        (state_of stack.old) (state_of stack.new)) }
    ensures quiet { report.new.quiet ≡ report.old.quiet }
{
    let before = snapshot_of(stack);
    let reply = perform(stack, action, buffer);
    let after = snapshot_of(stack);
    let moved = moved_by(&action, &reply);
    report.set_below(stack, moved, (&before, &after));
    report.set_reply(&before.counters, &after.counters, &reply);
    reply
}

/// Performs an action, and reports its reply with the lines below it. The bytes of the reply are in `buffer`.
pub fn act<'r>(
    stack: &mut Stack,
    action: Action<'_>,
    buffer: &'r mut [u8],
    report: &mut Report,
) -> Reply<'r>
    requires fits { most_of action ≤ IP_MAX_PACKET }
    requires buffer { length buffer.old ≡ IP_MAX_PACKET }
    ensures does { Does StackSteps (state_of stack.old) (events_of action.entry) (reply_of result)
        (state_of stack.new) }
    ensures len { len_of result ≤ IP_MAX_PACKET }
    ensures reply_line { report.new.reply_line ≡ reply_line (reply_text (reply_of result)) (drops_between
        (state_of stack.old) (state_of stack.new)) }
    ensures quiet { report.new.quiet ≡ report.old.quiet }
{
    if is_still_action(&action) {
        act_still(stack, action, buffer, report)
    } else {
        act_moving(stack, action, buffer, report)
    }
}
