//! The mbufs of a stack after a script.
ghost use Rattle.std.specs.Prelude.{IfOk, IfSome, Some};
ghost use Rattle.flat_model.specs.Machine.State.{State, boot};
ghost use Rattle.flat_model.specs.Machine.Step.{Step};
ghost use Rattle.chain_script.specs.Drawings.{served};
ghost use Rattle.link_script.specs.Boots.{BootsRun};
ghost use Rattle.net_stack.specs.Stack.{state_of};
ghost use Rattle.script_loop.specs.Serves.{Serves};
ghost use Rattle.page.specs.Pictured.{IsStateText, Pictured};
ghost use Rattle.page.specs.Says.{SaysLine};
ghost use Rattle.page.specs.Served.{machine_config};

use crate::caller::serve_lines;
use crate::handed::{hand_over, number_of};
use crate::mbufs::put_state;
use crate::settings::PageMachine;
use link_script::{Config, RunFault, Sink, Source, booted};
use net_stack::Stack;
use std::alloc::{AllocError, Global};

/// Returns the text of a stack; `AllocError` if the host refuses memory for it.
fn picture_of(alloc: Global, stack: &Stack) -> Result<Vec<u8>, AllocError>
    ensures { IfOk result (λ text. IsStateText (state_of stack.now) text.items) }
{
    stack.laws();
    let mut text = Vec::new(alloc);
    put_state(&mut text, stack)?;
    Ok(text)
}

/// Serves a script on a new stack, like `run_lines`. Returns the text of the stack's final state, or `None` if the host
/// refuses memory for it.
#[tactic(auto, unfolding(stack_call::specs::Moves::StackSteps))]
fn picture<R: Source, W: Sink>(
    alloc: Global,
    config: Config,
    reader: &mut R,
    writer: &mut W,
) -> Result<Option<Vec<u8>>, RunFault>
    ensures booted { BootsRun config (served result) }
    ensures drawn { (new : State) × Serves (SaysLine Step) (boot config) new
        (R.remaining reader.old) (R.remaining reader.new) (W.contents writer.old) (W.contents writer.new)
        (served result) × IfOk result (λ text. IfSome text (λ bytes. IsStateText new bytes.items)) }
{
    let machine = booted(alloc, config)?;
    let (machine, outcome) = serve_lines(alloc, machine, reader, writer);
    let text = picture_of(alloc, &machine);
    let _ = machine.end();
    match outcome {
        Ok(()) => Ok(text.ok()),
        Err(fault) => Err(fault),
    }
}

/// Serves a script as `bsdudp_page_run` does, discards the replies, and returns the mbufs that the machine holds in its
/// final state, as JSON objects, one per line: `uint32_t bsdudp_page_state(const struct page_machine *, const
/// uint8_t *script, size_t, uint8_t *room, size_t, size_t *len)`.
///
/// A holder precedes its mbufs, chain by chain. An open socket has its descriptor (`socket`, with `cc`, `mbcnt`,
/// `limit` and `first`), the output queue its length (`output`, with `last` and `first`), and an unfinished datagram
/// the mbuf of its key (`unfinished`, with `id`, `source`, `ticks` and the `first` of its fragments). An mbuf has its
/// number (`mbuf`), `next`, `nextpkt`, `len`, `data`, `pkthdr`, `rcvif`, `cluster`, and its first 32 bytes (`bytes`).
/// Links are mbuf numbers. The last lines are the clusters that mbufs refer to, each with its `references`.
///
/// Returns the outcome's number: 0 if all lines got a reply, otherwise that of the fault. The lines are returned in the
/// way replies are. If there are no lines, `len` is 0 and the buffer is unchanged.
///
/// The faults: those of `bsdudp_page_run`. `Memory` also occurs if the host refuses memory for the lines.
#[unsafe(no_mangle)]
pub extern "C" fn bsdudp_page_state(
    alloc: Global,
    machine: &PageMachine,
    script: &[u8],
    buffer: &mut [u8],
    len: &mut usize,
) -> u32
    ensures pictured { Pictured (machine_config machine.now) script.now result len.new buffer.old buffer.new }
{
    let mut reader = script;
    let mut replies = Vec::new(alloc);
    match picture(alloc, machine.config(), &mut reader, &mut replies) {
        Ok(Some(text)) => {
            *len = hand_over(text.as_slice(), buffer);
            number_of(Ok(()))
        }
        Ok(None) => {
            *len = 0;
            number_of(Err(RunFault::Memory))
        }
        Err(fault) => {
            *len = 0;
            number_of(Err(fault))
        }
    }
}
