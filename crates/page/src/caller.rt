//! A stack whose calls are made by the lines of a host: those of `bsdudp run`, and those that set the size of a receive
//! queue.
ghost use Rattle.std.specs.Prelude.{List, ℕ};
ghost use Rattle.flat_model.specs.Machine.State.{State, boot};
ghost use Rattle.flat_model.specs.Machine.Step.{Step};
ghost use Rattle.link_script.specs.Boots.{BootsRun};
ghost use Rattle.net_stack.specs.Stack.{state_of};
ghost use Rattle.script_loop.specs.Serves.{IsServed, Serves};
ghost use Rattle.stack_call.specs.Moves.{StackSteps};
ghost use Rattle.page.specs.Says.{SaysLine};

use link_script::{Caller, Config, RunFault, Sink, Source, booted};
use net_stack::Stack;
use play_script::{limit_of, set_limit};
use request::{TEXT, put_line};
use script_loop::{Answers, Buffer, LineBuffers, serve_script};
use std::alloc::Global;

/// A stack, and the memory for the work on one line. The stack must be consumed by `end`.
struct LineCaller {
    caller: Caller,
}

impl Answers<TEXT> for LineCaller {
    ghost State = { State };

    ghost state = { λ c. state_of c.caller.machine };

    ghost may_answer = { SaysLine StackSteps };

    fn answer(&mut self, line: &[u8], text: &mut Buffer<TEXT>) {
        match limit_of(line) {
            Some((fd, limit)) => {
                let reply = set_limit(&mut self.caller.machine, fd, limit);
                put_line(text, self.caller.buffers.digits.as_mut_slice(), &reply);
            }
            None => self.caller.answer(line, text),
        }
    }
}

/// Serves a script on a stack, and returns the stack after it with the outcome.
pub(crate) fn serve_lines<R: Source, W: Sink>(
    alloc: Global,
    machine: Stack,
    reader: &mut R,
    writer: &mut W,
) -> (Stack, Result<(), RunFault>)
    ensures served { Serves (SaysLine StackSteps) (state_of machine) (state_of result.0)
        (R.remaining reader.old) (R.remaining reader.new) (W.contents writer.old) (W.contents writer.new) result.1 }
    ensures started { IsServed result.1 }
{
    let Ok(buffers) = LineBuffers::new(alloc) else {
        return (machine, Err(RunFault::Memory));
    };
    let mut caller = LineCaller {
        caller: Caller { machine, buffers },
    };
    let outcome = serve_script(alloc, &mut caller, reader, writer);
    let LineCaller {
        caller: Caller {
            machine,
            buffers: _buffers,
        },
    } = caller;
    (machine, outcome)
}

/// Serves a script on a new stack, like `link_script::run`, which lacks the lines that set the size of a receive queue.
#[tactic(auto, unfolding(stack_call::specs::Moves::StackSteps))]
pub(crate) fn run_lines<R: Source, W: Sink>(
    alloc: Global,
    config: Config,
    reader: &mut R,
    writer: &mut W,
) -> Result<(), RunFault>
    ensures booted { BootsRun config result }
    ensures served { (new : State) × Serves (SaysLine Step) (boot config) new
        (R.remaining reader.old) (R.remaining reader.new) (W.contents writer.old) (W.contents writer.new) result }
{
    let machine = booted(alloc, config)?;
    let (machine, outcome) = serve_lines(alloc, machine, reader, writer);
    let _ = machine.end();
    outcome
}
