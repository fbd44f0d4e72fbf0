//! The runs that programs call.
ghost use Rattle.std.specs.Prelude.{◌≡◌, MatchResult};
ghost use Rattle.flat_model.specs.Machine.State.{State, IsConfig, boot};
ghost use Rattle.flat_model.specs.Machine.Step.{Step};
ghost use Rattle.script_loop.specs.Streams.{MoreBy, reader_failures, writer_failures};
ghost use Rattle.link_script.specs.Says.{SaysBy};
ghost use Rattle.link_script.specs.Boots.{BootsRun, IsRunUnbooted, refused_as};
ghost use Rattle.net_stack.specs.Stack.{state_of};
ghost use Rattle.stack_call.specs.Moves.{StackSteps};
ghost use Rattle.script_loop.specs.Serves.{Serves, IsServed};

use crate::caller::Caller;
use flat_model::Config;
use net_stack::{BootFault, Stack};
use script_loop::{LineBuffers, RunFault, Sink, Source, serve_script};
use std::alloc::Global;

/// Returns the fault of a run whose stack didn't boot.
fn refusal_of(fault: BootFault) -> RunFault
    ensures { result ≡ refused_as fault }
{
    match fault {
        BootFault::Memory => RunFault::Memory,
        BootFault::BadSizes => RunFault::BadSizes,
        BootFault::BadConfig => RunFault::BadConfig,
    }
}

/// Boots a stack.
pub fn booted(alloc: Global, config: Config) -> Result<Stack, RunFault>
    ensures { MatchResult result (λ s. IsConfig config × (state_of s ≡ boot config)) (IsRunUnbooted config) }
{
    match Stack::boot(alloc, config) {
        Ok(stack) => Ok(stack),
        Err(fault) => Err(refusal_of(fault)),
    }
}

/// Serves a script on a stack, and consumes the stack.
fn serve_stack<R: Source, W: Sink>(
    alloc: Global,
    machine: Stack,
    reader: &mut R,
    writer: &mut W,
) -> Result<(), RunFault>
    ensures read { MoreBy (reader_failures result) (R.failures reader.old) (R.failures reader.new) }
    ensures wrote { MoreBy (writer_failures result) (W.failures writer.old) (W.failures writer.new) }
    ensures served { (new : State) × Serves (SaysBy StackSteps) (state_of machine) new
        (R.remaining reader.old) (R.remaining reader.new) (W.contents writer.old) (W.contents writer.new) result }
    ensures started { IsServed result }
{
    let Ok(buffers) = LineBuffers::new(alloc) else {
        let _ = machine.end();
        return Err(RunFault::Memory);
    };
    let mut caller = Caller { machine, buffers };
    let outcome = serve_script(alloc, &mut caller, reader, writer);
    let Caller {
        machine,
        buffers: _buffers,
    } = caller;
    let _ = machine.end();
    outcome
}

/// Serves a script on a new stack: each line that requests a call gets the stack's reply, and every other line gets `?
/// line`. The stack is consumed.
///
/// Each line gets its reply when its end has been read. If the input ends within a line, that counts as a line too.
/// Memory is allocated only before the first read.
///
/// # Errors
///
/// `BadSizes` if `config` has no mbuf, more than 65,535 mbufs or more than 4,096 clusters. Otherwise `BadConfig` if its
/// MTU isn't 68 to 4352, an address isn't a host address, or both addresses are equal. Otherwise `Memory` if the host
/// refuses memory. Nothing was read or written then.
///
/// `Read` if the reader returns an error: each whole line before it got its reply. `Write` if the writer returns an
/// error, or accepts none of the bytes: a prefix of the replies was written. `TooManyLines` at a byte after the
/// 10,000,000th line, or one that makes a line longer than 1,048,576 bytes: each whole line before it got its reply.
#[tactic(auto, unfolding(stack_call::specs::Moves::StackSteps))]
pub fn run<R: Source, W: Sink>(
    alloc: Global,
    config: Config,
    reader: &mut R,
    writer: &mut W,
) -> Result<(), RunFault>
    ensures booted { BootsRun config result }
    // The reader failed once if the fault is `Read`, and the writer if it is `Write`; otherwise neither failed.
    ensures read { MoreBy (reader_failures result) (R.failures reader.old) (R.failures reader.new) }
    ensures wrote { MoreBy (writer_failures result) (W.failures writer.old) (W.failures writer.new) }
    // The output is exactly what the machine with exact accounts prints from boot for the lines that were read.
    ensures served { (new : State) × Serves (SaysBy Step) (boot config) new
        (R.remaining reader.old) (R.remaining reader.new) (W.contents writer.old) (W.contents writer.new) result }
{
    let machine = booted(alloc, config)?;
    serve_stack(alloc, machine, reader, writer)
}
