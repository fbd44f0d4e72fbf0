//! The run that programs call.
ghost use Rattle.script_loop.specs.Serves.{Serves};
ghost use Rattle.script_loop.specs.Streams.{MoreBy, reader_failures, writer_failures};
ghost use Rattle.chain_script.specs.Boots.{BootsChains};
ghost use Rattle.chain_script.specs.Machines.{Machine, booted};
ghost use Rattle.chain_script.specs.Steps.{Says};

use crate::caller::Caller;
use mbuf_pool::{BootFault, Sizes};
use script_loop::{RunFault, Sink, Source, serve_script};
use std::alloc::Global;

/// Serves a script of calls on chains of a new pool, whose 64 slots are empty.
///
/// Each line gets its reply when its end has been read. If the input ends within a line, that counts as a line too.
/// Memory is allocated only before the first read. At the end all chains and all memory are freed, whatever the
/// outcome.
///
/// # Errors
///
/// `BadSizes` if there are no mbufs, more than 65,535 mbufs or more than 4,096 clusters, which is tested first;
/// otherwise `Memory` if the host refuses memory. Nothing was read or written then.
///
/// `Read` if the reader returns an error: each whole line before it got its reply. `Write` if the writer returns an
/// error, or accepts none of the bytes: a prefix of the replies was written. `TooManyLines` at a byte after the
/// 10,000,000th line, or one that makes a line longer than 1,048,576 bytes: each whole line before it got its reply.
pub fn run_chains<R: Source, W: Sink>(
    alloc: Global,
    sizes: Sizes,
    reader: &mut R,
    writer: &mut W,
) -> Result<(), RunFault>
    ensures booted { BootsChains sizes result }
    // The reader failed once if the fault is `Read`, and the writer if it is `Write`; otherwise neither failed.
    ensures read { MoreBy (reader_failures result) (R.failures reader.old) (R.failures reader.new) }
    ensures wrote { MoreBy (writer_failures result) (W.failures writer.old) (W.failures writer.new) }
    // The output is exactly what the machine of slots prints for the lines that were read, from boot.
    ensures served { (new : Machine) × Serves Says (booted sizes.mbufs sizes.clusters) new
        (R.remaining reader.old) (R.remaining reader.new) (W.contents writer.old) (W.contents writer.new) result }
{
    match Caller::boot(alloc, sizes) {
        Ok(mut caller) => {
            let outcome = serve_script(alloc, &mut caller, reader, writer);
            let _pool = caller.end();
            outcome
        }
        Err(BootFault::BadSizes) => Err(RunFault::BadSizes),
        Err(BootFault::Memory) => Err(RunFault::Memory),
    }
}
