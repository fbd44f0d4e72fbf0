//! The program: its command line, its exit statuses and its texts.
ghost use Rattle.std.specs.Prelude.{◌≡◌, Result, Err, map, MatchResult};
ghost use Rattle.std.specs.String.{string_bytes};
ghost use Rattle.link_script.specs.Options.{IsAskedBy};
ghost use Rattle.link_script.specs.Program.{defaults, status_of, IsWordsFault, Served, Ran};

use crate::options::{Task, read_words};
use crate::runs::run;
use chain_script::run_chains;
use flat_model::Config;
use script_loop::{RunFault, Sink, Source};
use std::alloc::Global;
use std::io::{self, Write};
use thiserror::Error;

/// The default configuration.
pub const DEFAULTS: Config = Config {
    addr: 0x0a00_0001,
    bcast: 0x0a00_00ff,
    mtu: 1500,
    mbufs: 512,
    clusters: 64,
    first_id: 1,
};

/// Why the program ends with a status other than 0.
#[derive(Clone, Copy, Debug, PartialEq, Eq, Error)]
pub enum Failure {
    /// The words aren't a command.
    #[error("usage")]
    Usage,
    /// The machine didn't boot, or its script wasn't served to its end.
    #[error(transparent)]
    Run(RunFault),
}

impl Failure {
    /// Returns the program's exit status: 2 if the words aren't a command, 3 if the machine didn't boot, 4 if reading
    /// or writing failed or the script has too many lines (this project's own).
    pub fn status(self) -> u8
        ensures { result ≡ status_of (Err self) }
    {
        match self {
            Failure::Usage => 2,
            Failure::Run(RunFault::Memory | RunFault::BadSizes | RunFault::BadConfig) => 3,
            Failure::Run(RunFault::Read | RunFault::Write | RunFault::TooManyLines) => 4,
        }
    }
}

/// Returns why there are no words: memory was lacking, or a word isn't UTF-8.
fn words_fault(error: &io::Error) -> Failure
    ensures { IsWordsFault (λ c. ⊥) result }
{
    if error.kind() == io::ErrorKind::OutOfMemory {
        Failure::Run(RunFault::Memory)
    } else {
        Failure::Usage
    }
}

/// Returns the task of the words, if there are words.
fn task_named(alloc: Global, words: &io::Result<Vec<String>>) -> Result<Task, Failure>
    ensures { MatchResult result (IsAskedBy (λ all. map string_bytes all.items) defaults words.now)
        (IsWordsFault (IsAskedBy (λ all. map string_bytes all.items) defaults words.now)) }
{
    match words {
        Ok(words) => read_words(alloc, words.as_slice()),
        Err(error) => Err(words_fault(error)),
    }
}

/// Serves the script of a task.
fn serve_task<R: Source, W: Sink>(
    alloc: Global,
    task: Task,
    reader: &mut R,
    writer: &mut W,
) -> Result<(), RunFault>
    ensures { Served task (R.remaining reader.old) (R.remaining reader.new)
        (W.contents writer.old) (W.contents writer.new) result }
{
    match task {
        Task::Run(config) => run(alloc, config, reader, writer),
        Task::Chain(sizes) => run_chains(alloc, sizes, reader, writer),
    }
}

fn serve<R: Source, W: Sink>(
    alloc: Global,
    words: &io::Result<Vec<String>>,
    reader: &mut R,
    writer: &mut W,
) -> Result<(), Failure>
    ensures { Ran (IsAskedBy (λ all. map string_bytes all.items) defaults words.now)
        (R.remaining reader.old) (R.remaining reader.new) (W.contents writer.old) (W.contents writer.new) result }
{
    let task = task_named(alloc, words)?;
    match serve_task(alloc, task, reader, writer) {
        Ok(()) => Ok(()),
        Err(fault) => Err(Failure::Run(fault)),
    }
}

/// Carries out a command line, which begins with the program's name, and returns the exit status. `run` serves the
/// script from the reader to the writer, on a stack with the configuration of its options: `--addr` and `--bcast` for
/// the addresses, `--mtu`, `--mbufs`, `--clusters`, and `--id` for the first identification. Each option may be given
/// once, in any order, with its value in the next word or after `=`. The defaults are 10.0.0.1, 10.0.0.255, 1500, 512,
/// 64 and 1. `chain` serves the script of calls on chains, over a pool with the sizes of its options `--mbufs` and
/// `--clusters`.
///
/// `words` is an error if the words could not be read: `OutOfMemory` if memory was lacking, and another error if a word
/// isn't UTF-8.
///
/// The status is 0 if all lines got a reply; 2 if the words aren't a command, or a number is malformed or out of range;
/// 3 if the host refused memory, or the configuration or the sizes are invalid; 4 if reading or writing failed, or
/// there were too many lines. Each status except 0 has a text, which is written to `errors`; a failure of that write
/// has no effect.
pub fn program<R: Source, W: Sink, E: Write>(
    alloc: Global,
    words: io::Result<Vec<String>>,
    reader: &mut R,
    writer: &mut W,
    errors: &mut E,
) -> u8
    // The status gives the outcome, and the outcome says what was read and written, for the task of the words.
    ensures { (outcome : Result Unit Failure) × (result ≡ status_of outcome)
        × Ran (IsAskedBy (λ all. map string_bytes all.items) defaults words)
        (R.remaining reader.old) (R.remaining reader.new) (W.contents writer.old) (W.contents writer.new) outcome }
{
    match serve(alloc, &words, reader, writer) {
        Ok(()) => 0,
        Err(failure) => {
            let _ = writeln!(errors, "bsdudp: {failure}");
            failure.status()
        }
    }
}
