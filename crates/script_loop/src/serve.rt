//! The loop that reads a script and replies to it.
ghost use Rattle.std.specs.Prelude.{◌≡◌, ◌↔◌, ◌≤◌, ◌<◌, ◌+◌, ◌^◌, ◌∷◌, [], ℕ, List, length, IsTrue, IfOk, IfSome, ◌++◌};
ghost use Rattle.script_loop.specs.Streams.{MoreBy, Sends, reader_failures, writer_failures};
ghost use Rattle.script_loop.specs.Serves.{Serves, IsServed};
ghost use Rattle.script_loop.specs.Inside.{Answered, CanTake, FitsLimits, HasRoom, TakesPiece, TakesChunk, Flushes, budget};

use crate::answers::Answers;
use crate::buffer::Buffer;
use crate::fault::RunFault;
use crate::streams::{Sink, Source, send};
use memchr::memchr;
use std::alloc::Global;

/// The most lines that are served.
pub(crate) const MOST_LINES: u32 = 10_000_000;

/// The most bytes that a line can have before its end.
pub(crate) const LONGEST: usize = 1_048_576;

/// The most bytes of replies that are kept while another reply is appended.
pub const HELD: usize = 65_536;

/// The number of bytes read at a time.
const CHUNK: usize = 8192;

/// Lists the two limits of a script next to their values. The function does nothing; its contract is the list.
pub const fn limits()
    ensures lines { MOST_LINES ≡ 10000000 }
    ensures bytes { LONGEST ≡ 2 ^ 20 }
{}

/// Replies to a line.
fn answer_line<const N: usize, A: Answers<N>, W: Sink>(
    machine: &mut A,
    text: &mut Buffer<N>,
    line: &[u8],
    writer: &mut W,
) -> Result<(), RunFault>
    ensures sent { (reply : List ℕ)
        × A.may_answer (A.state machine.old) line.now reply (A.state machine.new)
        × Sends (W.contents writer.old) (W.contents writer.new) reply result }
    ensures counted { MoreBy (writer_failures result) (W.failures writer.old) (W.failures writer.new) }
{
    text.clear();
    machine.answer(line, text);
    send(writer, text.as_slice())
}

/// Writes the text and empties it.
fn flush<const N: usize, W: Sink>(writer: &mut W, text: &mut Buffer<N>) -> Result<(), RunFault>
    ensures sent { Sends (W.contents writer.old) (W.contents writer.new) text.old result }
    ensures counted { MoreBy (writer_failures result) (W.failures writer.old) (W.failures writer.new) }
    ensures empty { text.new ≡ [] }
{
    let outcome = send(writer, text.as_slice());
    text.clear();
    outcome
}

/// Makes space for one more reply in the text.
fn make_room<const N: usize, W: Sink>(writer: &mut W, text: &mut Buffer<N>) -> Result<(), RunFault>
    ensures flushed { Flushes (W.contents writer.old) (W.contents writer.new) text.old text.new result }
    ensures counted { MoreBy (writer_failures result) (W.failures writer.old) (W.failures writer.new) }
    ensures room { IfOk result (λ _. length text.new ≤ HELD) }
{
    if text.len() <= HELD {
        return Ok(());
    }
    flush(writer, text)
}

/// Takes bytes that don't end a line. Returns whether all of them are within the limits; if not, nothing changes.
fn take_part(line: &mut Buffer<LONGEST>, count: u32, part: &[u8]) -> bool
    requires { length line.old ≤ LONGEST }
    ensures room { IsTrue result ↔ HasRoom count line.old part.now }
    ensures line { IsTrue result → line.new ≡ line.old ++ part.now }
{
    if part.is_empty() {
        return true;
    }
    if count == MOST_LINES || part.len() > LONGEST - line.len() {
        return false;
    }
    line.append(part);
    true
}

/// Takes the last bytes of a line and its line feed, and appends the reply to the text. `count` lines got a reply
/// before. Returns the new number of lines, or `None` if a byte exceeds a limit.
fn take_end<const N: usize, A: Answers<N>>(
    machine: &mut A,
    text: &mut Buffer<N>,
    line: &mut Buffer<LONGEST>,
    count: u32,
    part: &[u8],
) -> Option<u32>
    requires { CanTake count line.old text.old part.now }
    ensures taken { (begin : A.State) (seen printed : List ℕ)
        → Answered A.may_answer begin (A.state machine.old) seen line.old count printed
        → TakesPiece A.may_answer begin (A.state machine.new) seen (part.now ++ 10 ∷ []) printed
        text.old text.new line.new result }
    ensures within { IfSome result (λ now. FitsLimits now line.new) }
    ensures fewer { IfSome result (λ now. budget now line.new + (length part.now + 1) ≤ budget count line.old) }
{
    if count == MOST_LINES {
        return None;
    }
    if !take_part(line, count, part) {
        return None;
    }
    machine.answer(line.as_slice(), text);
    line.clear();
    Some(count + 1)
}

/// Takes the last bytes of a line and its line feed, and writes the text if it is full or a byte exceeds a limit.
fn take_line<const N: usize, A: Answers<N>, W: Sink>(
    machine: &mut A,
    text: &mut Buffer<N>,
    line: &mut Buffer<LONGEST>,
    count: u32,
    part: &[u8],
    writer: &mut W,
) -> Result<u32, RunFault>
    requires { CanTake count line.old text.old part.now }
    ensures taken { (begin : A.State) (seen written : List ℕ)
        → Answered A.may_answer begin (A.state machine.old) seen line.old count (written ++ text.old)
        → TakesChunk A.may_answer begin (A.state machine.new) seen (part.now ++ 10 ∷ []) written
        (W.contents writer.old) (W.contents writer.new) text.new line.new result }
    ensures counted { MoreBy (writer_failures result) (W.failures writer.old) (W.failures writer.new) }
    ensures within { IfOk result (λ now. FitsLimits now line.new) }
    ensures room { IfOk result (λ _. length text.new ≤ HELD) }
    ensures fewer { IfOk result (λ now. budget now line.new + (length part.now + 1) ≤ budget count line.old) }
{
    match take_end(machine, text, line, count, part) {
        Some(now) => {
            make_room(writer, text)?;
            Ok(now)
        }
        None => {
            flush(writer, text)?;
            Err(RunFault::TooManyLines)
        }
    }
}

/// Takes the bytes of a chunk, and replies to each line that ends in it. At the end all replies are written.
pub(crate) fn take_chunk<const N: usize, A: Answers<N>, W: Sink>(
    machine: &mut A,
    text: &mut Buffer<N>,
    line: &mut Buffer<LONGEST>,
    count: u32,
    chunk: &[u8],
    writer: &mut W,
) -> Result<u32, RunFault>
    requires within { FitsLimits count line.old }
    requires text { text.old ≡ [] }
    ensures taken { (begin : A.State) (seen written : List ℕ)
        → Answered A.may_answer begin (A.state machine.old) seen line.old count written
        → TakesChunk A.may_answer begin (A.state machine.new) seen chunk.now written
        (W.contents writer.old) (W.contents writer.new) [] line.new result }
    ensures counted { MoreBy (writer_failures result) (W.failures writer.old) (W.failures writer.new) }
    ensures empty { IfOk result (λ _. text.new ≡ []) }
    ensures within { IfOk result (λ now. FitsLimits now line.new) }
    ensures fewer { IfOk result (λ now. budget now line.new + length chunk.now ≤ budget count line.old) }
{
    let mut now = count;
    let mut rest = chunk;
    while let Some(at) = memchr(b'\n', rest) {
        now = take_line(machine, text, line, now, &rest[..at], writer)?;
        let (_, after) = rest.split_at(at + 1);
        rest = after;
    }
    let fits = take_part(line, now, rest);
    flush(writer, text)?;
    if fits {
        Ok(now)
    } else {
        Err(RunFault::TooManyLines)
    }
}

/// Serves a script: has `machine` reply to its lines, one after another.
///
/// Each line gets its reply when its end has been read. If the input ends within a line, that counts as a line too.
/// Memory is allocated only before the first read.
///
/// # Errors
///
/// `Memory` if the host refuses memory. Nothing was read or written then, and the machine is unchanged.
///
/// `Read` if the reader returns an error: each whole line before it got its reply. `Write` if the writer returns an
/// error, or accepts none of the bytes: a prefix of the replies was written. `TooManyLines` at a byte after the
/// 10,000,000th line, or one that makes a line longer than 1,048,576 bytes: each whole line before it got its reply.
/// `BadSizes` and `BadConfig` are never returned.
pub fn serve_script<const N: usize, A: Answers<N>, R: Source, W: Sink>(
    alloc: Global,
    machine: &mut A,
    reader: &mut R,
    writer: &mut W,
) -> Result<(), RunFault>
    ensures read { MoreBy (reader_failures result) (R.failures reader.old) (R.failures reader.new) }
    ensures wrote { MoreBy (writer_failures result) (W.failures writer.old) (W.failures writer.new) }
    ensures served { Serves A.may_answer (A.state machine.old) (A.state machine.new)
        (R.remaining reader.old) (R.remaining reader.new) (W.contents writer.old) (W.contents writer.new) result }
    ensures started { IsServed result }
{
    let (Ok(mut text), Ok(mut line), Ok(mut chunk)) = (
        Buffer::new(alloc),
        Buffer::new(alloc),
        vec![in alloc; 0; CHUNK],
    ) else {
        return Err(RunFault::Memory);
    };
    serve_within(
        machine,
        &mut text,
        &mut line,
        chunk.as_mut_slice(),
        reader,
        writer,
    )
}

fn serve_within<const N: usize, A: Answers<N>, R: Source, W: Sink>(
    machine: &mut A,
    text: &mut Buffer<N>,
    line: &mut Buffer<LONGEST>,
    chunk: &mut [u8],
    reader: &mut R,
    writer: &mut W,
) -> Result<(), RunFault>
    requires chunk { 0 < length chunk.old }
    requires line { line.old ≡ [] }
    requires text { text.old ≡ [] }
    ensures read { MoreBy (reader_failures result) (R.failures reader.old) (R.failures reader.new) }
    ensures wrote { MoreBy (writer_failures result) (W.failures writer.old) (W.failures writer.new) }
    ensures served { Serves A.may_answer (A.state machine.old) (A.state machine.new)
        (R.remaining reader.old) (R.remaining reader.new) (W.contents writer.old) (W.contents writer.new) result }
    ensures started { IsServed result }
{
    let mut count = 0;
    'chunks: loop {
        match reader.read_some(chunk) {
            Err(_) => return Err(RunFault::Read),
            Ok(0) => break 'chunks,
            Ok(n) => count = take_chunk(machine, text, line, count, &chunk[..n], writer)?,
        }
    }
    if line.is_empty() {
        return Ok(());
    }
    answer_line(machine, text, line.as_slice(), writer)
}
