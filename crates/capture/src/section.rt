//! Blocks, read one after another.
ghost use Rattle.std.specs.Prelude.{◌≤◌, length, IfOk};
ghost use Rattle.capture.specs.Packets.{IsInside, known};
ghost use Rattle.capture.specs.Steps.{BlockLoads, BlockReads, BlocksRead, StepInside};

use crate::blocks::{Blocks, Found};
use crate::fault::{FaultAt, Why};
use crate::feed::{Feed, LONGEST_RECORD};
use crate::pcap::Order;
use crate::pcapng::block_head;
use script_loop::Source;

/// Bytes of a block without a body.
pub(crate) const EMPTY_BLOCK: usize = 12;

/// The result of one block.
#[derive(Clone, Copy)]
pub(crate) enum Step {
    /// The file has ended.
    Ended,
    /// It has no packet.
    Passed,
    /// It has this packet.
    Packet(Found),
}

/// Reads the next block, or as much of it as the stream has. The buffer may hold its first bytes already.
#[tactic(auto, using(crate::proofs::Sections::block_loaded))]
fn load_block<S: Source>(feed: &mut Feed<S>, current: Option<Order>) -> Result<(), FaultAt>
    requires { length feed.old.buffer ≤ 12 }
    ensures { BlockLoads current (S.remaining feed.old.source) feed.old.buffer (S.remaining feed.new.source)
        feed.new.buffer result }
{
    if let Err(error) = feed.fill(EMPTY_BLOCK) {
        return Err(error);
    }
    if feed.buffer.len() < EMPTY_BLOCK {
        return Ok(());
    }
    let len = match block_head(current, feed.buffer.as_slice()) {
        Ok((_order, len)) => len,
        Err(found) => return Err(found.into()),
    };
    if len > LONGEST_RECORD {
        return Err(FaultAt {
            why: Why::TooLong,
            at: 4,
        });
    }
    match feed.fill(len) {
        Ok(()) => Ok(()),
        Err(error) => Err(error),
    }
}

/// Reads and parses the next block, whose first bytes may be in the buffer already.
#[tactic(auto, using(crate::proofs::Placed::all_of_it, crate::proofs::Sections::block_ended))]
pub(crate) fn read_block<S: Source>(
    feed: &mut Feed<S>,
    blocks: &mut Blocks,
) -> Result<Step, FaultAt>
    requires { length feed.old.buffer ≤ 12 }
    ensures reads { BlockReads (known blocks.old) (S.remaining feed.old.source) feed.old.buffer (known blocks.new)
        (S.remaining feed.new.source) feed.new.buffer result }
    ensures inside { StepInside (length feed.new.buffer) result }
{
    if let Err(error) = load_block(feed, blocks.order) {
        return Err(error);
    }
    if feed.buffer.is_empty() {
        return Ok(Step::Ended);
    }
    match blocks.take(feed.buffer.as_slice()) {
        Ok(Some(found)) => Ok(Step::Packet(found)),
        Ok(None) => Ok(Step::Passed),
        Err(error) => Err(error),
    }
}

/// Returns the next packet of a pcapng file, and the number of bytes that were read. Blocks without a packet are
/// skipped. The buffer may already hold the first bytes of a block.
pub(crate) fn read_packet<S: Source>(
    feed: &mut Feed<S>,
    blocks: &mut Blocks,
    offset: &mut u64,
) -> Result<Option<Found>, FaultAt>
    requires { length feed.old.buffer ≤ 12 }
    ensures reads { BlocksRead (known blocks.old) offset.old (S.remaining feed.old.source) feed.old.buffer
        (known blocks.new) offset.new (S.remaining feed.new.source) feed.new.buffer result }
    ensures inside { IfOk result (IsInside (length feed.new.buffer)) }
{
    let mut at = *offset;
    for _round in 0..u32::MAX {
        match read_block(feed, blocks) {
            Ok(Step::Ended) => return Ok(None),
            Ok(Step::Packet(found)) => return Ok(Some(found)),
            Ok(Step::Passed) => {}
            Err(error) => return Err(error),
        }
        at = at.saturating_add(feed.buffer.len() as u64);
        *offset = at;
        feed.buffer.clear();
    }
    Err(FaultAt {
        why: Why::TooMany,
        at: 0,
    })
}
