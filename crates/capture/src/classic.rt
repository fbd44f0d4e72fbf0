//! Records of classic files.
ghost use Rattle.std.specs.Prelude.{◌≡◌, [], length, IfOk};
ghost use Rattle.capture.specs.Packets.{IsInside};
ghost use Rattle.capture.specs.Steps.{ClassicReads, IsLoaded};

use crate::blocks::Found;
use crate::fault::{FaultAt, Why};
use crate::feed::{Feed, LONGEST_RECORD};
use crate::pcap::{Header, Order, captured_len, first_record};
use script_loop::Source;

/// Bytes of a record's header.
const RECORD_HEADER: usize = 16;

/// Reads the next record of a classic file into an empty buffer, or as much of it as the stream has.
#[tactic(auto, using(crate::proofs::Loaded::not_loaded, crate::proofs::Loaded::record_loaded))]
fn load_record<S: Source>(feed: &mut Feed<S>, order: Order) -> Result<(), FaultAt>
    requires { feed.old.buffer ≡ [] }
    ensures { IsLoaded order (S.remaining feed.old.source) (S.remaining feed.new.source) feed.new.buffer result }
{
    if let Err(error) = feed.fill(RECORD_HEADER) {
        return Err(error);
    }
    if feed.buffer.len() < RECORD_HEADER {
        return Ok(());
    }
    let captured = captured_len(order, feed.buffer.as_slice());
    if captured > LONGEST_RECORD - RECORD_HEADER {
        return Err(FaultAt {
            why: Why::TooLong,
            at: 8,
        });
    }
    match feed.fill(RECORD_HEADER + captured) {
        Ok(()) => Ok(()),
        Err(error) => Err(error),
    }
}

/// Returns the next record of a classic file, which is read into an empty buffer; `None` at the end. Fails with
/// `NotRead`, with `TooLong`, and with a fault of the record.
#[tactic(auto, using(crate::proofs::Loaded::ended_empty, crate::proofs::Loaded::record_cut))]
pub(crate) fn read_record<S: Source>(
    feed: &mut Feed<S>,
    header: Header,
) -> Result<Option<Found>, FaultAt>
    requires { feed.old.buffer ≡ [] }
    ensures reads { ClassicReads header (S.remaining feed.old.source) (S.remaining feed.new.source) feed.new.buffer
        result }
    ensures inside { IfOk result (IsInside (length feed.new.buffer)) }
{
    if let Err(error) = load_record(feed, header.order) {
        return Err(error);
    }
    if feed.buffer.is_empty() {
        return Ok(None);
    }
    match first_record(header.order, feed.buffer.as_slice()) {
        Ok((record, _rest)) => Ok(Some(Found {
            time: Some(header.nanoseconds(&record)),
            original_len: record.original_len,
            link_number: (header.link_field % 65_536) as u16,
            link: Some(header.link),
            from: RECORD_HEADER,
            len: record.bytes.len(),
        })),
        Err(found) => Err(found.into()),
    }
}
