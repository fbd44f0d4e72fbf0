//! The text about a capture.
ghost use Rattle.std.specs.Prelude.{◌≡◌, ◌+◌, ◌≤◌, ◌++◌, length};
ghost use Rattle.play_pcap.specs.Results.{capture_text, fault_place};

use crate::fault::CaptureFault;
use crate::moves::Tally;
use play_text::Piece::{Long, Number, Text};
use play_text::put;
use script_loop::Buffer;

/// The longest text about a capture, in bytes.
pub const OUTCOME: usize = 128;

/// Appends the offset at which a bad file is wrong.
fn put_place<const N: usize>(text: &mut Buffer<N>, fault: CaptureFault)
    requires { length text.old + 30 ≤ N }
    ensures items { text.new ≡ text.old ++ fault_place fault }
    ensures len { length text.new ≤ length text.old + 30 }
{
    if let CaptureFault::Bad(fault) = fault {
        put(text, &[Text(b" at byte "), Long(fault.offset as u64)]);
    }
}

/// Appends the result of playing a capture, at most [`OUTCOME`] bytes: how many packets arrived, how many records had
/// no packet, and how many ticks passed. If nothing was played, it appends the reason, with the offset in a bad file.
pub fn put_outcome<const N: usize>(text: &mut Buffer<N>, outcome: Result<Tally, CaptureFault>)
    requires { length text.old + OUTCOME ≤ N }
    ensures items { text.new ≡ text.old ++ capture_text outcome }
    ensures len { length text.new ≤ length text.old + OUTCOME }
{
    match outcome {
        Ok(tally) => put(
            text,
            &[
                Text(b"ok "),
                Long(tally.packets),
                Text(b" packets, "),
                Long(tally.others),
                Text(b" others, "),
                Number(tally.ticks),
                Text(b" ticks"),
            ],
        ),
        Err(fault) => {
            text.append(b"error ");
            text.append(fault.words().as_bytes());
            put_place(text, fault);
        }
    }
}
