//! Captures of the script player: the packets that arrive and leave are written to a capture file, and a capture file
//! can be played. The crate `pcap` defines the file format.
#![tactic(auto)]

mod ask;
mod fault;
mod files;
mod laws;
mod lines;
mod moves;
mod play;
mod result_text;
mod trace;
mod wire;
mod wire_trace;

pub use ask::{Ask, Details, Range, ask_of, range_of};
pub use fault::CaptureFault;
pub use files::{Folder, NoFolder, load_named, read_whole};
pub use laws::{lines_law, played_back_law, read_back_law, trace_law};
pub use lines::{LINE, Lines};
pub use moves::Tally;
pub use play::play_file;
pub use result_text::{OUTCOME, put_outcome};
pub use trace::{Nowhere, RECORD, Trace};
pub use wire::{RecordPlace, Wire};
pub use wire_trace::WireTrace;
