//! Play scripts: the lines of `bsdudp run` with comments, settings, times and expected replies, several ticks in one
//! line, queries, and captures to play. A line is parsed once, into an `Ask`; its reply also says why packets were
//! dropped.
#![tactic(auto)]

mod acting;
mod action;
mod ask;
mod capture_out;
mod captured;
mod draft;
mod execute;
mod fault;
mod fits;
mod law;
mod limit;
mod line;
mod outcome;
mod player;
mod print;
mod printer;
mod read;
mod replay;
mod report;
mod runs;
mod setting;
mod settings;
mod settle;
mod ticks;

pub use acting::act;
pub use action::{Action, set_limit};
pub use ask::Ask;
pub use capture_out::Capture;
pub use fault::SettingFault;
pub use fits::{is_same_word, meets};
pub use flat_model::Config;
pub use law::{asks_law, runs_law};
pub use limit::limit_of;
pub use line::{Kind, Line, read_part, shift_column};
pub use link_script::DEFAULTS;
pub use outcome::{DROPS, REPLY_LINE, put_drops};
pub use play_pcap::{CaptureFault, Folder, NoFolder, RECORD, Trace};
pub use play_text::Form;
pub use print::{NAME, OUTPUT};
pub use printer::{Printer, Style};
pub use read::ask_of;
pub use report::{Report, bytes_of, zero_bytes};
pub use runs::{Captured, Played, Start, play, play_captured};
pub use script_loop::{RunFault, Silent, Sink, Source};
pub use settings::settings_of;
pub use ticks::ticks_of;
