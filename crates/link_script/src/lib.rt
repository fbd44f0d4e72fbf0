//! Scripts: lines with requests to a stack, and the lines with its replies.
#![tactic(auto)]

mod caller;
mod command_line;
mod laws;
mod options;
mod runs;

pub use caller::Caller;
pub use chain_script::{Sizes, run_chains};
pub use command_line::{DEFAULTS, program};
pub use flat_model::Config;
pub use laws::prints_law;
pub use runs::{booted, run};
pub use script_loop::{RunFault, Silent, Sink, Source};
