//! Scripts of many machines: hosts with names, each of which executes the lines of `play_script`, and one wire that
//! joins them. Lines of its own carry what waits in their output queues: packets, or the frames of hosts on an
//! Ethernet.
#![tactic(auto)]

mod add;
mod capture_out;
mod carries;
mod chance;
mod event;
mod fault;
mod halves;
mod host_line;
mod hosts;
mod impair;
mod laws;
mod link;
mod link_ask;
mod link_count;
mod link_line;
mod log;
mod names;
mod objects;
mod passed;
mod player;
mod report_link;
mod runs;
mod show;
mod spare;
mod summary;
mod target;
mod ticks;
mod verdict;
mod wire_ask;
mod wire_line;

pub use laws::asks_law;
pub use play_pcap::Nowhere;
pub use runs::{PlayedHosts, Start, play_hosts};
