//! A broadcast segment of hosts, each with a stack of its own, and the packets or frames that are under way between
//! them.
#![tactic(auto)]

mod carry;
mod chances;
mod deliver;
mod directory;
mod flight;
mod frame;
mod hand;
mod laws;
mod links;
mod moves;
mod one;
mod segment;
mod tally;
mod watch;
mod ways;

pub use chances::{Chances, Fate, NO_CHANCES};
pub use ether_host::{AddressState, Link, LinkFault, Mac, Neighbour, NetFault, Tallies};
pub use hand::UnderWay;
pub use laws::{
    hosts_are_machines, hosts_on_a_segment, hosts_on_a_segment_for_ever, hosts_on_an_ether_segment,
};
pub use links::{FRAMES, numbers};
pub use segment::{JoinFault, MAX_HOSTS, Segment};
pub use tally::Tally;
pub use watch::Watch;
