//! An Ethernet host as definitions: frames, ARP, ICMP replies, and the link's state next to the flat machine's.
//! `specs/` has the definitions; this crate has the plain types that they share with the code, and their laws.
#![tactic(auto)]

mod answer;
mod arp;
mod claim;
mod error;
mod fault;
mod laws;
mod link;
mod mac;
mod neighbour;
mod sizes;
mod tallies;

pub use answer::Answer;
pub use arp::Arp;
pub use claim::{AddressState, Claim, ClaimFrame};
pub use error::{NetFault, SocketError};
pub use fault::LinkFault;
pub use laws::{
    any_hosts_on_an_ethernet, frames_go_to_hosts, hosts_keep_to_the_mtu, hosts_make_turns,
    hosts_on_an_ethernet, hosts_on_an_ethernet_for_ever, hosts_send_as_themselves,
    martians_are_dropped, replies_are_numbered,
};
pub use link::{FrameKind, Link, Route};
pub use mac::{ETHER_BROADCAST, Mac, NO_MAC};
pub use neighbour::{Neighbour, PendingReply};
pub use sizes::{
    ANNOUNCE_TICKS, ANNOUNCEMENTS, ARP_BYTES, ARP_KEEP_TICKS, ARP_POLLS, ARP_PROBES, ARP_REPLY,
    ARP_REQUEST, ARP_RETRY_TICKS, ARP_TRIES, DEFEND_TICKS, ECHO_REPLY, ECHO_REQUEST, ERRORS_A_TICK,
    ETHER_HEADER, ETHER_MTU, ETHER_TYPE_ARP, ETHER_TYPE_IP, EXPIRED_DATAGRAMS, FIRST_FRAGMENTS,
    FRAGMENT_NEEDED, HELD_PACKETS, ICMP_ERROR, ICMP_HEADER, NEIGHBOURS, OPTION_END,
    OPTION_LOOSE_ROUTE, OPTION_NONE, OPTION_RECORD_ROUTE, OPTION_STRICT_ROUTE, PENDING_REPLIES,
    PROBE_TICKS, PROTOCOL_ICMP, QUOTE, REASSEMBLY_EXCEEDED, SOCKET_ERRORS, TIME_EXCEEDED,
    UNREACHABLE, UNREACHABLE_PORT, UNREACHABLE_PROTOCOL, numbers,
};
pub use tallies::Tallies;
