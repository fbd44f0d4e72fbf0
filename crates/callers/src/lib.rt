//! An example caller of each library: small whole programs, which the READMEs of the crates show.
#![tactic(auto)]

pub mod admission;
pub mod asked_line;
pub mod capture_packets;
pub mod cell_bytes;
pub mod chain_lines;
pub mod cluster_counts;
pub mod commented_lines;
pub mod counting;
pub mod datagram_sizes;
pub mod echo_host;
pub mod ether_echo;
pub mod fragment;
pub mod handed_in;
pub mod laws_on_a_wire;
pub mod line_echo;
pub mod lines_of_hosts;
pub mod link_packets;
pub mod named_packet;
pub mod packet_sum;
pub mod packet_taken;
pub mod printed_line;
pub mod receive_queue;
pub mod receiving;
pub mod send;
pub mod shared_cluster;
pub mod shown_topics;
pub mod socket_lines;
pub mod text_lines;
pub mod two_chains;
pub mod two_hosts;
pub mod udp_packet;
pub mod user_clusters;
pub mod what_was_meant;
