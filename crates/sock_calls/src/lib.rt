//! The socket calls over the pool: control blocks with a receive queue each, sends, and the delivery of received
//! datagrams (TCP/IP Illustrated volume 2, chapters 15, 16, 22 and 23).
//!
//! Each call is one step of the flat machine, for every rest of that machine. A send tests the pool once: a caller with
//! unfinished datagrams frees them and sends again.
#![tactic(auto)]

mod delivery;
mod destination;
mod ending;
mod net;
mod one_packet;
mod packets;
mod parts;
mod questions;
mod queues;
mod receive;
mod send;
mod sockets;
mod taking;

pub use flat_model::Errno;
pub use net::Net;
pub use questions::{NextDatagram, SocketName};
pub use sockets::Socks;
pub use taking::Taken;
