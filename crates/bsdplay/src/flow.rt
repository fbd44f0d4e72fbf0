//! The sums of the packets from or to the end that `--flow` selects.
use crate::why::{Choice, Flow};
use play_why::{Layout, Outcome, Verdict};
use std::io::{self, Write};
use std::net::{Ipv4Addr, SocketAddrV4};

/// What happened to the packets of a flow.
#[derive(Clone, Copy)]
pub(crate) struct FlowSums {
    packets: u64,
    delivered: u64,
    kept: u64,
    refused: u64,
    offload: u64,
    cut: u64,
    dropped: u64,
    unfinished: u64,
}

/// Adds one.
fn add_one(count: &mut u64) {
    *count = count.saturating_add(1);
}

/// Returns whether a port is this one, or unknown.
fn may_be(port: Option<u16>, wanted: u16) -> bool {
    match port {
        Some(port) => port == wanted,
        None => true,
    }
}

/// Returns whether a packet comes from the end that is selected, or goes to it. A packet whose ports aren't known may.
pub(crate) fn is_of_flow(choice: Choice, verdict: &Verdict) -> bool {
    let (Some(flow), Some(ends)) = (choice.flow, verdict.ends) else {
        return false;
    };
    (ends.source == flow.address && may_be(ends.source_port, flow.port))
        || (ends.destination == flow.address && may_be(ends.destination_port, flow.port))
}

impl FlowSums {
    /// No packet was counted.
    pub(crate) fn new() -> FlowSums {
        FlowSums {
            packets: 0,
            delivered: 0,
            kept: 0,
            refused: 0,
            offload: 0,
            cut: 0,
            dropped: 0,
            unfinished: 0,
        }
    }

    /// Counts a packet.
    pub(crate) fn add(&mut self, outcome: Outcome) {
        add_one(&mut self.packets);
        add_one(match outcome {
            Outcome::Delivered => &mut self.delivered,
            Outcome::Kept => &mut self.kept,
            Outcome::Refused => &mut self.refused,
            Outcome::Offload => &mut self.offload,
            Outcome::Cut => &mut self.cut,
            Outcome::Dropped => &mut self.dropped,
        });
    }

    /// Counts a datagram that isn't completed.
    pub(crate) fn add_unfinished(&mut self) {
        add_one(&mut self.unfinished);
    }

    /// Writes the sums, as a line or as an object.
    pub(crate) fn write(&self, flow: Flow, layout: Layout, out: &mut impl Write) -> io::Result<()> {
        let end = SocketAddrV4::new(Ipv4Addr::from_bits(flow.address), flow.port);
        let FlowSums {
            packets,
            delivered,
            kept,
            refused,
            offload,
            cut,
            dropped,
            unfinished,
        } = *self;
        match layout {
            Layout::Lines => {
                write!(
                    out,
                    "    From or to {end}: {packets} packets. Delivered: {delivered}. Kept as fragments: {kept}."
                )?;
                write!(
                    out,
                    " Refused by the host: {refused}. Left to the card: {offload}. Cut by the capture: {cut}."
                )?;
                writeln!(
                    out,
                    " Dropped: {dropped}. Unfinished datagrams: {unfinished}."
                )
            }
            Layout::Objects => {
                write!(
                    out,
                    "{{\"flow\":\"{end}\",\"packets\":{packets},\"delivered\":{delivered},\"kept\":{kept}"
                )?;
                write!(out, ",\"refused\":{refused},\"offload\":{offload}")?;
                writeln!(
                    out,
                    ",\"cut\":{cut},\"dropped\":{dropped},\"unfinished\":{unfinished}}}"
                )
            }
        }
    }
}
