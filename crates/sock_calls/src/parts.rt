//! The parts of the sockets that a delivery and a send change.
use crate::queues::ReceiveQueues;
use pcb_table::Pcbs;

/// The control blocks, and the receive queue of each descriptor. The type itself says nothing about them: each call's
/// contract states what it requires.
pub(crate) struct Parts {
    pub(crate) pcbs: Pcbs,
    pub(crate) queues: ReceiveQueues,
}
