//! Why a request isn't carried out.

/// Why a request wasn't carried out. Nothing has changed then.
#[derive(Clone, Copy)]
pub(crate) enum Fault {
    /// A slot that must hold a chain is empty, a slot that must be empty isn't, or two slots are the same.
    Chain,
    /// A condition of the call isn't met.
    Range,
    /// A byte to be written is in a cluster that another mbuf refers to.
    Shared,
    /// More bytes than fit into a first mbuf.
    TooLong,
    /// More bytes than the chain has.
    TooShort,
    /// Too few mbufs or clusters are free.
    NoBufs,
}
