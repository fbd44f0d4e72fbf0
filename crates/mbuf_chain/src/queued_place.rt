//! Places in a train.

/// The position of a chain in a train: the number of chains before it, and its own number. `Train::first` returns a
/// train's first place, `Train::next` the one after a place.
#[derive(Clone, Copy, Debug, PartialEq, Eq)]
pub struct QueuedPlace {
    /// The number of chains of the train before it.
    pub index: u32,
    /// The number of the chain.
    pub number: u32,
}
