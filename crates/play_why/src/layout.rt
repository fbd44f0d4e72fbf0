//! How records are printed.

/// How records are printed.
#[derive(Clone, Copy, Debug, PartialEq, Eq)]
pub enum Layout {
    /// As lines of text.
    Lines,
    /// As one JSON object for each record.
    Objects,
}
