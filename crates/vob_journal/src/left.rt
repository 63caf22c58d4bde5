//! What a failed call leaves.

/// The row, if any, that a crash may find after the list because of the last `append` or `settle`.
#[derive(Clone, Copy, Debug, PartialEq, Eq)]
pub enum Left {
    /// Nothing: each stop leaves the list.
    Nothing,
    /// What an earlier fault had left.
    Earlier,
    /// The row in flight.
    InFlight,
}
