//! How far a walk over the units has come with each of them.

/// How far a walk over the units has come with one of them.
#[derive(Clone, Copy, Debug, Drop)]
pub enum Mark {
    /// It was not met.
    New,
    /// Its prerequisites are being walked.
    Open,
    /// It has its place in the order.
    Done,
}
