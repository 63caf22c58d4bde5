//! Why a run of a script is given up.

/// Why a run was given up.
#[derive(Clone, Copy, Debug, PartialEq, Eq)]
pub enum GivenUp {
    /// The files answered `Broken`.
    Broken,
}
