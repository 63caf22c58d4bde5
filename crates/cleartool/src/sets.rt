//! Sets that queries gather from rows.

pub(crate) mod holders;
pub(crate) mod owned_paths;
