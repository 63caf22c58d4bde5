//! Tests of `disk_model`, in a crate of their own so that `disk_model` is proved apart from them.
//!
//! What it is for: what stops leave of a disk in memory, what real files hold, and what is said of a failure.
//!
//! What it promises: nothing; it is only run.
//!
//! What it stands on: `disk_model` for disks.
#![tactic(auto)]

#[cfg(test)]
mod tests;
