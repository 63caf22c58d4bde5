//! Tests of `vob_replica`, in a crate of their own so that `vob_replica` is proved once.
//!
//! What it is for: texts of sites with their replies, written out by hand.
//!
//! What it promises: nothing; it is only run.
//!
//! What it stands on: `vob_replica` and `cc_names`.
#![tactic(auto)]

#[cfg(test)]
mod texts;
