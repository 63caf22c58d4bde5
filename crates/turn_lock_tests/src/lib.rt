//! Tests of `turn_lock`, in a crate of their own so that `turn_lock` is proved apart from them.
//!
//! What it is for: that threads which wait for their turn are woken, and that a lock gives its value back, with all that was
//! done to it.
//!
//! What it promises: nothing; it is only run.
//!
//! What it stands on: `turn_lock`.
#![tactic(auto)]

#[cfg(test)]
mod tests;
