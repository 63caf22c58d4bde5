//! The tests of `session_text` that no table of `session_tables` can have.
//!
//! What it is for: each byte at each place of a line and of a text, and a session of the greatest size.
//!
//! What it promises: nothing; it is only run.
//!
//! What it stands on: `session_text` and `cc_names`.
#![tactic(auto)]

#[cfg(test)]
mod places;
#[cfg(test)]
mod sizes;
