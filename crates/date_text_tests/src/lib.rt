//! Tests of `date_text`, in a crate of their own so that `date_text` is proved once.
//!
//! What it is for: texts that are no dates, each with the place of its first wrong field. No session tells that place; dates that
//! are read and printed are given by tables of `session_tables`.
//!
//! What it promises: nothing; it is only run.
//!
//! What it stands on: `date_text`.
#![tactic(auto)]

#[cfg(test)]
mod tests;
