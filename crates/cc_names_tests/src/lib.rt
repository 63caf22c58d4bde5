//! Tests of names, paths and texts, in a crate of their own so that `cc_names`, for which nearly all crates wait, is proved once.
//!
//! What it is for: a table of faulty names and paths with the places of their faults, which no session tells, and what faults and
//! texts print. Which words are names and paths is given by the tables of `session_tables`.
//!
//! What it promises: nothing; it is only run.
//!
//! What it stands on: `cc_names`.
#![tactic(auto)]

#[cfg(test)]
mod names;
