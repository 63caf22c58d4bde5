//! The test of `make_text` that no table of `session_tables` can be, in a crate of its own so that `make_text` is proved apart
//! from it.
//!
//! What it is for: a makefile of more macros than a table has lines.
//!
//! What it promises: nothing; it is only run.
//!
//! What it stands on: `make_text` and `cc_names`.
#![tactic(auto)]

#[cfg(test)]
mod many_macros;
