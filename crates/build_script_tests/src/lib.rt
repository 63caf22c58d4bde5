//! Tests of `build_script` that no table of `session_tables` can be, in a crate of their own so that `build_script` is proved
//! apart from them.
//!
//! What it is for: what runs make of texts that do not end in a newline, or that are longer than an output may be.
//!
//! What it promises: nothing; it is only run.
//!
//! What it stands on: `build_script` for scripts and runs, and `cc_names` for paths and texts.
#![tactic(auto)]

#[cfg(test)]
mod running;
#[cfg(test)]
mod texts;
