//! Definitions of build scripts: what a text says as a script, and what a run of one writes, reads and fails by.
//!
//! What it is for: the model and the code that runs scripts speak of the same definitions, and the model waits for no code.
//!
//! What it promises, by law: where two files have the same text, or both none, at each path that a run reads of the one, a run
//! over the other is equal.
//!
//! What it stands on: `cc_names` for paths, texts and faults, and for newlines and blanks; `sha2` and `hex` for digests.
#![tactic(auto)]

pub mod files;
pub mod frame;
pub mod halts;
pub mod lines;
