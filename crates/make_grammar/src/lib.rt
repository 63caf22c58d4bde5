//! Definitions of makefiles, in the subset of POSIX make that the builds here use: what a text says as a makefile, which line of
//! one is the first that fails, and the units of a build or the refusal that comes in their place.
//!
//! What it is for: the model and the reader of makefiles speak of the same definitions, and the model waits for no reader.
//!
//! What it promises, by law: every makefile that is read is formed, and over any such makefile the units of a build are in order
//! and formed.
//!
//! What it stands on: `cc_names` for paths, texts, units and causes, and for the lines of a text and their words.
#![tactic(auto)]

pub mod contents;
pub mod laws;
pub mod line_kinds;
pub mod logical_lines;
pub mod rule_lines;
pub mod walks;
