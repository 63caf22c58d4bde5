//! Reads and runs build scripts.
//!
//! What it is for: a unit of a build is made by a script, and a script reads files and writes outputs and does nothing
//! else. `Script::read` reads its text, `run` carries it out over any `Files`.
//!
//! What it promises: a text is read as a script exactly where its grammar says so, with the first line that is outside
//! it; a run gives the outputs or the first fault that the definition of a run gives, and lists each path that it asked
//! the files for, once, in the order of first asking.
//!
//! What it stands on: `script_grammar` for the definitions; `cc_names` for paths, texts and faults, and for newlines and blanks;
//! `indexmap` for reads in the
//! order of first asking, `sha2` and `hex` for digests, `memchr` for bytes that are looked for.
#![tactic(auto)]

pub mod files;
mod forms;
mod includes;
pub mod lines;
mod making;
mod open_texts;
pub mod outcomes;
mod preprocess;
mod progress;
pub mod run;
pub mod scripts;
mod words;
