//! The reader of makefiles, in the subset of POSIX make that the builds here use.
//!
//! What it is for: `contents::Makefile::read` reads a makefile with the files that it includes and the macros of the command
//! line, and `expand` a script of it.
//!
//! What it promises: texts are read as a makefile exactly where its grammar says so, with the first line that fails, in its
//! file, and the cause; and a script expands as defined.
//!
//! What it stands on: `make_grammar` for the definitions; `cc_names` for paths, texts, units and causes, and for the lines of a
//! text and their words; `indexmap` for macros by name and for paths in order, each once.
#![tactic(auto)]

pub mod contents;
mod endings;
mod expanded_macros;
mod expansions;
mod gathering;
mod including;
mod joining;
mod line_cache;
mod line_kinds;
mod logical_lines;
mod macro_checks;
mod macros;
pub mod numbers;
mod pieces;
mod readers;
mod readings;
mod rule_lines;
pub mod rules;
mod special_targets;
mod states;
mod suffix_order;
mod suffix_rules;
mod suffixes;
pub mod word_paths;
mod words;
