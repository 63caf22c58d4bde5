//! The units of a build: which of them its goals want, in which order, and what waits for what.
//!
//! What it is for: `Graph::of` makes the units of a makefile that was read for the goals of a build, with suffix rules, groups
//! and cycles; `unit_of` finds one by a target, `closure` gives the units that a unit stands on, `dependants` those that wait
//! for it, and `ready` says whether none of those that it waits for is left.
//!
//! What it promises: the units, or the fault in their place, are those of the definition of the units of a build;
//! `closure` gives the units that a unit stands on, `dependants` those that have a prerequisite of its making, and `ready`
//! says whether those of its own prerequisites are done.
//!
//! What it stands on: `make_grammar` for the definition of units, `make_text` for makefiles, `cc_names` for paths, units and
//! faults, `indexmap` for paths without a rule in their order, each once.
#![tactic(auto)]

mod cached_closures;
pub mod closures;
mod dependants;
pub mod goals;
mod makers;
mod number_sets;
mod numbers;
mod serving;
mod suffix_tables;
pub mod unit_graphs;
mod units;
mod walks;
