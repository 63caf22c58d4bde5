//! Tests of sessions whose lanes and builders are on threads.
//!
//! What it is for: that scripts of several lanes and of one build run at once, that builders steal and claim, and that what lanes
//! and builds come to is right in any order, also where the disk fails under them. Every number and text is worked out by hand
//! from the rules of docs/MODEL.md and docs/FORMATS.md; none is taken from what the program writes, but in `races` the rows of
//! the base say who came first. What a session comes to in any order is given by the tables of `session_tables`.
//!
//! What it promises: nothing; it is only run.
//!
//! What it stands on: `session_run` for sessions, `large_session` for the text of one, `disk_model` and `cc_outside` for what is
//! outside of them, and `cc_names` for words.
#![tactic(auto)]

#[cfg(test)]
mod faults;
#[cfg(test)]
mod hooks;
#[cfg(test)]
mod large;
#[cfg(test)]
mod on_threads;
#[cfg(test)]
mod races;
#[cfg(test)]
mod sessions;
