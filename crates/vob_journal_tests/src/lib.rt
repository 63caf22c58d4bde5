//! Tests of `vob_journal`, in a crate of their own so that `vob_journal` is proved apart from them.
//!
//! What it is for: what a journal finds in bytes, in which pieces it reads them, and what faults leave for a stop. What stops and
//! faults leave of a session's rows is given by the tables of `session_tables`.
//!
//! What it promises: nothing; it is only run.
//!
//! What it stands on: `vob_journal` for journals, `disk_model` for disks, and `cc_names` for memory.
#![tactic(auto)]

#[cfg(test)]
mod tests;
