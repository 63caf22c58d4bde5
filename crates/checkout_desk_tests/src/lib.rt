//! Tests of decisions that no session meets, in a crate of their own so that `checkout_desk` is proved apart from them.
//!
//! What it is for: a change where no room is left for its row. A base of 4,000,000 rows is more than a session makes, while a
//! decision is told how many are taken. All other decisions are met by the tables of `session_tables`.
//!
//! What it promises: nothing; it is only run.
//!
//! What it stands on: `checkout_desk` for decisions, `session_text` for the form of changes, `view_lookup` for a base, and
//! `cc_names` for changes.
#![tactic(auto)]

#[cfg(test)]
mod full_bases;
