//! Tests of which rows fit, in a crate of their own so that they are proved apart from `view_lookup`.
//!
//! What it is for: two bases of rows that were written by hand, and rows that may be the next of their first rows or not. No
//! session writes a row that does not fit, so no table of `session_tables` has these.
//!
//! What it promises: nothing; it is only run.
//!
//! What it stands on: `view_lookup`, `legal_history` for what a base is, and `row_form` for rows from their spelling.
#![tactic(auto)]

#[cfg(test)]
mod asked;
#[cfg(test)]
mod fitting;
#[cfg(test)]
mod spelled_rows;
