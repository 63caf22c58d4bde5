//! The spelling of rows, tried on rows that are spelled by hand from the format.
//!
//! What it is for: the tests of `row_form` stand apart, so that its proof is not made again for them.
//!
//! What it promises: nothing; it has no items but tests.
//!
//! What it stands on: row_form, and cc_names for the fields of a row.
#![tactic(auto)]

#[cfg(test)]
mod tests;
