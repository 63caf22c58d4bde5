//! Tests of `cc_outside`, in a crate of their own so that `cc_outside` is proved apart from them.
//!
//! What it is for: what the adapters over the standard library give and take, which no contract can say, and that a long source
//! is read to its end.
//!
//! What it promises: nothing; it is only run.
//!
//! What it stands on: `cc_outside`, and `cc_names` for what a call answers where memory runs out.
#![tactic(auto)]

#[cfg(test)]
mod tests;
