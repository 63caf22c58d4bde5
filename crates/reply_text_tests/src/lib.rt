//! Tests of `reply_text`, in a crate of their own so that `reply_text` is proved apart from them.
//!
//! What it is for: the lines of replies that no session is answered; those of all others are given by the tables of
//! `session_tables`.
//!
//! What it promises: nothing; it is only run.
//!
//! What it stands on: `reply_text` for lines, and `cc_names` for replies.
#![tactic(auto)]

#[cfg(test)]
mod tests;
