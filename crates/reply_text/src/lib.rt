//! The text of replies.
//!
//! What it is for: a session's transcript says, lane by lane, what each command was answered. `render` writes the
//! lines of a lane; `digest_of` computes the digests that the lines of units print.
//!
//! What it promises: the lines are exactly those of their definition, byte by byte, in time linear in them; a digest
//! is the SHA-256 of its bytes (FIPS 180-4).
//!
//! What it stands on: `cc_names` for the data and the lines of a text, `sha2` and `hex`.
#![tactic(auto)]

mod digests;
mod names;
mod pieces;
mod refusals;
mod replies;

pub use digests::digest_of;
pub use replies::render;
