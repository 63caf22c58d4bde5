//! A lock that hands one value from thread to thread, in the order of tickets.
//!
//! A value has a story, which its own type tells. Whoever takes the value finds a story that begins with all that
//! its pass has seen of it, and gives the value back with a story that begins with the one found. So what a thread
//! did to the value stands in every later story, in the order in which it was done.
//!
//! Promised, by contracts: no part of a story that was given back is ever lost or changed, and `close` gives a
//! value whose story is what the last pass has seen. Not promised: that a thread is ever served, that threads are
//! served in any fair order, or any time.
//!
//! It stands on `atomic_table` alone.
#![tactic(auto)]

mod lock;
mod moves;
mod rule;
mod sleepers;
mod story;

pub use lock::{Held, Pass, TurnLock};
pub use story::Storied;
