//! The journal of a base: frames that are appended one by one to file 0 of a disk, each acknowledged once no stop can
//! take it back.
//!
//! What it is for: `Journal::open` and `next` read the frames that a disk holds, `append` commits one more, `settle` shuts
//! the gate after the last. `foreign_bytes` counts what follows the frames and can be none.
//!
//! What it promises: after a stop at any device call the frames found are the list so far, or the list and the one row
//! that was in flight or that an earlier fault left; after `append` answered Ok they are the list with the row.
//!
//! What it stands on: disk_model, and cc_names below it.
#![tactic(auto)]

mod foreign;
mod frame;
mod journal;
mod left;
mod reading;
mod tail;
mod window;

pub use foreign::foreign_bytes;
pub use frame::Frame;
pub use journal::Journal;
pub use left::Left;
