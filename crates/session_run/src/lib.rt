//! The top call: from the bytes of a session to the bytes of its replies.
//!
//! What it is for: `run_words` carries out what the words of a call ask for. `run` reads a session, opens a base, runs the
//! session's phases and writes their transcripts; `big` does so with a large session, and writes a summary; `verify` opens a base
//! and tells whether each live object is what its record gives when it is run again. The lanes of a phase run on threads once one
//! of them builds, and so do the units of each build. They take turns at the base, for one step of a build, a read of a script,
//! or up to 64 other commands, so other lanes' rows come between the steps of a build.
//!
//! What it promises: the headline of the product, in `specs/Promises/Headline.antt`, and when each status comes, in
//! `specs/Calls/Causes.antt`. The printed replies are those of one legal history, which holds each command once in its lane's
//! order; where the base that was opened is sound, every clearmake is replied as building from nothing is and its units have
//! their outcomes from nothing. Over any base each object that is reused has a record of just what its unit sees, none that
//! would do is passed over, each scrub lists exactly what is due, every object that a view holds is live, and a stop at any
//! device call finds what was acknowledged. That opens again, to a base that is sound where the opened one was, so that the
//! next call begins on a sound base (`laws`). A disk fault is reported where a call on the disk failed, and nowhere else, unless
//! the sink failed too or memory ran out. All this holds for each form of words, and in whatever order the threads take turns. A
//! check is told to be sound exactly where the base is. It is not promised that threads get on.
//!
//! What it stands on: `base_core` and `story_log` for the history, `object_check` for what a check finds, `large_session` for the
//! session of `big` and for summaries, `clearmake` and `turn_lock` for threads, `build_script` for what a script reads and how
//! its run ends, `disk_model` and `vob_journal` for the disk and what a stop finds there, `legal_history` for what a history
//! means, `view_lookup` for the order of its rows, `session_text` and `reply_text` for the texts, `cc_outside` for the source,
//! the sink and the clock, `arrayvec` and `itoa` for a line without memory, and `cc_names` for plain data.
#![tactic(auto)]

mod carrying;
mod checks;
mod failures;
pub mod laws;
mod lines;
mod phases;
mod run;
mod services;
mod sessions;
mod sites;
mod statuses;
mod threads;
mod transcripts;
mod words;

pub use run::{SessionResult, run_words};
pub use statuses::Status;
pub use words::{Form, form_of};
