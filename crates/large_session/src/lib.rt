//! The large session: one that is stated by two numbers.
//!
//! What it is for: builds of many units by many views at once, which anyone can have again from a seed and a size.
//! `make_session` writes it as the text of a session, and `summary` tells of what it was replied in five lines, which are the
//! same at each run on an empty base.
//!
//! What it promises: the text is that of the definition (`large_session`, `specs/LargeSession.antt`), byte by byte, for
//! every seed and size, in time and memory linear in it; and so is a summary (`summary`, `specs/Summaries.antt`), for whatever
//! transcripts.
//!
//! What it stands on: `cc_names`, for texts, their lines and words, and for numbers in decimal digits; `sha2` and `hex`, for the
//! digest.
#![tactic(auto)]

mod draws;
mod sessions;
mod summaries;

pub use sessions::make_session;
pub use summaries::summary;
