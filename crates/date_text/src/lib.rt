//! The civil form of a moment: `d-Mmm-yyyy.hh:mm:ss` in UTC.
//!
//! What it is for: a moment is a number of seconds since the beginning of 1970. People write one as a date, in the rules
//! of a config spec, and read one as a date in listings.
//!
//! What it promises: `read` gives a moment exactly for the dates of the years 1970 to 9999, and else the place of the
//! first field that is wrong; `print` gives the one date of a moment. Neither takes memory.
//!
//! What it stands on: `jiff_core`, the calendar of `jiff`.
#![tactic(auto)]

mod civil;
mod fields;
mod printing;
mod reading;

pub use printing::{DateText, print};
pub use reading::{BadDate, read};
