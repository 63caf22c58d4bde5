//! Sessions as text.
//!
//! What it is for: a session is a list of lines, which name phases, their lanes and the commands of each lane. `read`
//! reads one. What was read is kept as its text: its phases, their lanes and the commands of these are read again one by one as
//! they are asked for, which never finds a line that stands wrong.
//!
//! What it promises: a text is read as a session exactly where its grammar says so; else its first wrong line is answered with
//! the cause. What is read is well formed. What is asked of it is what the grammar gives. Reading takes time linear in the text.
//!
//! What it stands on: `cc_names` for the data, names and paths, and for the lines of a text and their words;
//! `indexmap` for the macros of a command line.
#![tactic(auto)]

mod bodies;
mod builds;
mod checks;
mod commands;
mod finding;
mod kinds;
mod lanes;
mod phases;
mod places;
mod sessions;
mod shapes;
mod words;

pub use lanes::{Ahead, CommandsLeft, LaneText};
pub use phases::{LanesLeft, PhaseText};
pub use sessions::{PhasesLeft, SessionText, read};
