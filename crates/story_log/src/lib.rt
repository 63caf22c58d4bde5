//! The story of a base with its rows and phases, and the journal that keeps the rows.
//!
//! What it is for: a base is opened from the disk that keeps it, a row is committed, and what a session leaves is told. A `Log`
//! keeps rows, phases and the journal; it takes all memory for a row before it appends it, and the row joins the base once the
//! journal has acknowledged it. The steps of its story are there for contracts alone, and take no memory.
//!
//! What it promises, of the disk's content where the disk models its device: `open_log` opens the base that a disk stands for,
//! or says why not. `append` adds the step of a commit or of a fault, with what the disk's counts were; `tell` and
//! `begin_phase` add a step and touch no disk. A stop at any call of the disk since the base was opened finds the rows
//! committed before it, and besides at most the row that was under way or that a fault left; `settle` leaves the rows and no
//! more, and makes no device call unless the newest commit or fault is a fault. The calls of each are just those that its row
//! and the journal's tail ask for. The file of objects stays as it was. An `Err` for want of memory changes nothing. `History`
//! has the rows and steps of a story; that a story is legal is said by who tells it.
//!
//! What it stands on: `vob_journal`, `row_form` and `disk_model` for the disk, `legal_history` for the model,
//! `view_lookup` for the rows, `session_text` for phases, and `cc_names` for plain data.
#![tactic(auto)]

mod history;
pub mod laws;
mod logs;
mod opening;
mod step;
mod steps;

pub use history::History;
pub use logs::{Appended, Log};
pub use opening::{OpenCause, OpenFault, open_log};
pub use step::Step;
