//! The decision on each change: the commands that make a row, or find nothing to change.
//!
//! What it is for: `decide` answers a change's row, or its first refusal in the order of the tests of its line.
//!
//! What it promises: the answer is the model's decision on the change, and a row has the command's tag and moment.
//!
//! What it stands on: `view_lookup` for what a view sees, `legal_history` for the definitions,
//! `session_text` for the form of commands, `spec_text` for config specs, and `cc_names` for plain data.
#![tactic(auto)]

mod arrows;
mod branches;
mod checkins;
mod checkout_needs;
mod checkouts;
mod commands;
mod config_specs;
mod decisions;
mod elements;
mod found;
mod labels;
mod names;
mod needs;
mod objects;
mod recorded_labels;
mod removals;
mod room;
mod saves;
mod scrubs;
mod types;
mod views;

pub use commands::view_of;
pub use decisions::decide;
