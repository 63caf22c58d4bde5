//! Queries about what a view sees: files, names and objects.
//!
//! What it is for: `catcs`, `cat`, `cat_version`, `ls` and `lsdo` answer a query's text, or its first refusal in the order of the
//! tests of its line.
//!
//! What it promises: the answer is the model's line of the query. A query makes no row.
//!
//! What it stands on: `view_lookup` for what a view sees and for the names of versions, `base_model` and `legal_history` for the
//! definitions, and `cc_names` for plain data.
#![tactic(auto)]

mod config_specs;
mod directory_texts;
mod file_texts;
mod held_objects;
mod lines;
mod listed_names;
mod sets;
mod version_texts;

pub use config_specs::catcs;
pub use directory_texts::ls;
pub use file_texts::cat;
pub use held_objects::lsdo;
pub use version_texts::cat_version;
