//! The base as a type, with all that is kept beside it to look things up: marks, trees of versions, labels, config specs, what
//! the objects that these name list, where the targets of large groups stand, and files that views were seen to have.
//!
//! What it is for: `Rows` is the base, `FirstRows` what its first rows were; `prepared` makes the next row ready, and a `LookUp`
//! tells what rows do to a thing, so that `newest` finds it. What views select is looked up over these in `view_lookup`.
//!
//! What it promises: `Rows` and `FirstRows` are bases of the model, the newest row first, by their types. Each answer is that of
//! the model's definition over the base, with no condition on it.
//!
//! What it stands on: `cc_names` for rows, `base_model` for the definitions, `version_tree` and `label_book` for the trees and
//! the labels.
#![tactic(auto)]

pub mod bases;
mod catalog_keys;
pub mod changed;
pub mod checkouts;
pub mod edits;
mod growth;
pub mod labels;
pub mod listings;
pub mod look_ups;
mod marks;
mod number_keys;
pub mod objects;
pub mod prepared;
mod row_keys;
pub mod seen_files;
mod skips;
pub mod subjects;
mod target_orders;
pub mod trees;
pub mod view_specs;
pub mod views;
mod walks;
