//! Queries about what is recorded: the histories of elements, the records of objects, and what is left to be merged.
//!
//! What it is for: `describe`, `lshistory`, `lsvtree`, `catcr`, `diffcr`, `covers` and `findmerge` answer a query's text, or its
//! first refusal in the order of the tests of its line.
//!
//! What it promises: the answer is the model's line of the query. A query makes no row.
//!
//! What it stands on: `view_lookup` for what a view sees and for the names of versions, `base_model` and `legal_history` for the
//! definitions, `label_book` for the labels of an element, `date_text` for dates, and `cc_names` for plain data.
#![tactic(auto)]

mod bracketed;
mod covered_records;
mod descriptions;
mod elements_below;
mod found;
mod histories;
mod lines;
mod merges;
mod reached;
mod record_differences;
mod record_texts;
mod records;
mod row_names;
mod version_labels;
mod version_trees;

pub use covered_records::covers;
pub use descriptions::describe;
pub use histories::lshistory;
pub use merges::findmerge;
pub use record_differences::diffcr;
pub use record_texts::catcr;
pub use version_trees::lsvtree;
