//! The base as a type, and what views see in it: which views there are, their private files, their checkouts, their config
//! specs, the objects that they hold, and what stands at a path; which objects have the same targets; what the trees of versions
//! and the labels were, and who reserves a branch.
//!
//! What it is for: the look-ups on which every decision on a command and every build stand.
//!
//! What it promises: `Rows` and `FirstRows` are bases of the model, the newest row first, by their types. Each answer is that of
//! the model's definition over the base, with no condition on it. `first_rows` gives the base as it was at an earlier moment,
//! over which every look-up answers as of then.
//!
//! What it stands on: `cc_names` for rows, `base_model` and `legal_history` for the definitions, `version_tree` and `label_book`
//! for the trees and the labels, and `spec_text` for the rules of config specs and how they select.
#![tactic(auto)]

mod branch_names;
mod catalogs;
mod checkins;
mod closures;
mod directories;
mod directory_names;
mod fitting;
mod fitting_elements;
mod given_names;
mod history;
mod leaving;
mod merged;
mod merges;
mod named_versions;
mod owned;
mod picks;
mod pool;
mod preparing;
mod reservations;
mod scrubs;
mod seeing;
mod seen;
mod standings;
mod texts;
mod types;
mod version_names;

pub use base_rows::bases::{FirstRows, Rows, first_rows, row_at};
pub use base_rows::checkouts::{Checkout, checked_out, has_out, making};
pub use base_rows::labels::{has_label, holder, standing_labels};
pub use base_rows::listings::{is_publish, placed_by};
pub use base_rows::objects::{held_at_all, held_object, live_row, record_of, targets_of};
pub use base_rows::prepared::Prepared;
pub use base_rows::trees::{
    branch_of_version, is_latest, is_version_of, latest_beside, latest_version, name_of_branch,
    origin_of, version_id_of, version_numbered,
};
pub use base_rows::view_specs::{rules, spec_text};
pub use base_rows::views::{private, view_row};
pub use branch_names::{branch_named, has_branch};
pub use catalogs::{named_by_checkout, named_by_version};
pub use checkins::{
    branch_of, is_unreserved, may_check_in, may_reserve, other_reserver_beside, reserver_beside,
};
pub use closures::{InputTest, first_input};
pub use directories::{has_name, has_out_by_name, is_directory_element, is_file_element};
pub use directory_names::{add_name, names_given};
pub use fitting::{ROW_LIMIT, fits};
pub use given_names::rows_naming;
pub use history::{history_of, placed_on};
pub use leaving::branches_leaving;
pub use merged::arrows_into;
pub use merges::arrow_row;
pub use named_versions::version_named;
pub use owned::rows_owning;
pub use picks::pick;
pub use pool::{RecordTest, newest_object, publishes};
pub use preparing::prepare;
pub use reservations::{other_reserver, reserver};
pub use scrubs::{holds_one, is_held, may_be_scrubbed, winks_of};
pub use seeing::remember;
pub use seen::{at, file_at, is_directory, kind_of};
pub use standings::oldest_out;
pub use texts::{output_at, text_at, text_of};
pub use types::{is_branch_type, is_label_type, is_type_taken, kind_of_type};
pub use version_names::{branch_name, origin_name, push_at_version, replied_name, version_name};
