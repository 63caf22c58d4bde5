//! Builds: from a clearmake command to the units that it runs, and what comes next for each of them.
//!
//! What it is for: `plan_build` decides a clearmake: which units its build has, over the files of its view, or why it is refused.
//! An `ActiveBuild` keeps what its units have come to; `step` says what comes next for a unit, `fetch_for_unit` what its script
//! finds at a path, `reusable` which object it may reuse in place of a run, and `released_units` which units can be driven once
//! it has its outcome. `publish_row` makes the row of what a run gave, `wink_row` that by which the view winks an object in, and
//! `reply_of` says what a build that has ended is replied.
//!
//! What it promises: a clearmake is decided as the model decides it, and what it begins is formed: the units, or the refusal in
//! their place, are those of the definition of the units of a build, for any makefile, macros and goals. An active build is the
//! model's, each step is one that the model lets the unit take, and what a script finds is what the model lets the unit see.
//! The row of a run, and the object that a unit may reuse, are those that the model has for the unit. A reply is the model's.
//!
//! What it stands on: `clearmake` for what builders on threads ask of a build, `make_text` for makefiles, `make_grammar` for
//! the definition of units, `make_graph` for the units of a makefile that was read, `view_lookup` for what a view sees,
//! `build_script` and `script_grammar` for scripts, `session_text` for the form of commands, `reply_text` for
//! digests, `legal_history` for the model of builds and of their replies, `cc_names` for paths, units and refusals.
#![tactic(auto)]

mod active;
mod begins;
mod ends;
mod fetches;
mod laws;
mod plans;
mod publishes;
mod releases;
mod replies;
mod reuse;
mod steps;
mod winks;

pub use active::{ActiveBuild, Came};
pub use begins::plan_build;
pub use fetches::fetch_for_unit;
pub use laws::a_unit_may_publish;
pub use publishes::publish_row;
pub use releases::released_units;
pub use replies::reply_of;
pub use reuse::reusable;
pub use steps::{UnitStep, step};
pub use winks::wink_row;
