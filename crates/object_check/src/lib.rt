//! Whether each live object of a base is what its record gives when it is run again.
//!
//! What it is for: the answer to the question whether a base is sound, as a user asks it of one that comes from elsewhere.
//!
//! What it promises: `verify` answers how many objects are live where each is true, by the model's definition, else the first
//! that is not. It changes nothing, and only want of memory stops it.
//!
//! What it stands on: `view_lookup` for the base, `build_script` for runs of scripts, `legal_history` and `script_grammar` for
//! the definitions, `cc_names` for paths, texts and rows.
#![tactic(auto)]

mod checks;
mod entry_files;
mod needs;
mod reruns;
mod values;
mod verdicts;
mod verifying;

pub use verdicts::Verdict;
pub use verifying::verify;
