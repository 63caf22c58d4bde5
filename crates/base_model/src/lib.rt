//! The lower half of the model: what a base says, and what a config spec says and selects.
//!
//! What it is for: the definitions on which every look-up in a base rests, and the lemmas about them that several crates cite.
//! What commands do, which histories are legal and what a build is worth is said in `legal_history`, over these.
//!
//! What it promises: nothing by itself. The laws of a base are in `legal_history::laws::bases`, those of config specs in
//! `spec_text::laws`.
//!
//! What it stands on: `cc_names` for plain data, names and the changes of the indexes, and `date_text` for the dates of rules.
#![tactic(auto)]

pub mod config_specs;
