//! Config specs: the text that says which versions a view selects, and how its rules select them.
//!
//! What it is for: `read_rules` reads a view's config spec as rules, and `Matches` says whether a rule's pattern matches a path.
//! Every look-up of a path in a view asks `pick_from`, name by name, which version of an element stands there. `laws` has what
//! users may rely on whatever the rules are.
//!
//! What it promises: a text is read as rules exactly where its grammar says so, and else its first wrong line is answered
//! with the cause; a pattern matches exactly the paths of its definition. `pick_from` answers what the definition of config specs
//! gives over whatever answers the queries of `Selectable`; it takes no memory.
//!
//! What it stands on: `base_model` for the definitions, `cc_names` for patterns and rules as data, and for the lines of a text
//! and their words; `date_text` for dates.
#![tactic(auto)]

mod branches;
pub mod laws;
mod lines;
mod matching;
mod options;
mod parts;
mod patterns;
mod picks;
mod selectable;
mod selectors;
mod specs;

pub use patterns::Matches;
pub use picks::pick_from;
pub use selectable::Selectable;
pub use specs::read_rules;
