//! What a command does to a base, which histories are legal, and what a build is worth.
//!
//! What it is for: the definitions that every contract above speaks of, and the laws that users of the model may rely on. It has
//! no code of its own: each public function here has an empty body, and its contract is a law.
//!
//! What it promises: what a base says of its first rows never changes; catalogs are in order, an element is named by one
//! directory alone, and every object that a view holds is live; a row that is decided fits. Along a legal story the rows stay a
//! base, the base only grows, and ticks rise; each scrub lists exactly what is due, and each object that a view holds is live;
//! an active build goes on until its own end, and what a started unit sees never changes. Whatever a stop leaves of a legal
//! story is a base, and a sound one where the base was sound as it was opened. In a sound base an object that a unit may reuse
//! is worth the run of the unit's script, and a unit that keeps it or winks it in leaves its build as from nothing. So a build
//! that ends is as the build from nothing, unit by unit, whatever it reused, where the base was sound as it was opened. Where a
//! view covers a record, running the record again gives what it has stored. Which rows fit, which objects live and what
//! their records give when run again hang on no output, and soundness on none of a scrubbed object.
//!
//! What it stands on: `base_model` for what a base says, `cc_names` for plain data, names and the changes of the indexes,
//! `date_text` for dates, `make_grammar` for the units of a build, `script_grammar` for the runs of scripts, and `sha2` for
//! digests.
#![tactic(auto)]

pub mod laws;
