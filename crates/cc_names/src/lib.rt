//! The names, texts and plain data that every other crate speaks of.
//!
//! What it is for: one place for the types that cross crate borders, for how a text is cut into lines and a line into
//! words, for how a number and the name of a type are read, and for the keys by which hash maps look things up. A `Text`,
//! a `Name` and a `Path` are seen by contracts as their bytes, a `List` and `Rules` as their items, what is left of a text or
//! a line as the list of its lines or words; everything else here is plain data, whole from the first day: the rows of a base and
//! their deeds, the commands of a session, refusals and causes, replies, the steps of a story, the units of a build, and
//! the three kinds of change that the indexes above keep.
//!
//! What it promises: a `Name` or a `Path` is exactly bytes that meet the rule of names, and the reader of each answers
//! the first fault from the left; a `Row` keeps its form by its type; a copy equals what it was made of.
//!
//! What it stands on: the standard library alone.
#![tactic(auto)]

pub mod by_row;
pub mod changes;
pub mod commands;
mod comparisons;
pub mod copies;
pub mod cuts;
pub mod keys;
pub mod lists;
pub mod memory;
pub mod names;
pub mod numbers;
pub mod occasions;
pub mod paths;
mod refusal_copies;
pub mod refusals;
pub mod replies;
pub mod rows;
pub mod selection;
mod short_texts;
pub mod steps;
pub mod texts;
pub mod units;
