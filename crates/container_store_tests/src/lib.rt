//! Tests of `container_store`, in a crate of their own so that `container_store` is proved apart from them.
//!
//! What it is for: where extents go, what giving one back joins, many of them at random, and their bytes.
//!
//! What it promises: nothing; it is only run.
//!
//! What it stands on: `container_store`; `vob_journal` and `disk_model` for the file of objects; `cc_names` for memory.
#![tactic(auto)]

#[cfg(test)]
mod tests;
