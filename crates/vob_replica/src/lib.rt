//! Replicas in the manner of ClearCase MultiSite.
//!
//! What it is for: sites that hold elements, branches, versions with a text of one word, and mastership, and that tell each other
//! by packets of operations. `runs::run` reads a text of events (`Event::read`), lets each happen (`Sites::step`) and writes the
//! replies (`showing`). A site (`replicas`) rests on epoch tables, the log of what it knows, the branches in it and its estimates
//! of others.
//!
//! What it promises: each event comes to what `specs/World.antt` defines, and the replies are those of that world. `laws` has
//! what holds of every world, as that sites with equal epoch tables show the same. README.md says which contract promises what.
//!
//! What it stands on: `cc_names`, and `indexmap` for the packets.
#![tactic(auto)]

pub mod branch;
mod branch_names;
pub mod branches;
mod changes;
pub mod estimates;
pub mod events;
pub mod laws;
pub mod logs;
mod masters;
pub mod needs;
pub mod operations;
pub mod packets;
mod reading;
pub mod replicas;
pub mod runs;
pub mod shared;
pub mod showing;
pub mod sites;
pub mod tables;
mod words;
