//! Which extents of the file of objects are taken, and where the next one goes.
//!
//! What it is for: large outputs of objects stand in file 1, each in an extent of its own. The store knows which extents are
//! taken, finds the lowest place where so many bytes are free, and gives an extent back. What lies between taken extents is
//! free, so holes that meet are one by themselves, and the end falls by itself where the last extent is given back.
//!
//! What it promises: no extent overlaps one that is taken. Each is placed at the lowest place where it fits. Taking and
//! placing take no memory, where room was reserved before, and giving back takes none.
//!
//! What it stands on: `cc_names`, and `disk_model` for the file. It knows of no derived objects, no rows and no journal.
#![tactic(auto)]

mod bytes;
mod places;
mod store;

pub use cc_names::rows::Extent;
pub use store::Store;
