//! The disk under a base: two files, the calls on them, and what a stop at any call may leave.
//!
//! What it is for: the trait `Disk` says what a device call does, so that a journal above can be proved against every
//! stop that the crash model allows. `FileDisk` is such a disk over two real files, `MemoryDisk` one in memory that tells
//! all that was done to it, fails where a test wants it, and gives an image of a stop at any call. The trait `Objects` is file 1
//! alone, for a store of objects that has the disk through its journal.
//!
//! What it promises: what a stop at a call leaves is a function of the list of the calls, so it never changes later. Each
//! call raises the ticks by one, and the faults exactly where it answers an error; the list tells which calls these are.
//!
//! What it stands on: cc_names. That real files follow the crash model is not proved.
#![tactic(auto)]

mod calls;
mod disk;
mod files;
mod images;
mod memory;
mod named;
mod objects;

pub use calls::{Call, TracedCall};
pub use cc_names::steps::Counts;
pub use disk::{Disk, DiskFault};
pub use files::{FileDisk, Place, Trouble};
pub use memory::MemoryDisk;
pub use objects::Objects;
