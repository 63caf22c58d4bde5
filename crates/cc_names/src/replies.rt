//! What a command is answered.

use crate::lists::List;
use crate::paths::Path;
use crate::refusals::{Refusal, UnitFault};
use crate::texts::Text;

/// The length and the SHA-256 of an output.
#[derive(Clone, Copy, Debug, PartialEq, Eq)]
pub struct Digest {
    /// In bytes.
    pub length: u64,
    /// The SHA-256 (FIPS 180-4).
    pub sha256: [u8; 32],
}

/// The outcome of a unit of a build, as its reply line has it.
#[derive(Drop)]
pub enum UnitWord {
    /// The view's own object was kept.
    Kept(Digest),
    /// An object that another build made was taken.
    Winked(Digest),
    /// The script ran; printed `built`.
    Made(Digest),
    /// A unit without a script; printed `made`.
    Bare,
    /// It failed, for this reason.
    Failed(UnitFault),
    /// A prerequisite failed or was blocked.
    Blocked(Path),
}

/// The line of a unit that has no object, or of one target of a unit that has one.
#[derive(Drop)]
pub struct UnitLine {
    /// The target.
    pub path: Path,
    /// What the unit came to.
    pub word: UnitWord,
}

/// The reply to a command.
#[derive(Drop)]
pub enum Reply {
    /// A row was committed.
    Good,
    /// A row was committed that made or took out this version, named in full.
    Version(Text),
    /// A row was committed, or none was needed, with this number of things.
    Count(u64),
    /// The command was refused, and changed nothing.
    Refused(Refusal),
    /// The disk failed under the command.
    DiskFault,
    /// The text of a query.
    Answer(Text),
    /// A build that ended: a line for each target of a unit that has an object, and one for each other unit.
    Built(List<UnitLine>),
}
