//! The units of a build.

use crate::lists::List;
use crate::paths::Path;
use crate::texts::Text;

/// The script of a unit, its macros expanded.
#[derive(Drop)]
pub enum UnitScript {
    /// The unit has none.
    Bare,
    /// It passes 65,536 bytes.
    TooLong,
    /// Its lines, each ended by a newline.
    Lines(Text),
}

/// What one script makes at one go: its targets, what they are made of, and the script.
#[derive(Drop)]
pub struct Unit {
    pub targets: List<Path>,
    pub prerequisites: List<Path>,
    pub script: UnitScript,
}
