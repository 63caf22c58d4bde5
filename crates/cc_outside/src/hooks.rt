//! What runs of scripts ask before and after.

use cc_names::paths::Path;

/// What runs of scripts ask before and after, outside the lock of a base. A lane is given by its number, counted from 1, and
/// a unit of its build by the unit's first target. The calls have no answer and change nothing that a run gives.
pub trait Hook {
    /// A script is about to be run.
    fn enter(&self, lane: u32, unit: &Path);

    /// The run of a script has ended.
    fn leave(&self, lane: u32, unit: &Path);

    /// A script that runs is about to read a path.
    fn read(&self, lane: u32, unit: &Path, path: &Path);
}

/// A hook that does nothing.
#[derive(Drop)]
pub struct OpenHook;

impl Hook for OpenHook {
    fn enter(&self, _lane: u32, _unit: &Path) {}

    fn leave(&self, _lane: u32, _unit: &Path) {}

    fn read(&self, _lane: u32, _unit: &Path, _path: &Path) {}
}
