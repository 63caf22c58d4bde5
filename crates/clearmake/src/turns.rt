//! What became of a unit's turn.

use build_script::scripts::Script;
use cc_names::lists::List;
use cc_names::paths::Path;

/// What became of the turn of a unit of a lane's build.
#[derive(Drop)]
pub enum UnitTurn {
    /// The turn ended so, and there is nothing to run.
    End(TurnEnd),
    /// Its script was started: the script, and the targets that a run is to write.
    Run(Script, List<Path>),
}

/// How the turn of a unit of a lane's build ended.
#[derive(Clone, Copy, Debug, PartialEq, Eq)]
pub enum TurnEnd {
    /// The unit has its outcome.
    Concluded,
    /// It waits for this earlier unit, which makes one of its prerequisites.
    NotReady(u32),
    /// Its build is over, and the command finished: as where the disk failed under it.
    Over,
}
