//! The steps of a story: what happened of the base, one event after the other.

use crate::commands::Phase;
use crate::lists::List;
use crate::paths::Path;
use crate::refusals::{Refusal, UnitFault};
use crate::rows::{Row, Tag};
use crate::texts::Text;

/// The outcome of a unit that commits no row.
#[derive(Drop)]
pub enum UnitEnd {
    /// The view's object at the target was kept.
    Kept(u64),
    /// It failed, for this reason.
    Failed(UnitFault),
    /// A prerequisite failed or was blocked.
    Blocked(Path),
    /// A unit without a script.
    Bare,
}

/// The number of device calls that a disk has made, and of faults that it has met. Each ends at 2^64 - 1.
#[derive(Clone, Copy, Debug, PartialEq, Eq)]
pub struct Counts {
    /// The device calls.
    pub ticks: u64,
    /// The calls that failed.
    pub faults: u64,
}

/// One step of a story.
#[derive(Drop)]
pub enum StoryStep {
    /// The opened rows, from row 1 on; the disk's counts as it was handed in; and whether it models its content.
    Opened {
        rows: List<Row>,
        counts: Counts,
        tells: bool,
    },
    /// A phase began, at this moment.
    PhaseBegun {
        phase: Phase,
        moment: u64,
    },
    /// A row was committed, acknowledged at this tick of the disk.
    Commit {
        row: Row,
        tick: u64,
    },
    /// A command was refused.
    Refused {
        tag: Tag,
        refusal: Refusal,
    },
    /// A command was answered without a row.
    Answer {
        tag: Tag,
        text: Text,
    },
    /// A build began.
    Begin {
        tag: Tag,
        rows: u64,
        units: u32,
    },
    /// A unit's script was handed out to be run.
    Start {
        tag: Tag,
        unit: u32,
    },
    /// A unit came to its outcome without a row.
    Concluded {
        tag: Tag,
        unit: u32,
        outcome: UnitEnd,
    },
    /// A build ended.
    End {
        tag: Tag,
    },
    /// The disk failed under a command.
    Fault {
        tag: Tag,
        left: Option<Row>,
        before: u64,
        after: u64,
        tick: u64,
    },
}
