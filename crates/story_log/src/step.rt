//! One step of a story, as it is told.

use cc_names::refusals::Refusal;
use cc_names::rows::{Row, Tag};
use cc_names::steps::{Counts, UnitEnd};
use cc_names::texts::Text;
use session_text::PhaseText;
use std::snapshot::Snapshot;
use vob_journal::Left;

/// A step after the opening of a base, other than a fault of the disk. What it names is there for contracts alone, and takes
/// no memory.
#[derive(Drop)]
pub enum Step {
    /// A phase began, at this moment.
    PhaseBegun {
        phase: Snapshot<PhaseText>,
        moment: u64,
    },
    /// A row was committed, acknowledged at this tick of the disk.
    Commit {
        row: Snapshot<Row>,
        tick: u64,
    },
    /// A command was refused.
    Refused {
        tag: Tag,
        refusal: Snapshot<Refusal>,
    },
    /// A query was answered, or there was nothing to scrub or to label.
    Answer {
        tag: Tag,
        text: Snapshot<Text>,
    },
    /// A build began, with its reference rows and its number of units.
    Begin {
        tag: Tag,
        rows: u64,
        units: u32,
    },
    /// A unit's script was handed out to be run.
    Start {
        tag: Tag,
        unit: u32,
    },
    /// A unit came to its outcome without a row.
    Concluded {
        tag: Tag,
        unit: u32,
        outcome: Snapshot<UnitEnd>,
    },
    /// A build ended.
    End {
        tag: Tag,
    },
}

/// A fault of the disk under this row: what it left, the disk's count of faults before, and its counts after.
#[derive(Drop)]
pub struct Fault {
    pub row: Snapshot<Row>,
    pub left: Left,
    pub before: u64,
    pub after: Counts,
}
