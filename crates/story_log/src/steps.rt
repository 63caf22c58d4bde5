//! The steps of a story, which contracts alone read.

ghost use Rattle.std.specs.Prelude.{◌≡◌, Bool, List, [], ◌∷◌, ◌++◌, option_map};
ghost use Rattle.std.specs.Option.{option_to_list};
ghost use Rattle.std.specs.Borrow.{ftrue};
ghost use Rattle.cc_names.specs.declared.steps.StoryStep.{StoryStep};
ghost use Rattle.cc_names.specs.declared.steps.StoryStep.TheVariants as story_steps;
ghost use Rattle.base_rows.specs.Order.{oldest_first};

use crate::step::{Fault, Step};
use cc_names::rows::{Row, Tag};
use cc_names::steps::Counts;
use std::marker::Model;
use std::snapshot::Snapshot;
use view_lookup::Rows;
use vob_journal::Left;

/// The steps told so far, oldest first. They take no memory, and to tell one does nothing at run time.
#[derive(Drop)]
pub struct Steps {
    pub ghost items: { List StoryStep },
}

impl Model for Steps {
    ghost also_owns = { λ _. ftrue };
}

impl Steps {
    ghost use Rattle.legal_history.specs.Stories.States.{hanging};
    ghost use Rattle.legal_history.specs.Stories.Steps.{state_of};
    ghost use Rattle.story_log.specs.Logging.Leaving.{left_row};
    ghost use Rattle.story_log.specs.Story.Telling.{told, told_fault};

    /// No step.
    pub fn new() -> Steps
        ensures { result.items ≡ [] }
    {
        Steps {}
    }

    /// The step that opens the base of these rows, on a disk that was handed in with these counts, and that models its device
    /// where contracts say so.
    pub fn opening(_rows: &Rows, _handed: &Counts) -> Steps
        ghost tells: { Bool }
        ensures { result.items
            ≡ story_steps.Opened (oldest_first _rows.now.base) _handed.now tells ∷ [] }
    {
        Steps {}
    }

    /// These steps, and another one after them.
    fn and(&self, _step: &Step) -> Steps
        ensures { result.items ≡ self.now.items ++ told _step.now ∷ [] }
    {
        Steps {}
    }

    /// These steps, and a fault after them.
    fn and_fault(&self, _fault: &Fault) -> Steps
        ensures { result.items ≡ self.now.items
            ++ told_fault (hanging (state_of self.now.items).ends) _fault.now ∷ [] }
    {
        Steps {}
    }

    /// Tells a step.
    pub fn tell(&mut self, step: &Step)
        ensures { self.new.items ≡ self.old.items ++ told step.now ∷ [] }
    {
        let steps = self.and(step);
        *self = steps;
    }

    /// Tells that a row was committed, acknowledged at this tick of the disk.
    pub fn tell_commit(&mut self, row: &Row, tick: u64)
        ensures { self.new.items ≡ self.old.items ++ story_steps.Commit row.now tick ∷ [] }
    {
        self.tell(&Step::Commit {
            row: Snapshot::of(row),
            tick,
        });
    }

    /// Tells that the disk failed under a row and left this, with its count of faults before and its counts after; and that the
    /// build with this tag ended, if it was one.
    pub fn tell_fault(
        &mut self,
        row: &Row,
        left: Left,
        before: u64,
        after: Counts,
        building: Option<Tag>,
    )
        ensures { self.new.items
            ≡ self.old.items
            ++ story_steps.Fault row.now.tag
            (left_row (hanging (state_of self.old.items).ends) row.now left)
            before after.faults after.ticks
            ∷ option_to_list (option_map story_steps.End building) }
    {
        let steps = self.and_fault(&Fault {
            row: Snapshot::of(row),
            left,
            before,
            after,
        });
        *self = steps;
        if let Some(tag) = building {
            self.tell(&Step::End { tag });
        }
    }
}
