//! The rows by which a unit of a lane's build gets an object: of what its run gave, or by which the build's view winks in one
//! that the unit may reuse.

use super::Core;
use build_core::{Came, a_unit_may_publish, publish_row, reusable, wink_row};
use cc_names::lists::List;
use cc_names::memory::NoMemory;
use cc_names::paths::Path;
use cc_names::replies::Reply;
use cc_names::rows::Row;
use cc_names::texts::Text;
use clearmake::TurnEnd;
use disk_model::Disk;
use legal_history::laws::builds::a_build_is_consistent;
use legal_history::laws::taken::what_is_found_after_the_start_is_not_held;
use std::alloc::Global;
use story_log::Appended;

impl<D: Disk> Core<D> {
    ghost use Rattle.std.specs.Prelude.{◌≡◌, Ok, OnErr, IfOk};
    ghost use Rattle.legal_history.specs.Stories.Steps.{state_of};
    ghost use Rattle.clearmake.specs.Calls.{IsCarried};
    ghost use Rattle.base_core.specs.Calls.BuildCalls.{GivesObject, HasRun, IsObjectRow, IsWinkRow, MayPublish, MayWink};
    ghost use Rattle.base_core.specs.Story.Counted.{KeepsCount};

    /// The row of what the run of a unit of a lane's build gave.
    fn object_row(
        &self,
        alloc: Global,
        lane: u32,
        unit: u32,
        outputs: List<Text>,
        reads: &[Path],
    ) -> Result<Row, NoMemory>
        requires { MayPublish (state_of self.now.story) lane unit outputs reads.now }
        ensures { IfOk result (λ row. IsObjectRow (state_of self.now.story) lane unit row) }
    {
        a_build_is_consistent();
        a_unit_may_publish();
        publish_row(
            alloc,
            &self.rows(),
            self.build_at(lane),
            unit,
            self.moment,
            outputs,
            reads,
        )
    }

    /// The row by which the view of a lane's build winks in an object for a unit.
    fn wink_row(&self, alloc: Global, lane: u32, unit: u32, object: u64) -> Result<Row, NoMemory>
        requires { MayWink (state_of self.now.story) lane unit object }
        ensures { IfOk result (λ row. IsWinkRow (state_of self.now.story) lane unit object row) }
    {
        wink_row(alloc, self.build_at(lane), self.moment, object)
    }

    /// Commits a row that gives a unit of a lane's build this object. Where the disk fails under it the build ends. An `Err`
    /// changes nothing.
    fn commit_unit_row(
        &mut self,
        alloc: Global,
        lane: u32,
        unit: u32,
        row: Row,
        object: u64,
    ) -> Result<TurnEnd, NoMemory>
        requires { GivesObject (state_of self.old.story) lane unit row object }
        ensures ok { IfOk result
            (λ end. IsCarried self.old.story self.new.story lane unit end) }
        ensures err { OnErr result (self.new ≡ self.old) }
        ensures counted { KeepsCount self.old self.new }
    {
        a_build_is_consistent();
        let tag = self.tag(lane);
        match self.log.append(alloc, row, Some(tag))? {
            Appended::Committed => {
                self.lanes.note(lane, unit, Came::Given(object));
                Ok(TurnEnd::Concluded)
            }
            Appended::Faulted => {
                self.lanes.close(lane, Reply::DiskFault);
                Ok(TurnEnd::Over)
            }
        }
    }

    /// Takes an object into the view of a lane's build for a unit, by its row. Where the disk fails the build ends. An `Err`
    /// changes nothing.
    pub(super) fn wink(
        &mut self,
        alloc: Global,
        lane: u32,
        unit: u32,
        object: u64,
    ) -> Result<TurnEnd, NoMemory>
        requires { MayWink (state_of self.old.story) lane unit object }
        ensures ok { IfOk result
            (λ end. IsCarried self.old.story self.new.story lane unit end) }
        ensures err { OnErr result (self.new ≡ self.old) }
        ensures counted { KeepsCount self.old self.new }
    {
        let row = self.wink_row(alloc, lane, unit, object)?;
        self.commit_unit_row(alloc, lane, unit, row, object)
    }

    /// Publishes what the run of a unit of a lane's build gave, by its row. Where the disk fails the build ends. An `Err`
    /// changes nothing.
    fn publish(
        &mut self,
        alloc: Global,
        lane: u32,
        unit: u32,
        outputs: List<Text>,
        reads: &[Path],
    ) -> Result<TurnEnd, NoMemory>
        requires { MayPublish (state_of self.old.story) lane unit outputs reads.now }
        ensures ok { IfOk result
            (λ end. IsCarried self.old.story self.new.story lane unit end) }
        ensures err { OnErr result (self.new ≡ self.old) }
        ensures counted { KeepsCount self.old self.new }
    {
        let row = self.object_row(alloc, lane, unit, outputs, reads)?;
        let object = self.rows().size();
        self.commit_unit_row(alloc, lane, unit, row, object)
    }

    /// Gives a unit of a lane's build whose run gave these outputs its object. Another lane may have published one meanwhile
    /// that the unit may reuse: that one is winked in. Else what the run gave is published. Where the disk fails the build
    /// ends. An `Err` changes nothing.
    pub(super) fn give_object(
        &mut self,
        alloc: Global,
        lane: u32,
        unit: u32,
        outputs: List<Text>,
        reads: &[Path],
    ) -> Result<TurnEnd, NoMemory>
        requires { HasRun (state_of self.old.story) lane unit
            (record { result = Ok outputs; reads = reads.now }) }
        ensures ok { IfOk result
            (λ end. IsCarried self.old.story self.new.story lane unit end) }
        ensures err { OnErr result (self.new ≡ self.old) }
        ensures counted { KeepsCount self.old self.new }
    {
        what_is_found_after_the_start_is_not_held();
        let found = reusable(alloc, &self.rows(), self.build_at(lane), unit)?;
        match found {
            Some(object) => self.wink(alloc, lane, unit, object),
            None => self.publish(alloc, lane, unit, outputs, reads),
        }
    }
}
