//! The turn of a unit of a lane's build: what comes next for it, and its outcome once its script was run.

ghost use Rattle.std.specs.Prelude.{◌≡◌};
ghost use Rattle.build_core.specs.Comes.{came_of};
ghost use Rattle.legal_history.specs.Builds.Turns.{came_by_start};

use super::Core;
use build_core::{Came, UnitStep, step};
use build_script::outcomes::{Ended, Written};
use cc_names::memory::NoMemory;
use cc_names::refusals::{ScriptFault, UnitFault};
use cc_names::steps::UnitEnd;
use clearmake::{TurnEnd, UnitTurn};
use disk_model::Disk;
use legal_history::laws::builds::a_build_is_consistent;
use std::alloc::Global;
use std::snapshot::Snapshot;
use story_log::Step;

/// What a unit comes to by its start: where its script cannot be read, with this fault, that is its outcome.
fn came_by_start(fault: Option<ScriptFault>) -> Came
    ensures { came_of result ≡ came_by_start fault }
{
    match fault {
        None => Came::Started,
        Some(fault) => Came::Concluded(UnitEnd::Failed(UnitFault::Script(fault))),
    }
}

impl<D: Disk> Core<D> {
    ghost use Rattle.std.specs.Prelude.{◌≡◌, ◌<◌, ℕ, OnOk, OnErr, IfOk};
    ghost use Rattle.build_core.specs.Comes.{came_of};
    ghost use Rattle.build_script.specs.Ended.{ran_of};
    ghost use Rattle.legal_history.specs.Builds.Turns.{came_by_start};
    ghost use Rattle.legal_history.specs.Stories.Steps.{state_of};
    ghost use Rattle.clearmake.specs.Calls.{IsBuilding, IsCarried, IsRunOfUnit, Concludes, Tries};
    ghost use Rattle.base_core.specs.Calls.BuildCalls.{HasRun, MayConclude, MayStart, Noted, Notes, StepsTo};
    ghost use Rattle.base_core.specs.Story.Counted.{KeepsCount};
    ghost use Rattle.clearmake.specs.Going.{HasOutcome};
    ghost use Rattle.story_log.specs.Story.Telling.{told};

    /// Tells a step by which a unit of a lane's build comes to something without a row.
    fn note_step(&mut self, lane: u32, unit: u32, step: &Step, came: Came)
        requires { Notes (state_of self.old.story) lane unit (came_of came) (told step.now) }
        ensures noted { Noted self.old.story self.new.story lane unit (came_of came) }
        ensures counted { KeepsCount self.old self.new }
    {
        self.log.tell(step);
        self.lanes.note(lane, unit, came);
    }

    /// Concludes a unit of a lane's build without a row. Takes no memory.
    fn conclude(&mut self, lane: u32, unit: u32, end: UnitEnd)
        requires { MayConclude (state_of self.old.story) lane unit end }
        ensures concludes { Concludes self.old.story self.new.story lane unit }
        ensures counted { KeepsCount self.old self.new }
    {
        let tag = self.tag(lane);
        let outcome = Snapshot::of(&end);
        let step = Step::Concluded { tag, unit, outcome };
        self.note_step(lane, unit, &step, Came::Concluded(end));
    }

    /// Starts the script of a unit of a lane's build; one that cannot be read has this fault, and is the unit's outcome.
    fn start(&mut self, lane: u32, unit: u32, fault: Option<ScriptFault>)
        requires { MayStart (state_of self.old.story) lane unit fault }
        ensures noted { Noted self.old.story self.new.story lane unit (came_by_start fault) }
        ensures counted { KeepsCount self.old self.new }
    {
        let tag = self.tag(lane);
        let step = Step::Start { tag, unit };
        self.note_step(lane, unit, &step, came_by_start(fault));
    }

    /// Has at hand what a unit of a lane's build is likely to ask for. Changes no answer.
    fn look_ahead(&mut self, lane: u32, unit: u32)
        ensures { self.new ≡ self.old }
    {
        if let Some(build) = self.lanes.build(lane)
            && let Some(unit) = build.units().get(unit as usize)
        {
            self.log
                .remember(build.view(), build.rows(), unit.targets.as_slice());
        }
    }

    /// What comes next for a unit of a lane's build.
    fn step(&self, alloc: Global, lane: u32, unit: u32) -> Result<UnitStep, NoMemory>
        requires { (count : ℕ) × IsBuilding (state_of self.now.story) lane count × (unit < count) }
        ensures { IfOk result (λ next. StepsTo (state_of self.now.story) lane unit next) }
    {
        a_build_is_consistent();
        step(alloc, &self.rows(), self.build_at(lane), unit)
    }

    /// Takes the step that comes next for a unit of a lane's build. Where the disk fails the build ends. An `Err` changes
    /// nothing.
    fn take_step(&mut self, alloc: Global, lane: u32, unit: u32) -> Result<UnitTurn, NoMemory>
        requires { (count : ℕ) × IsBuilding (state_of self.old.story) lane count × (unit < count) }
        ensures ok { IfOk result (λ turn. Tries self.old.story self.new.story lane unit turn) }
        ensures err { OnErr result (self.new ≡ self.old) }
        ensures concluded { HasOutcome (state_of self.old.story) lane unit → self.new ≡ self.old }
        ensures counted { KeepsCount self.old self.new }
    {
        match self.step(alloc, lane, unit)? {
            UnitStep::Concluded => Ok(UnitTurn::End(TurnEnd::Concluded)),
            UnitStep::NotReady(earlier) => Ok(UnitTurn::End(TurnEnd::NotReady(earlier))),
            UnitStep::EndEarly(end) => {
                self.conclude(lane, unit, end);
                Ok(UnitTurn::End(TurnEnd::Concluded))
            }
            UnitStep::Keep(object) => {
                self.conclude(lane, unit, UnitEnd::Kept(object));
                Ok(UnitTurn::End(TurnEnd::Concluded))
            }
            UnitStep::Wink(object) => Ok(UnitTurn::End(self.wink(alloc, lane, unit, object)?)),
            UnitStep::Start(script, targets) => {
                self.start(lane, unit, None);
                Ok(UnitTurn::Run(script, targets))
            }
            UnitStep::Unreadable(fault) => {
                self.start(lane, unit, Some(fault));
                Ok(UnitTurn::End(TurnEnd::Concluded))
            }
            UnitStep::Run(script, targets) => Ok(UnitTurn::Run(script, targets)),
            UnitStep::Fail(fault) => {
                self.conclude(lane, unit, UnitEnd::Failed(UnitFault::Script(fault)));
                Ok(UnitTurn::End(TurnEnd::Concluded))
            }
        }
    }

    /// Tries a unit of a lane's build: it has its outcome already, and nothing changes; or it waits for another, it ends without
    /// a run, it keeps an object or the build's view winks one in for it, or its script is started; where it was started
    /// already, nothing changes, and its script is to be run again. Where the disk fails the build ends. An `Err` changes
    /// nothing. A commit and a fault have the disk's counts as `act` says; beside them no device call is made.
    ///
    /// Takes look-ups by the paths of the unit's prerequisites and targets, what `reusable` takes, and time linear in the script.
    pub fn try_unit(&mut self, alloc: Global, lane: u32, unit: u32) -> Result<UnitTurn, NoMemory>
        requires { (count : ℕ) × IsBuilding (state_of self.old.story) lane count × (unit < count) }
        ensures ok { IfOk result (λ turn. Tries self.old.story self.new.story lane unit turn) }
        ensures err { OnErr result (self.new ≡ self.old) }
        ensures concluded { HasOutcome (state_of self.old.story) lane unit → self.new ≡ self.old }
        ensures counted { KeepsCount self.old self.new }
    {
        self.look_ahead(lane, unit);
        self.take_step(alloc, lane, unit)
    }

    /// Gives a unit of a lane's build whose script was run its outcome: an object, or the script's fault. Where the disk fails
    /// the build ends. An `Err` changes nothing.
    fn finish_run(
        &mut self,
        alloc: Global,
        lane: u32,
        unit: u32,
        ended: Ended,
    ) -> Result<TurnEnd, NoMemory>
        requires { HasRun (state_of self.old.story) lane unit (ran_of ended) }
        ensures ok { IfOk result
            (λ end. IsCarried self.old.story self.new.story lane unit end) }
        ensures err { OnErr result (self.new ≡ self.old) }
        ensures counted { KeepsCount self.old self.new }
    {
        let Ended { result, reads } = ended;
        match result {
            Ok(outcome) => {
                let Written { outputs } = outcome;
                self.give_object(alloc, lane, unit, outputs, reads.as_slice())
            }
            Err(fault) => {
                self.conclude(lane, unit, UnitEnd::Failed(UnitFault::Script(fault)));
                Ok(TurnEnd::Concluded)
            }
        }
    }

    /// Finishes a unit of a lane's build whose script was run on what the unit sees, which is the same at every moment since its
    /// start: it gets an object, or it fails with the script's fault. What it may reuse by now is looked up once more, and
    /// winked in where there is any. Where the unit has its outcome already nothing changes. Where the disk fails the build ends.
    /// An `Err` changes nothing.
    ///
    /// Takes what `reusable` takes, and time linear in the outputs and the reads.
    pub fn finish_unit(
        &mut self,
        alloc: Global,
        lane: u32,
        unit: u32,
        ended: Ended,
    ) -> Result<TurnEnd, NoMemory>
        requires { IsRunOfUnit (state_of self.old.story) lane unit (ran_of ended) }
        ensures ok { IfOk result
            (λ end. IsCarried self.old.story self.new.story lane unit end) }
        ensures err { OnErr result (self.new ≡ self.old) }
        ensures concluded { HasOutcome (state_of self.old.story) lane unit → self.new ≡ self.old }
        ensures counted { KeepsCount self.old self.new }
    {
        if self.build_at(lane).has_outcome(unit) {
            return Ok(TurnEnd::Concluded);
        }
        self.finish_run(alloc, lane, unit, ended)
    }
}
