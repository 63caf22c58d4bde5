//! How a build of a core's lane begins and ends.

use super::Core;
use build_core::{ActiveBuild, plan_build, reply_of};
use cc_names::memory::{NoMemory, Or};
use cc_names::occasions::Begun;
use cc_names::refusals::Refusal;
use disk_model::Disk;
use std::alloc::Global;
use story_log::Step;

impl<D: Disk> Core<D> {
    ghost use Rattle.std.specs.Prelude.{◌≡◌, OnOk, OnErr, IfOk, Some, None, length};
    ghost use Rattle.cc_names.specs.declared.occasions.Begun.TheVariants as begins;
    ghost use Rattle.cc_names.specs.declared.occasions.Next.TheVariants as nexts;
    ghost use Rattle.legal_history.specs.Builds.Active.{Build, build_of};
    ghost use Rattle.legal_history.specs.Stories.States.{next_tag};
    ghost use Rattle.legal_history.specs.Stories.Steps.{state_of};
    ghost use Rattle.clearmake.specs.Calls.{Begins, IsOver};
    ghost use Rattle.base_core.specs.Calls.Building.{IsNextBuild, PlansNext};
    ghost use Rattle.base_core.specs.Story.Counted.{KeepsCount};
    ghost use Rattle.clearmake.specs.Going.{Finishes};
    ghost use Rattle.clearmake.specs.Nexts.{next_of_lane};

    /// What is decided of a lane's next command, which builds: the build to begin, or the first refusal.
    fn plan(&self, alloc: Global, lane: u32) -> Result<ActiveBuild, Or<Refusal>>
        requires builds { next_of_lane (state_of self.now.story) lane
            ≡ nexts.Build (next_tag (state_of self.now.story) lane) }
        requires free { build_of (state_of self.now.story).active lane ≡ None }
        ensures { PlansNext (state_of self.now.story) (next_tag (state_of self.now.story) lane)
            result }
    {
        let asked = self.asked_build(alloc, lane)?;
        let occasion = self.occasion(lane, asked.view.as_bytes());
        plan_build(alloc, self.hashing, &self.rows(), &asked, occasion)
    }

    /// Begins the build that was decided for the next command of its lane. Takes no memory.
    fn open_build(&mut self, build: ActiveBuild)
        requires { IsNextBuild (state_of self.old.story) build }
        ensures begins { Begins self.old.story self.new.story build.tag.lane
            (begins.Units (length build.units)) }
        ensures counted { KeepsCount self.old self.new }
    {
        let tag = build.tag();
        let step = Step::Begin {
            tag,
            rows: build.rows(),
            units: build.units().len() as u32,
        };
        self.log.tell(&step);
        self.lanes.open(tag.lane, build);
    }

    /// Begins the build of a lane's next command and answers how many units it has, or refuses the command. A build that is
    /// active stays as it is. An `Err` changes nothing. Makes no device call. Takes time linear in the makefile.
    pub fn begin(&mut self, alloc: Global, lane: u32) -> Result<Begun, NoMemory>
        requires { next_of_lane (state_of self.old.story) lane
            ≡ nexts.Build (next_tag (state_of self.old.story) lane) }
        ensures ok { IfOk result (λ begun. Begins self.old.story self.new.story lane begun) }
        ensures err { OnErr result (self.new ≡ self.old) }
        ensures active { (build : Build)
            → build_of (state_of self.old.story).active lane ≡ Some build
            → self.new ≡ self.old }
        ensures counted { KeepsCount self.old self.new }
    {
        if let Some(build) = self.find_build(lane) {
            return Ok(Begun::Units(build.units().len() as u32));
        }
        let tag = self.tag(lane);
        match self.plan(alloc, lane) {
            Ok(build) => {
                let count = build.units().len() as u32;
                self.open_build(build);
                Ok(Begun::Units(count))
            }
            Err(Or::Is(refusal)) => {
                self.refuse(tag, refusal);
                Ok(Begun::Refused)
            }
            Err(Or::NoMemory) => Err(NoMemory),
        }
    }

    /// Ends a lane's build, whose units all have their outcomes; its command is finished. An `Err` changes nothing. Makes no
    /// device call. Takes what `reply_of` takes.
    pub fn end(&mut self, alloc: Global, lane: u32) -> Result<(), NoMemory>
        requires { IsOver (state_of self.old.story) lane }
        ensures ok { OnOk result (Finishes self.old.story self.new.story lane) }
        ensures err { OnErr result (self.new ≡ self.old) }
        ensures counted { KeepsCount self.old self.new }
    {
        let tag = self.tag(lane);
        let reply = reply_of(alloc, &self.rows(), self.build_at(lane))?;
        let step = Step::End { tag };
        self.log.tell(&step);
        self.lanes.close(lane, reply);
        Ok(())
    }
}
