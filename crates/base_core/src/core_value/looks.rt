//! What a core looks at: its rows, and a lane's next command and build.

use super::Core;
use build_core::ActiveBuild;
use cc_names::commands::{Clearmake, Command};
use cc_names::memory::NoMemory;
use cc_names::occasions::{Next, Occasion};
use cc_names::rows::Tag;
use disk_model::Disk;
use session_text::Ahead;
use std::alloc::Global;
use view_lookup::FirstRows;

impl<D: Disk> Core<D> {
    ghost use Rattle.std.specs.Prelude.{◌≡◌, ◌<◌, ◌≤◌, ◌+◌, ◌^◌, true, Some, IfOk, IsSome, option_copied};
    ghost use Rattle.cc_names.specs.declared.commands.Command.TheVariants as commands;
    ghost use Rattle.cc_names.specs.declared.occasions.Next.TheVariants as nexts;
    ghost use Rattle.session_text.specs.Formed.{IsClearmake, IsCommand};
    ghost use Rattle.base_model.specs.Rows.{size};
    ghost use Rattle.legal_history.specs.Builds.Active.{Build, build_of, building, rows_reserved};
    ghost use Rattle.legal_history.specs.Stories.Commanded.{next_command_of};
    ghost use Rattle.legal_history.specs.Stories.Lawful.{Legal};
    ghost use Rattle.legal_history.specs.Stories.States.{next_tag};
    ghost use Rattle.legal_history.specs.Stories.Steps.{state_of};
    ghost use Rattle.base_core.specs.Calls.Building.{BuildInvariant};
    ghost use Rattle.base_core.specs.Keeping.CoreInvariants.{command_limit};
    ghost use Rattle.clearmake.specs.Nexts.{next_of_lane};

    /// The story is legal, at every moment.
    pub fn legal(&self)
        ensures { Legal self.now.story }
    {
        let _log = &self.log;
    }

    /// The base, all its rows.
    pub(super) fn rows(&self) -> FirstRows<'_>
        ensures { result ≡ (state_of self.now.story).base }
    {
        self.log.rows()
    }

    /// The tag of a lane's next command.
    pub(super) fn tag(&self, lane: u32) -> Tag
        requires { IsSome (next_command_of (state_of self.now.story) lane) }
        ensures { result ≡ next_tag (state_of self.now.story) lane }
    {
        Tag {
            phase: self.log.phases().len() as u32,
            lane,
            command: self.lanes.finished_count(lane) as u32 + 1,
        }
    }

    /// On what occasion the next command of a lane is decided, which names this view.
    pub(super) fn occasion(&self, lane: u32, view: &[u8]) -> Occasion
        requires { IsSome (next_command_of (state_of self.now.story) lane) }
        ensures tag { result.tag ≡ next_tag (state_of self.now.story) lane }
        ensures moment { result.moment ≡ (state_of self.now.story).moment }
        ensures busy { result.busy ≡ building (state_of self.now.story).active view.now }
        ensures taken { result.taken
            ≡ size (state_of self.now.story).base + rows_reserved (state_of self.now.story).active }
        ensures few { result.taken < 2 ^ 63 }
    {
        Occasion {
            tag: self.tag(lane),
            moment: self.moment,
            busy: self.lanes.building(view),
            taken: self.log.rows().size() + self.lanes.rows_reserved(),
        }
    }

    /// The next command of a lane that has one. Takes time linear in its lines and those before it that are left, and memory
    /// for it.
    pub(super) fn command(&self, alloc: Global, lane: u32) -> Result<Command, NoMemory>
        requires { IsSome (next_command_of (state_of self.now.story) lane) }
        ensures next { IfOk result
            (λ command. next_command_of (state_of self.now.story) lane ≡ Some command) }
        ensures formed { IfOk result (λ command. IsCommand command_limit command) }
    {
        let command = self.lanes.next(alloc, lane)?;
        Ok(command.unwrap())
    }

    /// The build that a lane's next command asks for. Takes what `command` takes.
    #[tactic(auto, using(crate::proofs::Acting::Commanded::builds_no_change, crate::proofs::Acting::Commanded::builds_no_query, crate::proofs::Building::UnitCalls::builds_waits))]
    pub(super) fn asked_build(&self, alloc: Global, lane: u32) -> Result<Clearmake, NoMemory>
        requires { next_of_lane (state_of self.now.story) lane
            ≡ nexts.Build (next_tag (state_of self.now.story) lane) }
        ensures next { IfOk result
            (λ asked. next_command_of (state_of self.now.story) lane
            ≡ Some (commands.Build asked)) }
        ensures formed { IfOk result (λ asked. IsClearmake command_limit asked) }
    {
        match self.command(alloc, lane)? {
            Command::Build(asked) => Ok(asked),
            _ => unreachable!(),
        }
    }

    /// What a lane has to do next. Takes constant time.
    pub fn next(&self, lane: u32) -> Next
        ensures { result ≡ next_of_lane (state_of self.now.story) lane }
    {
        match self.lanes.ahead(lane) {
            Ahead::Nothing => Next::Done,
            Ahead::Act => Next::Act,
            Ahead::Build => Next::Build(self.tag(lane)),
        }
    }

    /// The active build of a lane.
    pub(super) fn find_build(&self, lane: u32) -> Option<&ActiveBuild>
        ensures active { option_copied result ≡ build_of (state_of self.now.story).active lane }
        ensures kept { (build : Build) → build_of (state_of self.now.story).active lane ≡ Some build
            → BuildInvariant (state_of self.now.story) lane build }
    {
        self.lanes.build(lane)
    }

    /// The active build of a lane that builds.
    pub(super) fn build_at(&self, lane: u32) -> &ActiveBuild
        requires { IsSome (build_of (state_of self.now.story).active lane) }
        ensures active { build_of (state_of self.now.story).active lane ≡ Some result.now }
        ensures kept { BuildInvariant (state_of self.now.story) lane result.now }
        ensures legal { Legal self.now.story }
    {
        self.lanes.build_at(lane)
    }
}
