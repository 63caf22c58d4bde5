//! What builders and lanes ask of the base, which stands behind a lock as soon as threads are started.

ghost use Rattle.std.specs.Prelude.{◌≡◌, ◌<◌, ◌≤◌, ℕ, Some, IfOk, OnOk, OnErr};
ghost use Rattle.build_script.specs.Ended.{ran_of};
ghost use Rattle.cc_names.specs.declared.occasions.Next.TheVariants as nexts;
ghost use Rattle.legal_history.specs.Stories.Commanded.{next_command_of};
ghost use Rattle.legal_history.specs.Stories.Lawful.{Legal};
ghost use Rattle.legal_history.specs.Stories.States.{next_tag};
ghost use Rattle.legal_history.specs.Stories.Steps.{state_of};
ghost use Rattle.clearmake.specs.Calls.{Begins, IsBuilding, IsCarried, IsOver, IsRunOfUnit, LeavesActive, LeavesConcluded, Tries, WasStarted, released_units};
ghost use Rattle.clearmake.specs.Going.{Finishes};
ghost use Rattle.clearmake.specs.Nexts.{jobs_of, next_of_lane};
ghost use Rattle.clearmake.specs.FoundTexts.{IsFetched, sees};

use crate::turns::{TurnEnd, UnitTurn};
use build_script::files::Got;
use build_script::outcomes::Ended;
use cc_names::memory::NoMemory;
use cc_names::occasions::{Begun, Next};
use cc_names::paths::Path;
use cc_names::steps::StoryStep;
use std::alloc::Global;
use turn_lock::Storied;

/// A base with its story, by whose calls the commands of lanes are carried out. Each call is made within a turn at the value:
/// what it asks may have been found out at an earlier turn, and other threads take turns between any two turns of a thread.
pub trait BuildService: Storied<Step = StoryStep> {
    /// The story is legal, at every moment. A call does nothing: it is made for this promise.
    fn legal(&self)
        ensures { Legal (Self.story self.now) };

    /// What a lane has to do next.
    fn next(&self, lane: u32) -> Next
        ensures { result ≡ next_of_lane (state_of (Self.story self.now)) lane };

    /// Carries out a lane's next command, which builds nothing. An `Err` changes nothing.
    fn act(&mut self, alloc: Global, lane: u32) -> Result<(), NoMemory>
        requires { next_of_lane (state_of (Self.story self.old)) lane ≡ nexts.Act }
        ensures ok { OnOk result (Finishes (Self.story self.old) (Self.story self.new) lane) }
        ensures err { OnErr result (Self.story self.new ≡ Self.story self.old) };

    /// How many units at once a lane's next command, which builds, asks to have built.
    fn jobs(&self, alloc: Global, lane: u32) -> Result<u32, NoMemory>
        requires { next_of_lane (state_of (Self.story self.now)) lane
            ≡ nexts.Build (next_tag (state_of (Self.story self.now)) lane) }
        ensures asked { IfOk result
            (λ jobs. jobs_of (next_command_of (state_of (Self.story self.now)) lane) ≡ Some jobs) }
        ensures within { IfOk result (λ jobs. (1 ≤ jobs) × (jobs ≤ 64)) };

    /// Begins the build of a lane's next command and answers how many units it has, or refuses the command. A build that
    /// is active stays as it is. An `Err` changes nothing.
    fn begin(&mut self, alloc: Global, lane: u32) -> Result<Begun, NoMemory>
        requires { next_of_lane (state_of (Self.story self.old)) lane
            ≡ nexts.Build (next_tag (state_of (Self.story self.old)) lane) }
        ensures ok { IfOk result
            (λ begun. Begins (Self.story self.old) (Self.story self.new) lane begun) }
        ensures active { LeavesActive (Self.story self.old) (Self.story self.new) lane }
        ensures err { OnErr result (Self.story self.new ≡ Self.story self.old) };

    /// Tries a unit of a lane's build: it has its outcome, and nothing changes; or it gets one without a run, it waits for
    /// another, or its script is started. Where the disk fails the build ends. An `Err` changes nothing.
    fn try_unit(&mut self, alloc: Global, lane: u32, unit: u32) -> Result<UnitTurn, NoMemory>
        requires { (count : ℕ)
            × IsBuilding (state_of (Self.story self.old)) lane count × (unit < count) }
        ensures ok { IfOk result
            (λ turn. Tries (Self.story self.old) (Self.story self.new) lane unit turn) }
        ensures concluded { LeavesConcluded (Self.story self.old) (Self.story self.new) lane unit }
        ensures err { OnErr result (Self.story self.new ≡ Self.story self.old) };

    /// What a unit that was started finds at a path, which is the same at every moment since its start. Never broken.
    fn fetch(&self, alloc: Global, lane: u32, unit: u32, path: &Path) -> Got
        requires { WasStarted (state_of (Self.story self.now)) lane unit }
        ensures { IsFetched result (sees (state_of (Self.story self.now)) lane unit path.now) };

    /// Finishes a unit whose script was run on what the unit sees, which is the same at every moment since its start.
    /// Where it has its outcome already nothing changes. Where the disk fails the build ends. It never waits. An `Err` changes
    /// nothing.
    fn finish_unit(
        &mut self,
        alloc: Global,
        lane: u32,
        unit: u32,
        ended: Ended,
    ) -> Result<TurnEnd, NoMemory>
        requires { IsRunOfUnit (state_of (Self.story self.old)) lane unit (ran_of ended) }
        ensures ok { IfOk result
            (λ end. IsCarried (Self.story self.old) (Self.story self.new) lane unit end) }
        ensures concluded { LeavesConcluded (Self.story self.old) (Self.story self.new) lane unit }
        ensures err { OnErr result (Self.story self.new ≡ Self.story self.old) };

    /// The units that a unit's outcome has released, in their order: those without an outcome that need it, and of which
    /// every unit that they need has its outcome. Where it has none itself, none are.
    fn released_units(&self, alloc: Global, lane: u32, unit: u32) -> Result<Vec<u32>, NoMemory>
        requires { (count : ℕ)
            × IsBuilding (state_of (Self.story self.now)) lane count × (unit < count) }
        ensures { IfOk result
            (λ units. units.items ≡ released_units (state_of (Self.story self.now)) lane unit) };

    /// Ends a lane's build, whose units all have their outcomes. An `Err` changes nothing.
    fn end(&mut self, alloc: Global, lane: u32) -> Result<(), NoMemory>
        requires { IsOver (state_of (Self.story self.old)) lane }
        ensures ok { OnOk result (Finishes (Self.story self.old) (Self.story self.new) lane) }
        ensures err { OnErr result (Self.story self.new ≡ Self.story self.old) };
}

/// A service that stays in one phase, whose number its type fixes.
pub trait PhaseService: BuildService {
    ghost number: { ℕ };

    /// The last phase is the one of that number, at every moment.
    fn in_phase(&self)
        ensures { (state_of (Self.story self.now)).number ≡ number };
}
