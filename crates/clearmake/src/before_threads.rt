//! What a phase does before it starts threads: until a lane's turn comes to a build, this thread carries out the commands of all
//! lanes. Others would gain nothing, since one thread at a time has the service, and what a turn looks up would mostly have been
//! written last on another processor.

ghost use Rattle.std.specs.Prelude.{◌≡◌, ◌≤◌, ◌↔◌, IsTrue};
ghost use Rattle.std.specs.Bool.{OnTrue};
ghost use Rattle.legal_history.specs.Stories.Steps.{state_of};
ghost use Rattle.clearmake.specs.Nexts.{AnyBuilds};
ghost use mathlib.Core.List.{IsPrefix};
ghost use Rattle.clearmake.specs.Passes.{AreLanesDone};

use crate::lanes::{LaneTurn, take_turn_at};
use crate::services::PhaseService;
use cc_names::occasions::Next;
use std::alloc::Global;

/// How many lanes a phase has at most.
const LANES: usize = 64;

/// How many rounds there are at most. No phase comes to so many; were one to, the threads would go on.
const ROUNDS: u32 = u32::MAX;

/// What a round came to.
#[derive(Drop)]
enum Round {
    /// Commands were carried out, and there may be more.
    Acted,
    /// No lane that took its turn carried out as many commands as one turn has.
    Spent,
    /// A lane's next command builds.
    Builds,
}

/// Whether a lane that is not set aside has a command next that builds.
fn any_builds<T: PhaseService>(service: &T, lanes: u32, aside: &[bool; LANES]) -> bool
    requires { lanes ≤ 64 }
    ensures { IsTrue result ↔ AnyBuilds (state_of (T.story service.now)) lanes aside.now }
{
    for index in 0..lanes {
        if !aside[index as usize] {
            if let Next::Build(_) = service.next(index + 1) {
                return true;
            }
        }
    }
    false
}

/// Whether no lane has anything left to do.
fn are_done<T: PhaseService>(service: &T, lanes: u32) -> bool
    ensures { OnTrue result (AreLanesDone (T.story service.now) 1 lanes T.number) }
{
    service.legal();
    service.in_phase();
    for index in 0..lanes {
        match service.next(index + 1) {
            Next::Done => {}
            _ => return false,
        }
    }
    true
}

/// A round: each lane that is not set aside takes its turn, until one comes to a build. A lane is set aside that has nothing
/// left to do, since it may take long to look past its last command again and again, and one for which memory ran out.
fn take_turns<T: PhaseService>(
    service: &mut T,
    alloc: Global,
    lanes: u32,
    aside: &mut [bool; LANES],
) -> Round
    requires { lanes ≤ 64 }
    ensures { IsPrefix (T.story service.old) (T.story service.new) }
{
    let mut round = Round::Spent;
    for index in 0..lanes {
        if !aside[index as usize] {
            match take_turn_at(service, alloc, index + 1) {
                LaneTurn::Acted => round = Round::Acted,
                LaneTurn::Done | LaneTurn::OutOfMemory => aside[index as usize] = true,
                LaneTurn::Build(_, _) => return Round::Builds,
            }
        }
    }
    round
}

/// Carries out the commands of so many lanes until a lane comes to a build. True where nothing is left to do in any; else there
/// may be something: a build is ahead, or memory ran out.
pub(crate) fn act_before_threads<T: PhaseService>(
    service: &mut T,
    alloc: Global,
    lanes: u32,
) -> bool
    requires { lanes ≤ 64 }
    ensures begins { IsPrefix (T.story service.old) (T.story service.new) }
    ensures finished { OnTrue result (AreLanesDone (T.story service.new) 1 lanes T.number) }
{
    let mut aside = [false; LANES];
    for _ in 0..ROUNDS {
        if any_builds(service, lanes, &aside) {
            return false;
        }
        match take_turns(service, alloc, lanes, &mut aside) {
            Round::Acted => {}
            Round::Spent => return are_done(service, lanes),
            Round::Builds => return false,
        }
    }
    false
}
