//! The lanes of a phase: all at once, on threads; and once more, one after the other, where memory ran out.

ghost use Rattle.std.specs.Prelude.{◌≡◌, ◌<◌, ◌≤◌, ◌+◌, ◌-◌, ◌*◌, ◌^◌, OnOk};
ghost use Rattle.std.specs.Thread.{IsSync};
ghost use mathlib.Core.List.{IsPrefix};
ghost use Rattle.clearmake.specs.Laning.{HasActed, IsLaneTurn};
ghost use Rattle.clearmake.specs.Passes.{AreLanesDone, IsLaneDone, IsLater};

use crate::builds::build;
use crate::contexts::PhaseContext;
use crate::services::PhaseService;
use cc_names::memory::NoMemory;
use cc_names::occasions::Next;
use cc_names::rows::Tag;
use cc_outside::Hook;
use std::alloc::Global;
use std::sync::Wait;
use std::thread::{Threads, join};
use turn_lock::Pass;

/// How many commands that build nothing a lane carries out in one turn at most. Where others wait, a turn costs more than a
/// save without its syncs, and so many share that; the service is held meanwhile, their syncs included.
const COMMANDS_A_TURN: u32 = 64;

/// How many builders a build has at most: so many as a command may ask for.
const JOBS: u32 = 64;

/// What became of a lane's turn.
pub(crate) enum LaneTurn {
    /// As many commands as one turn has were carried out.
    Acted,
    /// Its next command, of this tag, is to be built, so many units at once.
    Build(Tag, u32),
    /// Nothing was left to do.
    Done,
    /// Memory ran out.
    OutOfMemory,
}

/// Carries out a lane's next commands as long as they build nothing, up to 64 in one turn at the service, and says why it stops:
/// the next one builds, there is none, the turn has had its commands, or memory ran out.
pub(crate) fn take_turn_at<T: PhaseService>(service: &mut T, alloc: Global, lane: u32) -> LaneTurn
    ensures begins { IsPrefix (T.story service.old) (T.story service.new) }
    ensures turn { IsLaneTurn result (T.story service.new) lane T.number }
    ensures acted { HasActed result (T.story service.old) (T.story service.new) lane }
{
    for carried in 0..COMMANDS_A_TURN {
        service.legal();
        service.in_phase();
        match service.next(lane) {
            Next::Done => return LaneTurn::Done,
            Next::Build(tag) => {
                return match service.jobs(alloc, lane) {
                    Ok(jobs) => LaneTurn::Build(tag, jobs),
                    Err(NoMemory) => LaneTurn::OutOfMemory,
                };
            }
            Next::Act => match service.act(alloc, lane) {
                Ok(()) => {}
                Err(NoMemory) => return LaneTurn::OutOfMemory,
            },
        }
    }
    LaneTurn::Acted
}

/// Takes a lane's turn at the service.
#[tactic(auto, using(crate::proofs::Steps::taken_grown))]
fn take_turn<R: Wait, T: PhaseService, G: Hook>(
    context: &PhaseContext<'_, R, T, G>,
    pass: Pass<T>,
    lane: u32,
) -> (Pass<T>, LaneTurn)
    requires own { pass.lock ≡ context.now.lock.now.id }
    ensures pass { IsLater pass result.0 }
    ensures turn { IsLaneTurn result.1 result.0.seen lane T.number }
{
    let (held, mut service) = context.lock.take(context.rt, pass);
    let turn = take_turn_at(&mut service, context.alloc, lane);
    (context.lock.give(held, service), turn)
}

/// Carries out the commands of a lane, one after the other, each build by so many builders at most. On `Ok` nothing is left to
/// do. `Err` where memory ran out: a build that had begun stays active, and a later call goes on with it.
fn run_lane<R: Threads + Wait + Sync, T: PhaseService + Send, G: Hook + Sync>(
    context: &PhaseContext<'_, R, T, G>,
    pass: Pass<T>,
    lane: u32,
    most: u32,
) -> (Pass<T>, Result<(), NoMemory>)
    requires own { pass.lock ≡ context.now.lock.now.id }
    requires weight { 64 ≤ pass.weight }
    requires most { 1 ≤ most }
    ensures pass { IsLater pass result.0 }
    ensures finished { OnOk result.1 (IsLaneDone result.0.seen lane T.number) }
{
    let mut pass = pass;
    for _ in context.rt.forever() {
        let (next, turn) = take_turn(context, pass, lane);
        pass = next;
        match turn {
            LaneTurn::Acted => {}
            LaneTurn::Done => return (pass, Ok(())),
            LaneTurn::OutOfMemory => return (pass, Err(NoMemory)),
            LaneTurn::Build(tag, jobs) => {
                let built = build(context, pass, tag, jobs.min(most));
                pass = built.pass;
                if !built.done {
                    return (pass, Err(NoMemory));
                }
            }
        }
    }
    unreachable!()
}

/// Carries out the commands of so many lanes, from the first on, half of them in another thread. On `Ok` nothing is left to do
/// in any. `Err` where memory ran out for one at least; the others went on.
pub(crate) fn run_lanes<R: Threads + Wait + Sync, T: PhaseService + Send, G: Hook + Sync>(
    context: &PhaseContext<'_, R, T, G>,
    pass: Pass<T>,
    first: u32,
    lanes: u32,
) -> (Pass<T>, Result<(), NoMemory>)
    requires own { pass.lock ≡ context.now.lock.now.id }
    requires lanes { (1 ≤ lanes) × (first + lanes < 2 ^ 32) }
    requires weight { (64 ≤ pass.weight) × (128 * (lanes - 1) ≤ pass.weight) }
    ensures pass { IsLater pass result.0 }
    ensures finished { OnOk result.1 (AreLanesDone result.0.seen first lanes T.number) }
{
    if lanes == 1 {
        return run_lane(context, pass, first, JOBS);
    }
    let others = lanes / 2;
    let here = lanes - others;
    let next = first + here;
    let (one, two) = context.lock.split(pass);
    // The closures hold what the context refers to, and not the context: then it is known that they may cross threads.
    let rt = context.rt;
    let alloc = context.alloc;
    let hashing = context.hashing;
    let lock = context.lock;
    let hook = context.hook;
    // Where no thread can be had the second one is carried out first.
    let ((two, others_ran), (one, ran)) = join(
        rt,
        || -> (Pass<T>, Result<(), NoMemory>)
            requires own { IsSync R.row × (two.lock ≡ lock.now.id) }
            requires lanes { (1 ≤ others) × (next + others < 2 ^ 32) }
            requires weight { (64 ≤ two.weight) × (128 * (others - 1) ≤ two.weight) }
            ensures pass { IsLater two result.0 }
            ensures finished { OnOk result.1 (AreLanesDone result.0.seen next others T.number) }
        {
            let context = PhaseContext {
                rt,
                alloc,
                hashing,
                lock,
                hook,
            };
            run_lanes(&context, two, next, others)
        },
        || -> (Pass<T>, Result<(), NoMemory>)
            requires own { IsSync R.row × (one.lock ≡ lock.now.id) }
            requires lanes { (1 ≤ here) × (first + here < 2 ^ 32) }
            requires weight { (64 ≤ one.weight) × (128 * (here - 1) ≤ one.weight) }
            ensures pass { IsLater one result.0 }
            ensures finished { OnOk result.1 (AreLanesDone result.0.seen first here T.number) }
        {
            let context = PhaseContext {
                rt,
                alloc,
                hashing,
                lock,
                hook,
            };
            run_lanes(&context, one, first, here)
        },
    );
    (lock.join(one, two), ran.and(others_ran))
}

/// Carries out the commands of so many lanes one lane after the other, on this thread, each build by one builder: so no memory
/// is taken for threads, for deques or for more than one script. On `Ok` nothing is left to do in any. `Err` where memory ran
/// out for one, which ends it.
fn run_lanes_apart<R: Threads + Wait + Sync, T: PhaseService + Send, G: Hook + Sync>(
    context: &PhaseContext<'_, R, T, G>,
    pass: Pass<T>,
    lanes: u32,
) -> (Pass<T>, Result<(), NoMemory>)
    requires own { pass.lock ≡ context.now.lock.now.id }
    requires lanes { lanes ≤ 64 }
    requires weight { 64 ≤ pass.weight }
    ensures pass { IsLater pass result.0 }
    ensures finished { OnOk result.1 (AreLanesDone result.0.seen 1 lanes T.number) }
{
    let mut pass = pass;
    for index in 0..lanes {
        let (next, ran) = run_lane(context, pass, index + 1, 1);
        pass = next;
        if ran.is_err() {
            return (pass, ran);
        }
    }
    (pass, Ok(()))
}

/// Carries out the commands of the lanes of a phase, all at once; and where memory ran out, what is left of them one lane after
/// the other. On `Ok` nothing is left to do in any. `Err` where memory ran out a second time.
pub(crate) fn run_lanes_twice<R: Threads + Wait + Sync, T: PhaseService + Send, G: Hook + Sync>(
    context: &PhaseContext<'_, R, T, G>,
    pass: Pass<T>,
    lanes: u32,
) -> (Pass<T>, Result<(), NoMemory>)
    requires own { pass.lock ≡ context.now.lock.now.id }
    requires lanes { (1 ≤ lanes) × (lanes ≤ 64) }
    requires weight { (64 ≤ pass.weight) × (128 * (lanes - 1) ≤ pass.weight) }
    ensures pass { IsLater pass result.0 }
    ensures finished { OnOk result.1 (AreLanesDone result.0.seen 1 lanes T.number) }
{
    let (pass, ran) = run_lanes(context, pass, 1, lanes);
    if ran.is_ok() {
        return (pass, ran);
    }
    run_lanes_apart(context, pass, lanes)
}
