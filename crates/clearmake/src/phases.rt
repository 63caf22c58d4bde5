//! A phase, from its first command to its last.

ghost use Rattle.std.specs.Prelude.{◌≡◌, ◌≤◌, length, OnOk};
ghost use mathlib.Core.List.{IsPrefix};
ghost use Rattle.legal_history.specs.Stories.Steps.{state_of};
ghost use Rattle.clearmake.specs.Passes.{AreLanesDone};

use crate::before_threads::act_before_threads;
use crate::contexts::PhaseContext;
use crate::lanes::run_lanes_twice;
use crate::services::PhaseService;
use cc_names::memory::NoMemory;
use cc_outside::Hook;
use std::alloc::Global;
use std::hash::RandomState;
use std::sync::Wait;
use std::thread::Threads;
use turn_lock::TurnLock;

/// The weight of the passes of a phase together: enough for 64 lanes with 64 builders each.
const WHOLE: u64 = 65_536;

/// Carries out the commands of the lanes of a service's phase, which has so many: on this thread until a lane comes to a build,
/// then the lanes in threads of their own, where each step is a turn at the service, and builds have builders of their own. Where
/// memory runs out among them, what is left is carried out once more, one lane after the other and each build by one builder.
///
/// The service comes back with a story that begins with its own. On `Ok` each lane has nothing left to do. `Err` where memory ran
/// out among all lanes and again for one by itself, or where there was none for the lock; a build that had begun stays active.
/// It need not return: it waits for the threads that it starts, and these wait for one another at the service.
pub fn run_phase<R: Threads + Wait + Sync, C: PhaseService + Send, G: Hook + Sync>(
    rt: &R,
    alloc: Global,
    hashing: RandomState,
    hook: &G,
    service: C,
    lanes: u32,
) -> (C, Result<(), NoMemory>)
    requires all { lanes ≡ length (state_of (C.story service)).phase.lanes }
    requires few { lanes ≤ 64 }
    ensures begins { IsPrefix (C.story service) (C.story result.0) }
    ensures finished { OnOk result.1 (AreLanesDone (C.story result.0) 1 lanes C.number) }
{
    let mut service = service;
    if act_before_threads(&mut service, alloc, lanes) || lanes == 0 {
        return (service, Ok(()));
    }
    match TurnLock::new(alloc, service, WHOLE) {
        Err(service) => (service, Err(NoMemory)),
        Ok((lock, pass)) => {
            let context = PhaseContext {
                rt,
                alloc,
                hashing,
                lock: &lock,
                hook,
            };
            let (pass, ran) = run_lanes_twice(&context, pass, lanes);
            (lock.close(pass), ran)
        }
    }
}
