//! The lanes of a phase, on threads once one of them builds.

ghost use Rattle.std.specs.Prelude.{◌≡◌, ◌≤◌, true, length, OnOk};
ghost use Rattle.legal_history.specs.Stories.States.{all_done};
ghost use Rattle.legal_history.specs.Stories.Steps.{state_of};
ghost use Rattle.clearmake.specs.Passes.{AreLanesDone};
ghost use Rattle.session_run.specs.Running.Since.{IsSince};
ghost use Rattle.session_run.specs.Story.Begun.{is_opened};

use crate::services::{Beginning, PhaseCore};
use base_core::Core;
use cc_names::memory::NoMemory;
use cc_outside::Hook;
use clearmake::run_phase;
use disk_model::Disk;
use legal_history::laws::later::a_lane_is_within_its_commands;
use std::alloc::Global;
use std::hash::RandomState;
use std::marker::{Brand, PhantomData};
use std::sync::Wait;
use std::thread::Threads;

/// What the phases of a session are run by: threads, memory, the keys for hashing, and the hook of the runs of scripts.
#[derive(Drop)]
pub(crate) struct Host<'a, R, G> {
    pub(crate) rt: &'a R,
    pub(crate) alloc: Global,
    pub(crate) hashing: RandomState,
    pub(crate) hook: &'a G,
}

/// Carries out the commands of the last phase, which has so many lanes, on threads once one builds, where `P` fixes how the core
/// stood as it had begun.
fn run_lanes_at<
    R: Threads + Wait + Sync,
    G: Hook + Sync,
    D: Disk + Send,
    P: Beginning + Send + Sync,
>(host: &Host<'_, R, G>, core: Core<D>, lanes: u32) -> (Core<D>, Result<(), NoMemory>)
    requires since { IsSince P.at core }
    requires all { lanes ≡ length (state_of core.story).phase.lanes }
    requires few { lanes ≤ 64 }
    ensures since { IsSince P.at result.0 }
    ensures finished { OnOk result.1
        (AreLanesDone result.0.story 1 lanes (state_of P.at.story).number) }
{
    let service: PhaseCore<D, P> = PhaseCore {
        core,
        of: PhantomData,
    };
    let (service, ran) = run_phase(host.rt, host.alloc, host.hashing, host.hook, service, lanes);
    let PhaseCore { core, of: _ } = service;
    (core, ran)
}

/// Carries out the commands of the last phase, the lanes in threads once one builds, and each build with builders of its own.
/// Fails where `run_phase` does, with commands left.
pub(crate) fn run_on_threads<R: Threads + Wait + Sync, G: Hook + Sync, D: Disk + Send>(
    host: &Host<'_, R, G>,
    core: Core<D>,
) -> (Core<D>, Result<(), NoMemory>)
    requires few { length (state_of core.story).phase.lanes ≤ 64 }
    requires opened { is_opened core.story ≡ true }
    ensures since { IsSince core result.0 }
    ensures finished { OnOk result.1 (all_done (state_of result.0.story) ≡ true) }
{
    a_lane_is_within_its_commands();
    let lanes = core.lanes() as u32;
    let (core, ran) = run_lanes_at::<R, G, D, Brand>(host, core, lanes);
    core.legal();
    (core, ran)
}
