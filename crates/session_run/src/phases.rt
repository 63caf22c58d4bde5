//! The phases of a session, one after the other.

ghost use Rattle.std.specs.Prelude.{◌≡◌, ◌≤◌, ◌<◌, ◌+◌, ◌^◌, ℕ, IfOk, IfErr, IfSome, OnOk, OnErr, length, true, min, Bool};
ghost use Rattle.std.specs.Io.KnownBytes.{Appends};
ghost use Rattle.cc_names.specs.Counts.{raised_count};
ghost use Rattle.cc_outside.specs.Feeds.{AppendsPrefix};
ghost use Rattle.cc_outside.specs.Moments.{moment_at};
ghost use Rattle.legal_history.specs.Stories.States.{all_done};
ghost use Rattle.legal_history.specs.Stories.Steps.{state_of};
ghost use Rattle.legal_history.specs.Stories.Lawful.{last_moment};
ghost use Rattle.base_core.specs.Story.Counted.{KeepsCount};
ghost use Rattle.base_core.specs.Story.Replying.{replies_of};
ghost use Rattle.session_run.specs.Calls.Causes.{SinkRests};
ghost use Rattle.session_run.specs.Running.Phases.{RunsPhase, LeavesPhase};
ghost use Rattle.session_run.specs.Running.Runs.{outside_of, IsJustOpened, IsReadyPhase, IsRunnable, HasRunPhases, IsRunGivenUp, CountsWriteFaults, WritesCut};
ghost use Rattle.session_run.specs.Story.Begun.{first_step, is_opened};
ghost use Rattle.session_run.specs.Story.Rendered.{transcript};

use crate::failures::any_failed;
use crate::threads::{Host, run_on_threads};
use crate::transcripts::transcript;
use base_core::Core;
use cc_names::memory::{NoMemory, Or};
use cc_names::rows::LAST_MOMENT;
use cc_outside::{Clock, Hook, Sink, WriteFault, write_whole};
use disk_model::Disk;
use session_text::PhaseText;
use std::alloc::Global;
use std::sync::Wait;
use std::thread::Threads;

/// The moment now, none above the last one of the year 9999.
fn moment_of<C: Clock>(clock: &mut C) -> u64
    ensures capped { result ≤ last_moment }
    ensures moment { IfSome (C.ghost_state clock.old).modeled
        (λ moments. result
        ≡ min (moment_at moments (C.ghost_state clock.old).readings) last_moment) }
    ensures list { (C.ghost_state clock.new).modeled ≡ (C.ghost_state clock.old).modeled }
    ensures counted { (C.ghost_state clock.new).readings
        ≡ raised_count (C.ghost_state clock.old).readings 1 }
{
    clock.now().min(LAST_MOMENT)
}

/// Begins a phase and carries out its commands, its lanes on threads once one builds. The core comes back in every case.
fn run_commands<R: Threads + Wait + Sync, G: Hook + Sync, D: Disk + Send>(
    host: &Host<'_, R, G>,
    core: Core<D>,
    phase: PhaseText,
    moment: u64,
) -> (Core<D>, Result<(), NoMemory>)
    requires finished { all_done (state_of core.story) ≡ true }
    requires opened { is_opened core.story ≡ true }
    requires ready { IsReadyPhase phase }
    requires few { (state_of core.story).number + 1 < 2 ^ 32 }
    requires in_time { moment ≤ last_moment }
    ensures ok { OnOk result.1 (RunsPhase phase moment core.story result.0.story) }
    ensures err { OnErr result.1 (LeavesPhase phase moment core.story result.0.story) }
    ensures first { first_step result.0.story ≡ first_step core.story }
    ensures counted { KeepsCount core result.0 }
{
    let mut core = core;
    match core.begin_phase(host.alloc, phase, moment) {
        Ok(()) => run_on_threads(host, core),
        Err(error) => (core, Err(error)),
    }
}

/// Writes the transcript of the last phase, which has this number.
fn write_transcript<K: Sink, D: Disk>(
    alloc: Global,
    core: &Core<D>,
    number: u32,
    sink: &mut K,
) -> Result<(), Or<WriteFault>>
    requires begun { 0 < (state_of core.now.story).number }
    requires few { length (state_of core.now.story).phase.lanes ≤ 64 }
    ensures ok { OnOk result
        (Appends (K.ghost_state sink.old).held (K.ghost_state sink.new).held
        (transcript number (state_of core.now.story).phase (replies_of core.now.story))) }
    ensures err { IfErr result
        (λ cut.
        WritesCut cut (K.ghost_state sink.old).held (K.ghost_state sink.new).held
        (transcript number (state_of core.now.story).phase (replies_of core.now.story))) }
    ensures fault { CountsWriteFaults result (K.ghost_state sink.old).faults
        (K.ghost_state sink.new).faults }
    ensures goes_on { OnOk result
        ((K.ghost_state sink.new).ended ≡ (K.ghost_state sink.old).ended) }
    ensures rests { SinkRests (K.ghost_state sink.old) (K.ghost_state sink.new) }
{
    let text = transcript(alloc, core, number)?;
    match write_whole(sink, text.as_bytes()) {
        Ok(()) => Ok(()),
        Err(fault) => Err(Or::Is(fault)),
    }
}

/// Runs the phases of a session and writes the transcript of each, and answers whether a command failed. The core comes back
/// in every case.
pub(crate) fn run_phases<
    R: Threads + Wait + Sync,
    G: Hook + Sync,
    K: Sink,
    D: Disk + Send,
    C: Clock,
>(
    host: &Host<'_, R, G>,
    core: Core<D>,
    phases: Vec<PhaseText>,
    sink: &mut K,
    clock: &mut C,
) -> (Core<D>, Result<bool, Or<WriteFault>>)
    requires opened { IsJustOpened core.story }
    requires runnable { IsRunnable phases.items }
    ensures ok { IfOk result.1
        (HasRunPhases phases.items result.0.story
        (outside_of (K.ghost_state sink.old) (K.ghost_state sink.new) (C.ghost_state clock.old)
        (C.ghost_state clock.new))) }
    ensures err { IfErr result.1
        (λ cut.
        IsRunGivenUp cut phases.items result.0.story
        (outside_of (K.ghost_state sink.old) (K.ghost_state sink.new) (C.ghost_state clock.old)
        (C.ghost_state clock.new))) }
    ensures first { first_step result.0.story ≡ first_step core.story }
    ensures counted { KeepsCount core result.0 }
    ensures fault { CountsWriteFaults result.1 (K.ghost_state sink.old).faults
        (K.ghost_state sink.new).faults }
    ensures rests { SinkRests (K.ghost_state sink.old) (K.ghost_state sink.new) }
{
    let mut core = core;
    let mut failed = false;
    let mut number = 0u32;
    for phase in phases {
        number += 1;
        let moment = moment_of(clock);
        let (next, ran) = run_commands(host, core, phase, moment);
        core = next;
        if let Err(NoMemory) = ran {
            return (core, Err(Or::NoMemory));
        }
        failed |= any_failed(&core);
        if let Err(error) = write_transcript(host.alloc, &core, number, sink) {
            return (core, Err(error));
        }
    }
    (core, Ok(failed))
}
