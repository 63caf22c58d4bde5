//! What each form of words does on a base that is opened.

ghost use Rattle.std.specs.Prelude.{◌≡◌, ◌≢◌, ℕ, [], IfOk, IfErr, OnOk, OnErr};
ghost use Rattle.std.specs.Io.KnownBytes.{Appends};
ghost use Rattle.cc_outside.specs.Feeds.{AppendsPrefix};
ghost use Rattle.base_core.specs.Story.Counted.{KeepsCount};
ghost use Rattle.large_session.specs.Summaries.{summary};
ghost use Rattle.session_run.specs.Calls.Causes.{SinkRests};
ghost use Rattle.session_run.specs.Running.Forms.{HasDone, IsGivenUp};
ghost use Rattle.session_run.specs.Running.Runs.{outside_of, IsJustOpened, IsRunnable, CountsWriteFaults, WritesCut};
ghost use Rattle.session_run.specs.Story.Begun.{first_step};
ghost use Rattle.session_run.specs.declared.words.Form.TheVariants as forms;

use crate::checks::write_check;
use crate::phases::run_phases;
use crate::threads::Host;
use crate::words::Form;
use base_core::Core;
use cc_names::memory::Or;
use cc_outside::{Clock, Hook, MemorySink, Sink, WriteFault, write_whole};
use disk_model::Disk;
use large_session::summary;
use session_text::PhaseText;
use std::alloc::Global;
use std::sync::Wait;
use std::thread::Threads;

/// Writes the summary of transcripts.
fn write_summary<K: Sink>(
    alloc: Global,
    transcripts: &[u8],
    sink: &mut K,
) -> Result<(), Or<WriteFault>>
    ensures ok { OnOk result
        (Appends (K.ghost_state sink.old).held (K.ghost_state sink.new).held
        (summary transcripts.now)) }
    ensures err { IfErr result
        (λ cut.
        WritesCut cut (K.ghost_state sink.old).held (K.ghost_state sink.new).held
        (summary transcripts.now)) }
    ensures fault { CountsWriteFaults result (K.ghost_state sink.old).faults
        (K.ghost_state sink.new).faults }
    ensures rests { SinkRests (K.ghost_state sink.old) (K.ghost_state sink.new) }
{
    let text = summary(alloc, transcripts)?;
    match write_whole(sink, text.as_bytes()) {
        Ok(()) => Ok(()),
        Err(fault) => Err(Or::Is(fault)),
    }
}

/// Runs the phases of a session as `run_phases` does, whose transcripts it keeps, and writes their summary when all have been
/// run. The core comes back in every case.
fn run_summed<R: Threads + Wait + Sync, G: Hook + Sync, K: Sink, D: Disk + Send, C: Clock>(
    host: &Host<'_, R, G>,
    core: Core<D>,
    phases: Vec<PhaseText>,
    sink: &mut K,
    clock: &mut C,
) -> (Core<D>, Result<bool, Or<WriteFault>>)
    requires opened { IsJustOpened core.story }
    requires runnable { IsRunnable phases.items }
    ensures ok { (seed size : ℕ)
        → IfOk result.1
        (HasDone (forms.Big seed size) phases.items result.0.story
        (outside_of (K.ghost_state sink.old) (K.ghost_state sink.new) (C.ghost_state clock.old)
        (C.ghost_state clock.new))) }
    ensures err { (seed size : ℕ)
        → IfErr result.1
        (λ cut.
        IsGivenUp (forms.Big seed size) cut phases.items result.0.story
        (outside_of (K.ghost_state sink.old) (K.ghost_state sink.new) (C.ghost_state clock.old)
        (C.ghost_state clock.new))) }
    ensures first { first_step result.0.story ≡ first_step core.story }
    ensures counted { KeepsCount core result.0 }
    ensures fault { CountsWriteFaults result.1 (K.ghost_state sink.old).faults
        (K.ghost_state sink.new).faults }
    ensures rests { SinkRests (K.ghost_state sink.old) (K.ghost_state sink.new) }
{
    let Ok(mut transcripts) = MemorySink::new(host.alloc, &[]) else {
        return (core, Err(Or::NoMemory));
    };
    let (core, run) = run_phases(host, core, phases, &mut transcripts, clock);
    // A sink in memory fails for want of memory alone.
    let Ok(failed) = run else {
        return (core, Err(Or::NoMemory));
    };
    match write_summary(host.alloc, transcripts.bytes(), sink) {
        Ok(()) => (core, Ok(failed)),
        Err(cut) => (core, Err(cut)),
    }
}

/// Carries out what a form asks for on a base that was just opened, with the phases of its session, and writes its text. Answers
/// whether it tells of a failure. The core comes back in every case.
pub(crate) fn carry_out<
    R: Threads + Wait + Sync,
    G: Hook + Sync,
    K: Sink,
    D: Disk + Send,
    C: Clock,
>(
    host: &Host<'_, R, G>,
    form: Form,
    core: Core<D>,
    phases: Vec<PhaseText>,
    sink: &mut K,
    clock: &mut C,
) -> (Core<D>, Result<bool, Or<WriteFault>>)
    requires opened { IsJustOpened core.story }
    requires runnable { IsRunnable phases.items }
    requires none { form ≡ forms.Verify → phases.items ≡ [] }
    requires base { form ≢ forms.Sites }
    ensures ok { IfOk result.1
        (HasDone form phases.items result.0.story
        (outside_of (K.ghost_state sink.old) (K.ghost_state sink.new) (C.ghost_state clock.old)
        (C.ghost_state clock.new))) }
    ensures err { IfErr result.1
        (λ cut.
        IsGivenUp form cut phases.items result.0.story
        (outside_of (K.ghost_state sink.old) (K.ghost_state sink.new) (C.ghost_state clock.old)
        (C.ghost_state clock.new))) }
    ensures first { first_step result.0.story ≡ first_step core.story }
    ensures counted { KeepsCount core result.0 }
    ensures fault { CountsWriteFaults result.1 (K.ghost_state sink.old).faults
        (K.ghost_state sink.new).faults }
    ensures rests { SinkRests (K.ghost_state sink.old) (K.ghost_state sink.new) }
{
    match form {
        Form::Run => run_phases(host, core, phases, sink, clock),
        Form::Big { .. } => run_summed(host, core, phases, sink, clock),
        Form::Verify => {
            let found = write_check(host.alloc, &core, sink);
            (core, found)
        }
        Form::Sites => unreachable!(),
    }
}
