//! The top call.

ghost use Rattle.std.specs.Prelude.{◌≡◌, ◌≢◌, [], true};
ghost use Rattle.legal_history.specs.Builds.Values.{IsSound};
ghost use Rattle.legal_history.specs.Stories.Steps.{state_of};
ghost use Rattle.base_core.specs.Story.Counted.{disk_of};
ghost use Rattle.story_log.specs.Bases.Opening.{AreSynced};
ghost use Rattle.story_log.specs.Logging.Appending.{SettlesTail};
ghost use Rattle.story_log.specs.Stopping.Backed.{may_be_open};
ghost use Rattle.cc_names.specs.Counts.{rises};
ghost use Rattle.disk_model.specs.DiskStates.{IfModeled, Both, IsCounted};
ghost use Rattle.session_run.specs.Calls.Asked.{form_of};
ghost use Rattle.session_run.specs.Calls.Causes.{disk_ghost_states, intake_of, sink_faults, FindsDamage, HasCause, KeepsSink, LeavesAlone, SinkRests, TakesNoMore};
ghost use Rattle.session_run.specs.Faults.Accounted.{IsAccountedFor, KeepsFiles, SettlesJournal};
ghost use Rattle.session_run.specs.Faults.Stopped.{IsHandedIn, IsMended, IsStopped};
ghost use Rattle.session_run.specs.Promises.Checked.{TellsSoundness};
ghost use Rattle.session_run.specs.Promises.Headline.{clock_readings, IsSession, IsOneHistory, AreOfTheirCommands, AreFromNothing, ArePrinted};
ghost use Rattle.session_run.specs.Promises.Objects.{HeldObjectsAreLive, ScrubsListWhatIsDue};
ghost use Rattle.session_run.specs.Promises.Reused.{HaveTheirOutcomes, PassNothingOver, RecordWhatTheyRead, TakeWhatTheySee, WasSound};
ghost use Rattle.session_run.specs.Promises.Promised.{Promised};
ghost use Rattle.session_run.specs.Running.Outcomes.{RunsOpened, RunsSession};
ghost use Rattle.session_run.specs.Running.Runs.{IsJustOpened, IsRunnable, outside_of, run_status};
ghost use Rattle.session_run.specs.Running.Unstarted.{of_unopened};
ghost use Rattle.session_run.specs.Story.Begun.{first_step, is_opened};
ghost use Rattle.session_run.specs.declared.words.Form.TheVariants as forms;

use crate::carrying::carry_out;
use crate::laws::{builds_are_as_from_nothing, objects_are_reused_well, objects_are_scrubbed_well};
use crate::lines::write_unstarted;
use crate::sessions::{GivenSession, Unstarted, session_given};
use crate::sites::write_without_base;
use crate::statuses::Status;
use crate::threads::Host;
use base_core::Core;
use cc_names::memory::Or;
use cc_names::texts::Text;
use cc_outside::{Clock, Hook, Sink, Source, WriteFault};
use disk_model::Disk;
use std::alloc::Global;
use std::hash::RandomState;
use std::sync::Wait;
use std::thread::Threads;
use story_log::laws::a_stop_opens_again;
use story_log::{History, OpenCause, OpenFault};

/// How a call ended: its status, the disk, and the history of the base that it opened, which is empty where it opened none.
#[derive(Drop)]
pub struct SessionResult<D: Disk> {
    pub status: Status,
    pub disk: D,
    pub history: History,
}

/// Whether a count rose: it is greater than before, or stood and stands at its last number.
fn has_risen(before: u64, after: u64) -> bool
    ensures { result ≡ rises before after }
{
    before < after || (before == u64::MAX && after == u64::MAX)
}

/// The status of a call that opened a base, by whether a failure is told and whether the disk's faults rose.
fn status_of(run: Result<bool, Or<WriteFault>>, rose: bool) -> Status
    ensures { result ≡ run_status run rose }
{
    match run {
        Ok(_) if rose => Status::DiskFault,
        Ok(false) => Status::Good,
        Ok(true) => Status::SomeFailed,
        Err(Or::Is(WriteFault)) => Status::WriteFault,
        Err(Or::NoMemory) => Status::NoMemory,
    }
}

/// Why no base was opened, by whether the disk's faults rose.
fn of_unopened(cause: OpenCause, rose: bool) -> Unstarted
    ensures { result ≡ of_unopened cause rose }
{
    match cause {
        OpenCause::Damaged(_) if rose => Unstarted::Unopened(OpenCause::DiskFault),
        cause => Unstarted::Unopened(cause),
    }
}

/// Each disk's counts fit its calls.
fn a_disk_is_counted<D: Disk>()
    ensures { (disk : _) → IsCounted (D.ghost_state disk) }
{}

/// Settles the journal at the end of a call, where a fault left its tail open. Unless this fails no stop finds more than the
/// rows of the base.
fn settle<D: Disk>(core: &mut Core<D>)
    ensures same { core.new.story ≡ core.old.story }
    ensures mended { IsMended (state_of core.new.story) core.new.ghost_state }
    ensures settles { SettlesJournal
        (may_be_open (state_of core.old.story).ends) core.old.ghost_state
        core.new.ghost_state }
    ensures calls { SettlesTail (state_of core.old.story).ends core.old.tail core.old.ghost_state
        core.new.ghost_state }
{
    let _ = core.finish();
}

/// Carries out what a form asks for on a base that was just opened, with the phases of its session, settles the journal, and
/// hands the disk back. The disk had this count of faults before.
fn run_opened<R: Threads + Wait + Sync, G: Hook + Sync, K: Sink, D: Disk + Send, C: Clock>(
    host: &Host<'_, R, G>,
    core: Core<D>,
    before: u64,
    given: GivenSession,
    sink: &mut K,
    clock: &mut C,
) -> SessionResult<D>
    requires opened { IsJustOpened core.story }
    requires runnable { IsRunnable given.phases.items }
    requires none { given.form ≡ forms.Verify → given.phases.items ≡ [] }
    requires base { given.form ≢ forms.Sites }
    ensures runs { RunsOpened given.form given.phases.items result.status (first_step core.story)
        result.history before (disk_of core) (D.ghost_state result.disk)
        (outside_of (K.ghost_state sink.old) (K.ghost_state sink.new) (C.ghost_state clock.old)
        (C.ghost_state clock.new))
        (sink_faults (K.ghost_state sink.old) (K.ghost_state sink.new)) }
    ensures rests { SinkRests (K.ghost_state sink.old) (K.ghost_state sink.new) }
{
    let GivenSession { form, phases } = given;
    let (core, run) = carry_out(host, form, core, phases, sink, clock);
    let mut core = core;
    a_stop_opens_again();
    settle(&mut core);
    let status = status_of(run, has_risen(before, core.counts().faults));
    let (disk, history) = core.into_parts();
    SessionResult {
        status,
        disk,
        history,
    }
}

/// Opens the base that a disk stands for and carries out on it what a form asks for, or writes why it cannot be opened.
fn run_session<R: Threads + Wait + Sync, G: Hook + Sync, K: Sink, D: Disk + Send, C: Clock>(
    host: &Host<'_, R, G>,
    given: GivenSession,
    sink: &mut K,
    disk: D,
    clock: &mut C,
) -> SessionResult<D>
    requires runnable { IsRunnable given.phases.items }
    requires none { given.form ≡ forms.Verify → given.phases.items ≡ [] }
    requires base { given.form ≢ forms.Sites }
    requires synced { IfModeled (D.ghost_state disk).modeled AreSynced }
    ensures runs { RunsSession given.form given.phases.items result.status result.history
        (outside_of (K.ghost_state sink.old) (K.ghost_state sink.new) (C.ghost_state clock.old)
        (C.ghost_state clock.new))
        (sink_faults (K.ghost_state sink.old) (K.ghost_state sink.new))
        (disk_ghost_states (D.ghost_state disk) (D.ghost_state result.disk)) }
    ensures rests { SinkRests (K.ghost_state sink.old) (K.ghost_state sink.new) }
{
    let before = disk.counts().faults;
    match Core::open(host.alloc, host.hashing, disk) {
        Ok(core) => run_opened(host, core, before, given, sink, clock),
        Err(OpenFault { cause, disk }) => {
            let unstarted = of_unopened(cause, has_risen(before, disk.counts().faults));
            SessionResult {
                status: write_unstarted(unstarted, sink),
                disk,
                history: History::empty(host.alloc),
            }
        }
    }
}

/// Carries out what the words ask for, as `run_words` does.
fn run_form<R: Threads + Wait + Sync, S: Source, K: Sink, D: Disk + Send, C: Clock, G: Hook + Sync>(
    host: &Host<'_, R, G>,
    words: &[Text],
    source: &mut S,
    sink: &mut K,
    disk: D,
    clock: &mut C,
) -> SessionResult<D>
    requires { IsHandedIn (D.ghost_state disk) }
    ensures promised { Promised result.status result.history
        (intake_of words.now (S.ghost_state source.old) (S.ghost_state source.new))
        (outside_of (K.ghost_state sink.old) (K.ghost_state sink.new) (C.ghost_state clock.old)
        (C.ghost_state clock.new))
        (sink_faults (K.ghost_state sink.old) (K.ghost_state sink.new))
        (disk_ghost_states (D.ghost_state disk) (D.ghost_state result.disk)) }
    ensures rests { SinkRests (K.ghost_state sink.old) (K.ghost_state sink.new) }
    ensures untouched { LeavesAlone
        (intake_of words.now (S.ghost_state source.old) (S.ghost_state source.new))
        (disk_ghost_states (D.ghost_state disk) (D.ghost_state result.disk)) result.history }
    ensures taken { TakesNoMore
        (intake_of words.now (S.ghost_state source.old) (S.ghost_state source.new)) }
{
    a_disk_is_counted::<D>();
    match session_given(host.alloc, host.hashing, words, source) {
        Ok(given) => run_session(host, given, sink, disk, clock),
        Err(without) => SessionResult {
            status: write_without_base(host.alloc, host.hashing, without, sink),
            disk,
            history: History::empty(host.alloc),
        },
    }
}

/// Carries out what the words ask for. FILE `run` reads a session from the source, opens the base that the disk stands for, runs
/// the phases in order, writes the transcript of each when its lanes have ended, and settles the journal. FILE `big` SEED SIZE
/// does so with the large session of these two numbers, and writes in place of the transcripts their summary, once all phases are
/// run. FILE `verify` opens the base, runs the record of each live object again, and writes how many are live, or the first that
/// is not what its record gives. FILE `sites` reads a text of sites from the source, and writes the replies to it. `run` and
/// `sites` alone read the source. After a call of the sink that failed none is made on it.
///
/// The disk comes back in every case, and unless a base was to be opened no call was made on it. Names in the base are found by
/// hashing them so: with random keys nobody can choose names that make a look-up there slow, and the answers are the same with
/// any.
///
/// The lanes of a phase run on threads once one of them builds, and so do the units of each build. The promises hold for
/// every order of turns; progress is not promised. Around each script, and before each read of it, the hook is called.
///
/// Such a phase starts a thread for each lane but one, and each build that asks for N scripts at once up to N - 1 more. At
/// most 4,095 exist at once, besides the caller's. Each has a stack of the size that `ulimit -s` tells, and counts against the
/// processes of its user, `ulimit -u`. If the system refuses one, the thread that asked for it does its work.
///
/// Takes time linear in the session and in the replies, the time of `Core::open`, and for each command that of `act` or of its
/// build. `big` keeps its transcripts until all phases are run. `verify` takes what `Core::verify` takes, `sites` what
/// `vob_replica::run` takes.
pub fn run_words<
    R: Threads + Wait + Sync,
    S: Source,
    K: Sink,
    D: Disk + Send,
    C: Clock,
    G: Hook + Sync,
>(
    rt: &R,
    alloc: Global,
    hashing: RandomState,
    hook: &G,
    words: &[Text],
    source: &mut S,
    sink: &mut K,
    disk: D,
    clock: &mut C,
) -> SessionResult<D>
    requires { IsHandedIn (D.ghost_state disk) }
    ensures session { IsSession result.status result.history
        (intake_of words.now (S.ghost_state source.old) (S.ghost_state source.new))
        (C.ghost_state clock.old).modeled
        (clock_readings (C.ghost_state clock.old) (C.ghost_state clock.new)) }
    ensures history { IsOneHistory (form_of words.now) result.status result.history
        (D.ghost_state disk)
        (K.ghost_state sink.old).held (K.ghost_state sink.new).held }
    ensures commanded { AreOfTheirCommands result.history }
    ensures built { WasSound result.history → AreFromNothing result.history }
    ensures outcomes { WasSound result.history → HaveTheirOutcomes result.history }
    ensures reused { TakeWhatTheySee result.history }
    ensures sought { PassNothingOver result.history }
    ensures recorded { RecordWhatTheyRead result.history }
    ensures sound { WasSound result.history → IsSound (state_of result.history).base }
    ensures checked { TellsSoundness (form_of words.now) result.status result.history }
    ensures scrubs { ScrubsListWhatIsDue result.history }
    ensures held { HeldObjectsAreLive result.history }
    ensures printed { ArePrinted result.status result.history
        (intake_of words.now (S.ghost_state source.old) (S.ghost_state source.new))
        (sink_faults (K.ghost_state sink.old) (K.ghost_state sink.new))
        (disk_ghost_states (D.ghost_state disk) (D.ghost_state result.disk))
        (K.ghost_state sink.old).held
        (K.ghost_state sink.new).held }
    ensures stopped { IsStopped (D.ghost_state disk) (D.ghost_state result.disk) result.history }
    ensures cause { HasCause result.status
        (intake_of words.now (S.ghost_state source.old) (S.ghost_state source.new))
        (sink_faults (K.ghost_state sink.old) (K.ghost_state sink.new))
        (disk_ghost_states (D.ghost_state disk) (D.ghost_state result.disk)) result.history }
    ensures sink { KeepsSink result.status
        (sink_faults (K.ghost_state sink.old) (K.ghost_state sink.new)) }
    ensures rests { SinkRests (K.ghost_state sink.old) (K.ghost_state sink.new) }
    ensures accounted { is_opened result.history ≡ true
        → IsAccountedFor
        (disk_ghost_states (D.ghost_state disk) (D.ghost_state result.disk)) result.history }
    ensures files { KeepsFiles
        (disk_ghost_states (D.ghost_state disk) (D.ghost_state result.disk)) result.history }
    ensures damaged { FindsDamage result.status
        (intake_of words.now (S.ghost_state source.old) (S.ghost_state source.new))
        (disk_ghost_states (D.ghost_state disk) (D.ghost_state result.disk)) }
    ensures untouched { LeavesAlone
        (intake_of words.now (S.ghost_state source.old) (S.ghost_state source.new))
        (disk_ghost_states (D.ghost_state disk) (D.ghost_state result.disk)) result.history }
    ensures taken { TakesNoMore
        (intake_of words.now (S.ghost_state source.old) (S.ghost_state source.new)) }
{
    builds_are_as_from_nothing();
    objects_are_reused_well();
    objects_are_scrubbed_well();
    let host = Host {
        rt,
        alloc,
        hashing,
        hook,
    };
    run_form(&host, words, source, sink, disk, clock)
}
