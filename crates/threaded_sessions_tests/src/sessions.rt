//! Sessions on a base in memory.
//!
//! A case is a session, the line `----`, what the session writes, and a last line of its status and the rows of its base. A line
//! that begins with `#` in a session is a note.
//!
//! The lanes of a phase run at once. Where several of them build the same, one of them has it built and the others wink it in,
//! whichever comes first: such a line has the word `shared`, and of the lines with the same text one is written with `built` and
//! the others with `winked`.

ghost use Rattle.std.specs.Prelude.{IfOk};
ghost use Rattle.disk_model.specs.MemoryDisks.{ghost_state_of};
ghost use Rattle.session_run.specs.Faults.Stopped.{IsHandedIn};

use cc_names::memory::NoMemory;
use cc_names::texts::Text;
use cc_outside::{Hook, ListClock, MemorySink, MemorySource, OpenHook};
use disk_model::MemoryDisk;
use session_run::{SessionResult, run_words};
use std::alloc::Global;
use std::hash::RandomState;
use std::process::Abort;
use std::random::RandomSource;
use std::sync::Wait;
use std::test::Fail;
use std::thread::Threads;

/// What these tests ask of the runtime: that it stops them, draws keys, and starts threads that wait for each other.
pub(crate) trait Runtime: Abort + RandomSource + Threads + Wait + Sync {}

impl<R: Abort + RandomSource + Threads + Wait + Sync> Runtime for R {}

/// What stands before a session, and before what it writes.
#[derive(Clone, Copy)]
pub(crate) struct Preamble {
    pub(crate) asked: &'static str,
    pub(crate) reported: &'static str,
}

/// Nothing.
pub(crate) const ALONE: Preamble = Preamble {
    asked: "",
    reported: "",
};

/// One phase with one lane.
pub(crate) const IN_A_LANE: Preamble = Preamble {
    asked: "phase\nlane a\n",
    reported: "phase 1\nlane a\n",
};

/// What is outside of a session.
#[derive(Drop)]
pub(crate) struct Outside {
    source: MemorySource,
    pub(crate) sink: MemorySink,
    clock: ListClock,
}

/// A source with this session, and an empty sink.
pub(crate) fn outside_of(alloc: Global, session: &str) -> Result<Outside, NoMemory> {
    let source = MemorySource::new(alloc, session.as_bytes(), &[])?;
    let sink = MemorySink::new(alloc, &[])?;
    let clock = ListClock::new(alloc, &[1_700_000_000])?;
    Ok(Outside {
        source,
        sink,
        clock,
    })
}

// A disk with this journal and no objects.
fn disk_with(alloc: Global, journal: &[u8]) -> Result<MemoryDisk, NoMemory>
    ensures { IfOk result (λ disk. IsHandedIn (ghost_state_of disk)) }
{
    MemoryDisk::new(alloc, journal, &[], &[])
}

fn words_of_run(alloc: Global) -> Result<Vec<Text>, NoMemory> {
    let mut words = Vec::new(alloc);
    for word in ["f", "run"] {
        words.push(Text::from_bytes(alloc, word.as_bytes())?)?;
    }
    Ok(words)
}

/// A session is run on a disk, and its runs ask this gate.
pub(crate) fn run_on<G: Hook + Sync>(
    rt: &impl Runtime,
    alloc: Global,
    hook: &G,
    disk: MemoryDisk,
    outside: &mut Outside,
) -> Result<SessionResult<MemoryDisk>, Fail>
    requires { IsHandedIn (ghost_state_of disk) }
{
    let words = words_of_run(alloc)?;
    Ok(run_words(
        rt,
        alloc,
        RandomState::new(rt)?,
        hook,
        words.as_slice(),
        &mut outside.source,
        &mut outside.sink,
        disk,
        &mut outside.clock,
    ))
}

/// A session is run on a base with this journal, and its runs ask this gate.
pub(crate) fn run_in<G: Hook + Sync>(
    rt: &impl Runtime,
    alloc: Global,
    hook: &G,
    journal: &[u8],
    outside: &mut Outside,
) -> Result<SessionResult<MemoryDisk>, Fail> {
    let disk = disk_with(alloc, journal)?;
    run_on(rt, alloc, hook, disk, outside)
}

/// What was written, and then the line of the status and the rows.
pub(crate) fn report_of(
    alloc: Global,
    written: &[u8],
    ended: &SessionResult<MemoryDisk>,
) -> Result<String, NoMemory> {
    let (status, rows) = (ended.status.code(), ended.history.rows().len());
    let written = Text::from_bytes(alloc, written)?;
    Ok(format!(in alloc; "{written}status {status}, {rows} rows\n")?)
}

/// What a session comes to: what it writes with the line of its status and its rows, and the journal that it leaves.
#[derive(Drop)]
pub(crate) struct Outcome {
    pub(crate) reported: String,
    pub(crate) journal: Vec<u8>,
}

fn outcome_of(
    alloc: Global,
    written: &[u8],
    ended: &SessionResult<MemoryDisk>,
) -> Result<Outcome, NoMemory> {
    let reported = report_of(alloc, written, ended)?;
    let journal = ended.disk.bytes(0).to_vec(alloc)?;
    Ok(Outcome { reported, journal })
}

/// What a session comes to on a base with this journal, whose runs ask this gate.
pub(crate) fn outcome_at<G: Hook + Sync>(
    rt: &impl Runtime,
    alloc: Global,
    hook: &G,
    journal: &[u8],
    session: &str,
) -> Result<Outcome, Fail> {
    let mut outside = outside_of(alloc, session)?;
    let ended = run_in(rt, alloc, hook, journal, &mut outside)?;
    Ok(outcome_of(alloc, outside.sink.bytes(), &ended)?)
}

/// What a session after a front comes to on a base with this journal.
pub(crate) fn outcome_on(
    rt: &impl Runtime,
    alloc: Global,
    journal: &[u8],
    preamble: Preamble,
    session: &str,
) -> Result<Outcome, Fail> {
    let session = format!(in alloc; "{}{session}", preamble.asked)?;
    outcome_at(rt, alloc, &OpenHook, journal, session.as_str())
}

/// The parts of a case: a session, and what it comes to.
pub(crate) fn parts_of(case: &str) -> (&str, &str) {
    match case.split_once("----\n") {
        Some(parts) => parts,
        None => (case, ""),
    }
}

// The word that is written where a wanted line has `shared`, if the rest is as wanted.
fn shared_word<'a>(written: &'a str, wanted: &str) -> Option<&'a str> {
    let (unit, rest) = wanted.split_once(" shared ")?;
    let word = written.strip_prefix(unit)?.strip_suffix(rest)?;
    Some(word.trim())
}

fn is_line(written: &str, wanted: &str) -> bool {
    written == wanted || matches!(shared_word(written, wanted), Some("built" | "winked"))
}

// How many of the lines for which this one is wanted are written with `built`.
fn count_built(written: &str, wanted: &str, line: &str) -> usize {
    let lines = written.lines().zip(wanted.lines());
    lines
        .filter(|(_, wanted)| *wanted == line)
        .filter(|(written, wanted)| shared_word(written, wanted) == Some("built"))
        .count()
}

/// Whether what is written is what a case wants.
pub(crate) fn is_as_wanted(written: &str, wanted: &str) -> bool {
    written.lines().count() == wanted.lines().count()
        && written
            .lines()
            .zip(wanted.lines())
            .all(|(written, wanted)| is_line(written, wanted))
        && wanted
            .lines()
            .filter(|line| line.contains(" shared "))
            .all(|line| count_built(written, wanted, line) == 1)
}
