//! A session that is run on a base in memory.

ghost use Rattle.std.specs.Prelude.{IfOk};
ghost use Rattle.disk_model.specs.MemoryDisks.{ghost_state_of};
ghost use Rattle.session_run.specs.Faults.Stopped.{IsHandedIn};

use crate::asked::{Asked, numbers_of};
use crate::reported::report_of;
use anyhow::{Result, ensure};
use cc_names::memory::NoMemory;
use cc_names::texts::Text;
use cc_outside::{ListClock, MemorySink, MemorySource, OpenHook};
use disk_model::MemoryDisk;
use session_run::{SessionResult, run_words};
use std::alloc::Global;
use std::hash::RandomState;
use std::sync::Wait;
use std::thread::Threads;

/// What stands in the file of objects of each base, which no session touches so far.
pub(crate) const OBJECTS: &[u8] = b"\x01objects\0of\xffa base";

/// What sessions are run with: threads, the runtime, and the moments that the clock tells, in seconds since 1970.
#[derive(Drop)]
pub(crate) struct Host<'a, R> {
    pub(crate) threads: &'a R,
    pub(crate) rt: &'a HostRuntime,
    pub(crate) clock: &'a str,
}

/// What a session comes to: what is known of it, and the disk that it leaves.
#[derive(Drop)]
pub(crate) struct Outcome {
    pub(crate) reported: String,
    pub(crate) disk: MemoryDisk,
}

// A clock that tells these moments; the last of them for good.
fn clock_of(alloc: Global, moments: &str) -> Result<ListClock> {
    let reported = numbers_of(alloc, moments)?;
    ensure!(!reported.is_empty(), "a clock tells a moment");
    Ok(ListClock::new(alloc, reported.as_slice())?)
}

/// A disk with this journal, whose calls of these numbers fail.
pub(crate) fn disk_with(alloc: Global, journal: &[u8], fail: &[u64]) -> Result<MemoryDisk, NoMemory>
    ensures { IfOk result (λ disk. IsHandedIn (ghost_state_of disk)) }
{
    MemoryDisk::new(alloc, journal, OBJECTS, fail)
}

/// The words of a call, which stand in a line.
pub(crate) fn words_of(alloc: Global, line: &str) -> Result<Vec<Text>, NoMemory> {
    let mut words = Vec::new(alloc);
    for word in line.split(' ') {
        words.push(Text::from_bytes(alloc, word.as_bytes())?)?;
    }
    Ok(words)
}

// The text of a session after that of a front. Where a number of bytes is asked for, a note fills it up to so many.
fn bytes_of(alloc: Global, preamble: &str, asked: Asked<'_>) -> Result<Vec<u8>> {
    let text = format!(in alloc; "{preamble}{}", asked.text)?;
    let mut bytes = text.as_str().as_bytes().to_vec(alloc)?;
    if let Some(size) = asked.setting("the text has ") {
        bytes.resize(size.parse::<usize>()?, b'#')?;
    }
    Ok(bytes)
}

// What is outside of a session beside its disk and its clock, and which of the disk's calls fail.
#[derive(Drop)]
struct Outside {
    words: Vec<Text>,
    source: MemorySource,
    sink: MemorySink,
    fail: Vec<u64>,
}

fn session_source(alloc: Global, preamble: &str, asked: Asked<'_>) -> Result<MemorySource> {
    let text = bytes_of(alloc, preamble, asked)?;
    let fail = asked.numbers(alloc, "the source fails at ")?;
    Ok(MemorySource::new(alloc, text.as_slice(), fail.as_slice())?)
}

fn sink_of(alloc: Global, asked: Asked<'_>) -> Result<MemorySink> {
    let fail = asked.numbers(alloc, "the sink fails at ")?;
    Ok(MemorySink::new(alloc, fail.as_slice())?)
}

fn outside_of(alloc: Global, preamble: &str, asked: Asked<'_>) -> Result<Outside> {
    Ok(Outside {
        words: words_of(alloc, asked.setting("words ").unwrap_or("f run"))?,
        source: session_source(alloc, preamble, asked)?,
        sink: sink_of(alloc, asked)?,
        fail: asked.numbers(alloc, "the disk fails at ")?,
    })
}

// A session is run on a base with this journal.
fn ended_on<R: Threads + Wait + Sync>(
    host: &Host<'_, R>,
    journal: &[u8],
    outside: &mut Outside,
) -> Result<SessionResult<MemoryDisk>> {
    let alloc = host.rt.alloc();
    let mut clock = clock_of(alloc, host.clock)?;
    let hashing = RandomState::new(host.rt)?;
    let disk = disk_with(alloc, journal, outside.fail.as_slice())?;
    Ok(run_words(
        host.threads,
        alloc,
        hashing,
        &OpenHook,
        outside.words.as_slice(),
        &mut outside.source,
        &mut outside.sink,
        disk,
        &mut clock,
    ))
}

/// What a session comes to after the text of a front, on a base with this journal.
pub(crate) fn outcome_on<R: Threads + Wait + Sync>(
    host: &Host<'_, R>,
    journal: &[u8],
    preamble: &str,
    asked: Asked<'_>,
) -> Result<Outcome> {
    let alloc = host.rt.alloc();
    let mut outside = outside_of(alloc, preamble, asked)?;
    let ended = ended_on(host, journal, &mut outside)?;
    let reported = report_of(alloc, asked, outside.sink.bytes(), &ended)?;
    Ok(Outcome {
        reported,
        disk: ended.disk,
    })
}
