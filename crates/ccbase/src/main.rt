//! The program.
//!
//! What it is for: `ccbase FILE run` reads a session from standard input, runs it on the base that the files FILE and
//! FILE.objects keep, and writes its replies to standard output. `ccbase FILE verify` tells whether the objects of the base are
//! what their records give, `ccbase FILE big SEED SIZE` runs a large session and writes a summary, and `ccbase FILE sites`
//! replies to a text of sites.
//!
//! What it promises: it adds nothing to `session_run::run_words` but the streams of the process, its clock, its threads, its two
//! files, the help and the version, and lines on standard error: what of FILE is no base, and why a session was not carried out.
//! The hook round scripts is open.
//!
//! What it stands on: `session_run`, `disk_model` and `vob_journal` for the files, `cc_outside` for the streams and the clock,
//! and `cc_names` for words.
#![tactic(auto)]

mod help;
mod looking;

use crate::help::HELP;
use crate::looking::LookingDisk;
use cc_names::memory::NoMemory;
use cc_names::refusals::SessionCause;
use cc_names::texts::Text;
use cc_outside::{OpenHook, StdSink, StdSource, SystemClock, write_whole};
use disk_model::FileDisk;
use session_run::{Status, form_of, run_words};
use std::alloc::Global;
use std::hash::RandomState;
use std::process::ExitCode;
use std::sync::Wait;
use std::thread::Threads;
use std::{env, io};

const VERSION: &str = "ccbase 0.1.0\n";

const USAGE: &str =
    "usage: ccbase FILE run | ccbase FILE verify | ccbase FILE big SEED SIZE | ccbase FILE sites";

/// The words after the name of the program. The error is of the kind `InvalidData` where one of them is not UTF-8.
fn words_given(rt: &HostRuntime) -> io::Result<Vec<String>> {
    let mut words = Vec::new(rt.alloc());
    for word in env::args(rt)?.skip(1) {
        words.push(word)?;
    }
    Ok(words)
}

/// What is answered without a run: the help or the version, where one of them is asked for alone.
fn answer_to(words: &[String]) -> Option<&'static str> {
    match words {
        [word] if matches!(word.as_str(), "--help" | "-h" | "help") => Some(HELP),
        [word] if word.as_str() == "--version" => Some(VERSION),
        _ => None,
    }
}

/// Writes an answer, and says whether that failed.
fn write_answer(rt: &HostRuntime, answer: &str) -> Status {
    let mut sink = StdSink::new(io::writer(rt));
    match write_whole(&mut sink, answer.as_bytes()) {
        Ok(()) => Status::Good,
        Err(_) => Status::WriteFault,
    }
}

/// Refuses words that cannot be handed to `run_words`, by the line that it has for words of no form. The cause goes to standard
/// error.
fn refuse_words(rt: &HostRuntime, cause: &str) -> Status {
    match write_answer(rt, "bad words\n") {
        Status::Good => {
            let _ = eprintln!(rt; "{cause} (see ccbase --help)");
            Status::BadWords
        }
        failed => {
            let _ = eprintln!(rt; "ccbase: standard output: a write failed");
            failed
        }
    }
}

/// Ends a call to which the system gives no random numbers. Words of no form need none.
fn end_without_random_numbers(rt: &HostRuntime, words: &[Text]) -> Status {
    match form_of(words) {
        Some(_) => {
            let _ = eprintln!(rt; "ccbase: the system gives no random numbers");
            Status::NoMemory
        }
        None => refuse_words(rt, USAGE),
    }
}

/// The words as texts.
fn texts_of(alloc: Global, words: &[String]) -> Result<Vec<Text>, NoMemory> {
    let mut texts = Vec::new(alloc);
    for word in words {
        texts.push(Text::from_bytes(alloc, word.as_bytes())?)?;
    }
    Ok(texts)
}

/// What is wrong with a line of a session, for its writer.
fn fault_words(cause: SessionCause) -> &'static str {
    match cause {
        SessionCause::NoPhase => "no line 'phase' comes before it",
        SessionCause::NoLane => "no line 'lane NAME' comes before it in this phase",
        SessionCause::NoBody => "no text ('|') may follow the line before",
        SessionCause::TwoLanes => "this phase already has a lane of this name",
        SessionCause::TooManyLanes => "a phase has at most 64 lanes",
        SessionCause::UnknownCommand => "no such command",
        SessionCause::BadWord => "a word is missing or wrong, or there is one too many",
    }
}

/// Writes why a call did not carry its session out to standard error, in one line. What was carried out, and what memory was
/// wanting for, has none.
fn tell_cause(
    rt: &HostRuntime,
    status: Status,
    file: &str,
    disk: &FileDisk<HostRuntime>,
) -> io::Result<()> {
    match status {
        Status::Good | Status::SomeFailed | Status::NoMemory => Ok(()),
        Status::BadWords => eprintln!(rt; "{USAGE} (see ccbase --help)"),
        Status::BadSession(error) => eprintln!(rt;
            "ccbase: standard input: line {}: {}",
            error.line,
            fault_words(error.cause)
        ),
        Status::Damaged(row) => eprintln!(rt;
            "ccbase: {file}: row {row} is damaged; nothing was run or changed"
        ),
        Status::ReadFault => eprintln!(rt; "ccbase: standard input: a read failed"),
        Status::WriteFault => eprintln!(rt; "ccbase: standard output: a write failed"),
        Status::DiskFault => match disk.trouble() {
            Some(trouble) => eprintln!(rt; "ccbase: {}", trouble.words(rt.alloc())?),
            None => eprintln!(rt; "ccbase: {file}: the disk failed"),
        },
        Status::TooLong => eprintln!(rt;
            "ccbase: standard input: it has more than 16,777,216 bytes"
        ),
    }
}

/// Runs what the words ask for, with threads by this handle, and answers the status. Words of no form name no FILE, and then
/// nothing is opened.
fn run<R: Threads + Wait + Sync>(
    threads: &R,
    rt: &HostRuntime,
    words: &[String],
) -> Result<Status, NoMemory> {
    let alloc = rt.alloc();
    let texts = texts_of(alloc, words)?;
    let Ok(hashing) = RandomState::new(rt) else {
        return Ok(end_without_random_numbers(rt, texts.as_slice()));
    };
    let file = words.first().map_or("", |word| word.as_str());
    let Ok(disk) = LookingDisk::new(rt, file) else {
        return Err(NoMemory);
    };
    let mut source = StdSource::new(rt.reader());
    let mut sink = StdSink::new(io::writer(rt));
    let mut clock = SystemClock::new(rt.clone()?);
    let ended = run_words(
        threads,
        alloc,
        hashing,
        &OpenHook,
        texts.as_slice(),
        &mut source,
        &mut sink,
        disk,
        &mut clock,
    );
    let _ = tell_cause(rt, ended.status, file, &ended.disk.disk);
    Ok(ended.status)
}

fn main(rt: HostRuntime) -> io::Result<ExitCode> {
    let words = match words_given(&rt) {
        Ok(words) => words,
        Err(error) if error.kind() == io::ErrorKind::InvalidData => {
            let status = refuse_words(&rt, "ccbase: a word is not UTF-8");
            return Ok(ExitCode::from(status.code()));
        }
        Err(_) => return Ok(ExitCode::from(Status::NoMemory.code())),
    };
    let status = match answer_to(words.as_slice()) {
        Some(answer) => write_answer(&rt, answer),
        // Only `main` may lend the handle of the process for threads, to a parameter with their bounds; for streams, files and
        // the clock it goes by its own type.
        None => run(&rt, &rt, words.as_slice()).unwrap_or(Status::NoMemory),
    };
    Ok(ExitCode::from(status.code()))
}
