//! Two sessions on the same two real files, one after the other, as two calls of `ccbase` make them.

use crate::runs::words_of;
use anyhow::Result;
use cc_outside::{MemorySource, OpenHook, StdSink, SystemClock};
use disk_model::FileDisk;
use session_run::{Status, run_words};
use std::hash::RandomState;
use std::io;
use std::sync::Wait;
use std::thread::Threads;

// Builds on new files.
const FIRST: &str =
    "phase\nlane a\nmkview v\nsave v Makefile\n|out: in\n|\tcat in > out\nsave v in\n|hi\nclearmake v out\n";

// Is refused the view that is there by now, and keeps the object.
const SECOND: &str = "phase\nlane a\nmkview v\nclearmake v out\n";

// The disk of the files `f` and `f.objects` of the folder that the program runs in.
fn disk_here(rt: &HostRuntime) -> Result<FileDisk<HostRuntime>> {
    let journal = String::from_str(rt.alloc(), "f")?;
    let objects = String::from_str(rt.alloc(), "f.objects")?;
    Ok(FileDisk::new(rt.clone()?, journal, objects))
}

// Runs a session on these files by the clock of the system, and prints what it writes.
fn run_here<R: Threads + Wait + Sync>(threads: &R, rt: &HostRuntime, text: &str) -> Result<Status> {
    let alloc = rt.alloc();
    let words = words_of(alloc, "f run")?;
    let mut source = MemorySource::new(alloc, text.as_bytes(), &[])?;
    let mut sink = StdSink::new(io::writer(rt));
    let mut clock = SystemClock::new(rt.clone()?);
    let hashing = RandomState::new(rt)?;
    let disk = disk_here(rt)?;
    let ended = run_words(
        threads,
        alloc,
        hashing,
        &OpenHook,
        words.as_slice(),
        &mut source,
        &mut sink,
        disk,
        &mut clock,
    );
    Ok(ended.status)
}

/// Runs both sessions, and prints what they write; answers with the status of the first that was not carried out, else 0.
pub(crate) fn run_reopened<R: Threads + Wait + Sync>(threads: &R, rt: &HostRuntime) -> Result<u8> {
    for text in [FIRST, SECOND] {
        let status = run_here(threads, rt, text)?;
        if !matches!(status, Status::Good | Status::SomeFailed) {
            return Ok(status.code());
        }
    }
    Ok(0)
}
