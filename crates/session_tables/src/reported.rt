//! What is known of a session: what it writes, its status and its rows, and more where that is asked for.

use crate::asked::Asked;
use crate::runs::OBJECTS;
use anyhow::Result;
use cc_names::rows::Row;
use cc_names::texts::Text;
use disk_model::{Call, Disk, MemoryDisk};
use session_run::SessionResult;
use std::alloc::Global;

fn letter_of(call: &Call) -> char {
    match call {
        Call::Length { .. } => 'L',
        Call::Read { .. } => 'R',
        Call::Write { .. } => 'W',
        Call::Tear { .. } => 'T',
        Call::Sync { .. } => 'S',
    }
}

// Adds the number of calls on a disk, and those up to the last that did anything, a letter each: `T` is a write that failed, and
// `!` is a call that failed before it did anything.
fn add_calls(alloc: Global, disk: &MemoryDisk, reported: &mut String) -> Result<()> {
    let mut calls = String::new(alloc);
    for traced in disk.trace() {
        for _ in 0..traced.failed_before {
            calls.push('!')?;
        }
        calls.push(letter_of(&traced.call))?;
    }
    let line = format!(in alloc; "{} calls ({calls})\n", disk.counts().ticks)?;
    reported.push_str(line.as_str())?;
    Ok(())
}

// Adds the moment of each row.
fn add_moments(alloc: Global, rows: &[Row], reported: &mut String) -> Result<()> {
    reported.push_str("moments")?;
    for row in rows {
        let moment = format!(in alloc; " {}", row.moment())?;
        reported.push_str(moment.as_str())?;
    }
    reported.push('\n')?;
    Ok(())
}

// Adds the bytes of a journal, two hexadecimal digits for each.
fn add_journal(alloc: Global, journal: &[u8], reported: &mut String) -> Result<()> {
    let digits = hex::encode(alloc, journal)?;
    let line = format!(in alloc; "journal {digits}\n")?;
    reported.push_str(line.as_str())?;
    Ok(())
}

// What a session writes, with `ok` for each `disk fault`, and how many of these there are.
fn mended_text(alloc: Global, written: &str) -> Result<String> {
    let faults = written.matches(" disk fault\n").count();
    let mended_text = written.replace(alloc, " disk fault\n", " ok\n")?;
    Ok(format!(in alloc; "{mended_text}{faults} disk faults above\n")?)
}

fn written_of(alloc: Global, asked: Asked<'_>, written: &[u8]) -> Result<String> {
    let written = Text::from_bytes(alloc, written)?;
    let written = format!(in alloc; "{written}")?;
    if asked.is_reported("faults") {
        return mended_text(alloc, written.as_str());
    }
    Ok(written)
}

// Adds what is to be told after the status.
fn add_more(
    alloc: Global,
    asked: Asked<'_>,
    ended: &SessionResult<MemoryDisk>,
    reported: &mut String,
) -> Result<()> {
    if asked.is_reported("calls") {
        add_calls(alloc, &ended.disk, reported)?;
    }
    if asked.is_reported("moments") {
        add_moments(alloc, ended.history.rows(), reported)?;
    }
    if asked.is_reported("journal") {
        add_journal(alloc, ended.disk.bytes(0), reported)?;
    }
    if ended.disk.bytes(1) != OBJECTS {
        reported.push_str("the file of objects is another\n")?;
    }
    Ok(())
}

/// What is known of a session that wrote this.
pub(crate) fn report_of(
    alloc: Global,
    asked: Asked<'_>,
    written: &[u8],
    ended: &SessionResult<MemoryDisk>,
) -> Result<String> {
    let (status, rows) = (ended.status.code(), ended.history.rows().len());
    let written = written_of(alloc, asked, written)?;
    let mut reported = format!(in alloc; "{written}status {status}, {rows} rows\n")?;
    add_more(alloc, asked, ended, &mut reported)?;
    Ok(reported)
}
