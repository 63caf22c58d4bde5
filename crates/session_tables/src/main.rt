//! Runs the sessions of the tables in `data/`, and then two sessions on real files.
//!
//! What it is for: the gate sees that sessions come to what the tables say, to the byte: what each command answers, why each is
//! refused and which reason is reported where there are two, what queries print, what builds make and reuse, that makefiles mean
//! what they mean under GNU make, what a base goes on with that is opened again, what is told and left where a disk, a source or
//! a sink fails, what stops leave, and how damaged journals are told. A table is a text, so a case costs no proof. And it sees
//! that a base of real files goes on with what was written to them.
//!
//! What it promises: nothing beside `session_run::run_words`. It is a program whose printed text the gate compares: how many
//! tables and cases were run, of how many sessions, on what stops left and in all, above that each case that comes to something
//! else, and below it what the sessions on real files write.
//!
//! What it stands on: `session_run` for sessions, `disk_model` and `cc_outside` for what is outside of them, `cc_names` for
//! words, `hex` for the bytes of journals, and `anyhow` for what stops it.
#![tactic(auto)]

mod asked;
mod cases;
mod files;
mod journals;
mod reopened;
mod reported;
mod runs;
mod tables;
mod tallies;

use crate::cases::first_difference;
use crate::files::{names_in_folder, text_of_file};
use crate::reopened::run_reopened;
use crate::runs::Host;
use crate::tables::{Preamble, Table, preamble_of, table_of};
use crate::tallies::{RunCounts, Tally};
use anyhow::{Context, Result};
use std::process::ExitCode;
use std::sync::Wait;
use std::thread::Threads;
use std::{env, io};

/// Runs the cases of a table, and prints each that comes to something else.
fn run_cases<R: Threads + Wait + Sync>(
    threads: &R,
    rt: &HostRuntime,
    name: &str,
    preamble: Preamble<'_>,
    table: Table<'_>,
) -> Result<Tally> {
    let host = Host {
        threads,
        rt,
        clock: table.clock,
    };
    let (mut cases, mut differing, mut counts) = (0_usize, 0_usize, RunCounts::default());
    for case in table.cases.split("====\n") {
        cases = cases.saturating_add(1);
        if let Some(reported) = first_difference(&host, preamble, case, &mut counts)? {
            differing = differing.saturating_add(1);
            println!(rt; "{name}: a case comes to\n{reported}and not to what it says:\n{case}")?;
        }
    }
    Ok(Tally {
        tables: 1,
        cases,
        counts,
        differing,
    })
}

/// Runs a table of the folder: the table and its front are read, and its cases run.
fn run_table<R: Threads + Wait + Sync>(
    threads: &R,
    rt: &HostRuntime,
    folder: &str,
    name: &str,
) -> Result<Tally> {
    let text = text_of_file(rt, folder, "tables", name)?;
    let table = table_of(text.as_str()).context(format_args!("{name} is no table"))?;
    let file = format!(in rt.alloc(); "{}.txt", table.preamble)?;
    let preamble = text_of_file(rt, folder, "fronts", file.as_str())?;
    let preamble = preamble_of(preamble.as_str()).context(format_args!("{file} is no front"))?;
    run_cases(threads, rt, name, preamble, table)
}

/// Runs the tables on one subject.
fn run_subject<R: Threads + Wait + Sync>(
    threads: &R,
    rt: &HostRuntime,
    folder: &str,
    subject: &str,
) -> Result<Tally> {
    let tables = format!(in rt.alloc(); "{folder}/tables/{subject}")?;
    let mut tally = Tally::default();
    for name in names_in_folder(rt, tables.as_str())? {
        let table = format!(in rt.alloc(); "{subject}/{name}")?;
        tally = tally.and(run_table(threads, rt, folder, table.as_str())?);
    }
    Ok(tally)
}

/// Runs all tables of a folder, subject by subject in the order of their names.
fn run_folder<R: Threads + Wait + Sync>(
    threads: &R,
    rt: &HostRuntime,
    folder: &str,
) -> Result<Tally> {
    let tables = format!(in rt.alloc(); "{folder}/tables")?;
    let mut tally = Tally::default();
    for subject in names_in_folder(rt, tables.as_str())? {
        tally = tally.and(run_subject(threads, rt, folder, subject.as_str())?);
    }
    Ok(tally)
}

/// The folder of the tables: the first word after the program's name, else the one that it runs in.
fn folder_given(rt: &HostRuntime) -> io::Result<String> {
    match env::args(rt)?.nth(1) {
        Some(folder) => Ok(folder),
        None => Ok(String::from_str(rt.alloc(), ".")?),
    }
}

/// Prints how much was run, and how many cases came to something else.
fn print_tally(rt: &HostRuntime, tally: Tally) -> io::Result<()> {
    let Tally {
        tables,
        cases,
        counts,
        differing,
    } = tally;
    let RunCounts {
        sessions,
        stops,
        runs,
    } = counts;
    println!(rt; "{tables} tables, {cases} cases, {differing} differ")?;
    println!(rt; "{sessions} sessions, {stops} stops, {runs} runs")
}

fn main(rt: HostRuntime) -> Result<ExitCode> {
    let folder = folder_given(&rt)?;
    // Only `main` may lend the handle of the process for threads, to a parameter with their bounds.
    let tally = run_folder(&rt, &rt, folder.as_str())?;
    print_tally(&rt, tally)?;
    let status = run_reopened(&rt, &rt)?;
    Ok(ExitCode::from(status.max(u8::from(tally.differing > 0))))
}
