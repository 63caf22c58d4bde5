//! A case: one session or several, each on the base that the one before leaves, and what they come to.

use crate::asked::{Asked, STOPS};
use crate::journals::{journal_for, journals_stopped};
use crate::runs::{Host, Outcome, disk_with, outcome_on};
use crate::tables::{NOTHING, Preamble};
use crate::tallies::RunCounts;
use anyhow::{Context, Result, ensure};
use disk_model::MemoryDisk;
use std::sync::Wait;
use std::thread::Threads;

// A session of a case, and what is wanted of it: one text, or one of several.
#[derive(Clone, Copy)]
struct Part<'a> {
    asked: Asked<'a>,
    wanted: &'a str,
}

fn read_part(text: &str) -> Result<Part<'_>> {
    let (asked, wanted) = text
        .split_once("----\n")
        .context("a session has no line `----` after it")?;
    for wanted in wanted.split("----\n") {
        check_wanted(wanted)?;
    }
    let asked = Asked::of(asked)?;
    Ok(Part { asked, wanted })
}

// Where only the end of an output is wanted, a line of it stands above that of the status.
fn check_wanted(wanted: &str) -> Result<()> {
    let Some(end) = wanted.strip_prefix("...\n") else {
        return Ok(());
    };
    let (output, _status) = end
        .split_once("status ")
        .context("no status is wanted behind `...`")?;
    ensure!(
        !output.trim().is_empty(),
        "no line of output is wanted behind `...`"
    );
    Ok(())
}

// What a session comes to: what is wanted, and the disk that the next one goes on with; or something else.
#[derive(Drop)]
enum Found {
    Wanted(MemoryDisk),
    Other(String),
}

fn found_of(outcome: Outcome, preamble: Preamble<'_>, part: Part<'_>) -> Found {
    let Outcome { reported, disk } = outcome;
    let is_wanted = part.wanted.split("----\n").any(|wanted| matches_wanted(
        reported.as_str(),
        preamble.reported,
        wanted,
    ));
    if is_wanted {
        Found::Wanted(disk)
    } else {
        Found::Other(reported)
    }
}

// A session after a front, on what the one before left.
fn run_next<R: Threads + Wait + Sync>(
    host: &Host<'_, R>,
    preamble: Preamble<'_>,
    part: Part<'_>,
    left: &MemoryDisk,
    counts: &mut RunCounts,
) -> Result<Found> {
    counts.add_run();
    let journal = journal_for(host.rt.alloc(), part.asked, left.bytes(0))?;
    let outcome = outcome_on(host, journal.as_slice(), preamble.asked, part.asked)?;
    Ok(found_of(outcome, preamble, part))
}

// A session on what each stop may leave of the one before, which stays the one before.
fn run_stopped<R: Threads + Wait + Sync>(
    host: &Host<'_, R>,
    part: Part<'_>,
    left: MemoryDisk,
    counts: &mut RunCounts,
) -> Result<Found> {
    for journal in journals_stopped(host.rt.alloc(), part.asked, &left)? {
        counts.add_stop();
        let outcome = outcome_on(host, journal.as_slice(), "", part.asked)?;
        if let Found::Other(reported) = found_of(outcome, NOTHING, part) {
            return Ok(Found::Other(reported));
        }
    }
    Ok(Found::Wanted(left))
}

// What the first session of a case comes to that comes to something else than the case says. The front stands before the first
// session; the first one is run on an empty base.
fn difference_in<R: Threads + Wait + Sync>(
    host: &Host<'_, R>,
    preamble: Preamble<'_>,
    case: &str,
    counts: &mut RunCounts,
) -> Result<Option<String>> {
    let mut before = preamble;
    let mut left = disk_with(host.rt.alloc(), &[], &[])?;
    for part in case.split("++++\n") {
        let part = read_part(part)?;
        let found = if part.asked.setting(STOPS).is_some() {
            run_stopped(host, part, left, counts)?
        } else {
            run_next(host, before, part, &left, counts)?
        };
        left = match found {
            Found::Wanted(disk) => disk,
            Found::Other(reported) => return Ok(Some(reported)),
        };
        before = NOTHING;
    }
    Ok(None)
}

// A case that is run once for each number: the first and the last of them, and its text.
fn each_of(case: &str) -> Option<(u64, u64, &str)> {
    let (numbers, case) = case.strip_prefix("each ")?.split_once("\n")?;
    let (first, last) = numbers.split_once(" to ")?;
    Some((first.parse::<u64>().ok()?, last.parse::<u64>().ok()?, case))
}

/// What the first session of a case comes to that comes to something else than the case says. A case that begins with a line
/// `each FIRST to LAST` is run for each of these numbers, with that in place of `EACH`. Its sessions and runs are added.
pub(crate) fn first_difference<R: Threads + Wait + Sync>(
    host: &Host<'_, R>,
    preamble: Preamble<'_>,
    case: &str,
    counts: &mut RunCounts,
) -> Result<Option<String>> {
    counts.add_sessions(case.split("++++\n").count());
    let Some((first, last, case)) = each_of(case) else {
        return difference_in(host, preamble, case, counts);
    };
    ensure!(first <= last, "no number is in each {first} to {last}");
    for number in first..=last {
        let number = format!(in host.rt.alloc(); "{number}")?;
        let case = case.replace(host.rt.alloc(), "EACH", number.as_str())?;
        if let Some(reported) = difference_in(host, preamble, case.as_str(), counts)? {
            let reported = format!(in host.rt.alloc(); "with {number}:\n{reported}")?;
            return Ok(Some(reported));
        }
    }
    Ok(None)
}

// Whether an output ends so, after a line at least.
fn ends_as_wanted(written: &str, end: &str) -> bool {
    match written.strip_suffix(end) {
        Some(omitted) => omitted.ends_with("\n") && !omitted.trim().is_empty(),
        None => false,
    }
}

// Whether what is written is what is wanted, after what the front's session writes. Where the first line that is wanted is
// `...`, only the end is compared.
fn matches_wanted(written: &str, before: &str, wanted: &str) -> bool {
    match (written.strip_prefix(before), wanted.strip_prefix("...\n")) {
        (Some(written), Some(end)) => ends_as_wanted(written, end),
        (Some(written), None) if wanted.contains(" shared ") => is_as_wanted(written, wanted),
        (Some(written), None) => written == wanted,
        (None, _) => false,
    }
}

// The word that is written where a wanted line has `shared`, if the rest is as wanted.
fn shared_word<'a>(written: &'a str, wanted: &str) -> Option<&'a str> {
    let (unit, rest) = wanted.split_once(" shared ")?;
    let word = written.strip_prefix(unit)?.strip_suffix(rest)?;
    Some(word.trim())
}

fn is_line(written: &str, wanted: &str) -> bool {
    written == wanted || matches!(shared_word(written, wanted), Some("built" | "winked"))
}

// How many of the lines for which this one is wanted are written with `built`.
fn count_built(written: &str, wanted: &str, line: &str) -> usize {
    let lines = written.lines().zip(wanted.lines());
    lines
        .filter(|(_, wanted)| *wanted == line)
        .filter(|(written, wanted)| shared_word(written, wanted) == Some("built"))
        .count()
}

// Whether the lines that are written are those that are wanted, where one of those with `shared` is written with `built` and the
// others with `winked`.
fn is_as_wanted(written: &str, wanted: &str) -> bool {
    written.lines().count() == wanted.lines().count()
        && written
            .lines()
            .zip(wanted.lines())
            .all(|(written, wanted)| is_line(written, wanted))
        && wanted
            .lines()
            .filter(|line| line.contains(" shared "))
            .all(|line| count_built(written, wanted, line) == 1)
}
