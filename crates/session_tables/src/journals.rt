//! The journals that a session is run on: one that is written out, the one that was left, or those that stops may leave.

use crate::asked::{Asked, STOPS, numbers_of};
use anyhow::{Context, Result, bail, ensure};
use disk_model::{Disk, MemoryDisk};
use std::alloc::Global;

// The bytes of one word: two hexadecimal digits for each, or `FROM-TO`, the bytes from one place of the journal that was left to
// before another.
fn add_piece(alloc: Global, word: &str, left: &[u8], journal: &mut Vec<u8>) -> Result<()> {
    let Some((from, to)) = word.split_once("-") else {
        journal.extend_from_slice(hex::decode(alloc, word.as_bytes())?.as_slice())?;
        return Ok(());
    };
    let (from, to) = (from.parse::<usize>()?, to.parse::<usize>()?);
    let piece = left.get(from..to).context("the journal is shorter")?;
    journal.extend_from_slice(piece)?;
    Ok(())
}

/// The journal that a session begins with, where this one was left.
pub(crate) fn journal_for(alloc: Global, asked: Asked<'_>, left: &[u8]) -> Result<Vec<u8>> {
    let Some(words) = asked.setting("the journal is ") else {
        return Ok(left.to_vec(alloc)?);
    };
    let mut journal = Vec::new(alloc);
    for word in words.split_whitespace() {
        add_piece(alloc, word, left, &mut journal)?;
    }
    Ok(journal)
}

// What a stop keeps of the writes since the last sync: none, all, or in their ranges bytes of another value.
fn pick_of(word: &str) -> Result<u64> {
    match word {
        "none" => Ok(0),
        "all" => Ok(1),
        "other" => Ok(7),
        _ => bail!("{word} is not kept"),
    }
}

// What a stop at this call leaves of the journal.
fn journal_stopped(alloc: Global, disk: &MemoryDisk, call: u64, pick: u64) -> Result<Vec<u8>> {
    ensure!(
        1 <= call && call - 1 <= disk.counts().ticks,
        "the disk has fewer calls than {call}"
    );
    let left = disk.crash(alloc, call, pick)?;
    Ok(left.bytes(0).to_vec(alloc)?)
}

// What stops leave, by a setting `stopped at CALLS keeping WORDS`: at each of the calls, and keeping each of these.
fn add_stopped(
    alloc: Global,
    disk: &MemoryDisk,
    stops: &str,
    journals: &mut Vec<Vec<u8>>,
) -> Result<()> {
    let (calls, kept) = stops
        .split_once(" keeping ")
        .context("a stop keeps none, all or other")?;
    let before = journals.len();
    for call in numbers_of(alloc, calls)? {
        for word in kept.split_whitespace() {
            journals.push(journal_stopped(alloc, disk, call, pick_of(word)?)?)?;
        }
    }
    ensure!(
        before < journals.len(),
        "a stop has its calls and what it keeps"
    );
    Ok(())
}

/// What stops leave of the journal of a disk, by all settings of that kind.
pub(crate) fn journals_stopped(
    alloc: Global,
    asked: Asked<'_>,
    disk: &MemoryDisk,
) -> Result<Vec<Vec<u8>>> {
    let mut journals = Vec::new(alloc);
    for line in asked.settings().lines() {
        if let Some(stops) = line.strip_prefix(STOPS) {
            add_stopped(alloc, disk, stops, &mut journals)?;
        }
    }
    Ok(journals)
}
