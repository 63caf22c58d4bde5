//! What single words say.

ghost use Rattle.std.specs.Prelude.{◌≡◌, ◌<◌, ◌+◌, [], length, IfSome, MatchOption, true};
ghost use Rattle.std.specs.List.{position, slice_split};
ghost use Rattle.cc_names.specs.Answers.{Gives};
ghost use Rattle.cc_names.specs.Paths.{is_root, is_slash, is_at};
ghost use Rattle.session_text.specs.Words.{name_word, path_word, below_root, type_word, age_word, jobs_word, version_of_parts, version_behind_main, version_word, cat_word, latest_word};

use cc_names::commands::VersionName;
use cc_names::lists::List;
use cc_names::memory::Or;
use cc_names::names::{Name, type_name};
use cc_names::numbers::number;
use cc_names::paths::{Path, first_slash};
use cc_names::refusals::SessionCause;
use std::alloc::Global;

/// A word as a name.
pub(crate) fn name_word(alloc: Global, word: &[u8]) -> Result<Name, Or<SessionCause>>
    ensures { Gives result (name_word word.now) }
{
    match Name::read(alloc, word) {
        Ok(name) => Ok(name),
        Err(Or::NoMemory) => Err(Or::NoMemory),
        Err(Or::Is(_)) => Err(Or::Is(SessionCause::BadWord)),
    }
}

/// A word as a path.
pub(crate) fn path_word(alloc: Global, word: &[u8]) -> Result<Path, Or<SessionCause>>
    ensures { Gives result (path_word word.now) }
{
    match Path::read(alloc, word) {
        Ok(path) => Ok(path),
        Err(Or::NoMemory) => Err(Or::NoMemory),
        Err(Or::Is(_)) => Err(Or::Is(SessionCause::BadWord)),
    }
}

fn is_root_word(word: &[u8]) -> bool
    ensures { result ≡ is_root word.now }
{
    matches!(word, [b'.'])
}

/// A word as a path below the root.
pub(crate) fn below_root(alloc: Global, word: &[u8]) -> Result<Path, Or<SessionCause>>
    ensures { Gives result (below_root word.now) }
{
    if is_root_word(word) {
        return Err(Or::Is(SessionCause::BadWord));
    }
    path_word(alloc, word)
}

/// A word as the name of a label type or a branch type.
pub(crate) fn type_word(alloc: Global, word: &[u8]) -> Result<Name, Or<SessionCause>>
    ensures { Gives result (type_word word.now) }
{
    match type_name(alloc, word)? {
        Some(name) => Ok(name),
        None => Err(Or::Is(SessionCause::BadWord)),
    }
}

/// A word as an age in seconds.
pub(crate) fn age_word(word: &[u8]) -> Result<u64, SessionCause>
    ensures { result ≡ age_word word.now }
{
    match number(word) {
        Some(age) if age <= 9_223_372_036_854_775_807 => Ok(age),
        _ => Err(SessionCause::BadWord),
    }
}

/// A word as a number of jobs.
pub(crate) fn jobs_word(word: &[u8]) -> Result<u32, SessionCause>
    ensures { result ≡ jobs_word word.now }
{
    match number(word) {
        Some(jobs) if matches!(jobs, 1..=64) => Ok(jobs as u32),
        _ => Err(SessionCause::BadWord),
    }
}

fn version_of_parts(
    branches: Vec<Name>,
    number: Option<u64>,
) -> Result<VersionName, Or<SessionCause>>
    ensures { Gives result (version_of_parts branches.items number) }
{
    let branches = List::of(branches);
    match number {
        Some(number) => Ok(VersionName { branches, number }),
        None => Err(Or::Is(SessionCause::BadWord)),
    }
}

fn version_behind_main(alloc: Global, bytes: &[u8]) -> Result<VersionName, Or<SessionCause>>
    ensures { Gives result (version_behind_main (slice_split is_slash bytes.now) []) }
{
    let mut branches = Vec::new(alloc);
    let mut rest = bytes;
    'branches: while let Some(slash) = first_slash(rest) {
        match type_word(alloc, &rest[..slash]) {
            Ok(branch) => branches.push(branch)?,
            Err(fault) => return Err(fault),
        }
        rest = &rest[slash + 1..];
    }
    version_of_parts(branches, number(rest))
}

/// A word as a version's name, `/main/fix/3`.
pub(crate) fn version_word(alloc: Global, word: &[u8]) -> Result<VersionName, Or<SessionCause>>
    ensures { Gives result (version_word word.now) }
{
    match word.strip_prefix(b"/main/") {
        Some(rest) => version_behind_main(alloc, rest),
        None => Err(Or::Is(SessionCause::BadWord)),
    }
}

fn first_at(bytes: &[u8]) -> Option<usize>
    ensures place { result ≡ position is_at bytes.now }
    ensures within { IfSome result (λ place. place < length bytes.now) }
{
    bytes.iter().position(|byte| *byte == b'@')
}

/// A word as a path, or as a path and a version after `@@`.
pub(crate) fn cat_word(
    alloc: Global,
    word: &[u8],
) -> Result<(Path, Option<VersionName>), Or<SessionCause>>
    ensures { Gives result (cat_word word.now) }
{
    let Some(place) = first_at(word) else {
        return Ok((path_word(alloc, word)?, None));
    };
    let Some(version) = word[place..].strip_prefix(b"@@") else {
        return Err(Or::Is(SessionCause::BadWord));
    };
    let path = path_word(alloc, &word[..place])?;
    let version = version_word(alloc, version)?;
    Ok((path, Some(version)))
}

/// The branch type of a word `.../B/LATEST`.
pub(crate) fn latest_word(alloc: Global, word: &[u8]) -> Result<Name, Or<SessionCause>>
    ensures { Gives result (latest_word word.now) }
{
    let Some(rest) = word.strip_prefix(b".../") else {
        return Err(Or::Is(SessionCause::BadWord));
    };
    match rest.strip_suffix(b"/LATEST") {
        Some(branch) => type_word(alloc, branch),
        None => Err(Or::Is(SessionCause::BadWord)),
    }
}
