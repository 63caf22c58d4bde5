//! What the words after a command's word say, by their shape.

ghost use Rattle.std.specs.Prelude.{◌≡◌};
ghost use Rattle.cc_names.specs.Answers.{Gives};
ghost use Rattle.session_text.specs.Shapes.{has_flag, without_flag, view, only_type, view_path, view_below, type_path, path_type, maybe_path, read_first_name, behind_first, flag_path, flag_below};
ghost use Rattle.session_text.specs.Words.{both, below_root, name_word, path_word};

use crate::words::{below_root, name_word, path_word, type_word};
use cc_names::cuts::Words;
use cc_names::memory::Or;
use cc_names::names::Name;
use cc_names::paths::Path;
use cc_names::refusals::SessionCause;
use std::alloc::Global;

/// Takes a flag where it stands first, and answers whether it did.
pub(crate) fn take_flag(words: &mut Words<'_>, flag: &[u8]) -> bool
    ensures has { result ≡ has_flag flag.now words.old }
    ensures left { words.new ≡ without_flag flag.now words.old }
{
    let mut behind = words.again();
    match behind.next() {
        Some(word) if word == flag => {
            *words = behind;
            true
        }
        _ => false,
    }
}

/// The first word as a name.
pub(crate) fn read_first_name(
    alloc: Global,
    words: &mut Words<'_>,
) -> Result<Name, Or<SessionCause>>
    ensures name { Gives result (read_first_name words.old) }
    ensures left { words.new ≡ behind_first words.old }
{
    match words.next() {
        Some(word) => name_word(alloc, word),
        None => Err(Or::Is(SessionCause::BadWord)),
    }
}

/// V
pub(crate) fn view(alloc: Global, mut words: Words<'_>) -> Result<Name, Or<SessionCause>>
    ensures { Gives result (view words.entry) }
{
    let (Some(view), None) = (words.next(), words.next()) else {
        return Err(Or::Is(SessionCause::BadWord));
    };
    name_word(alloc, view)
}

/// L
pub(crate) fn only_type(alloc: Global, mut words: Words<'_>) -> Result<Name, Or<SessionCause>>
    ensures { Gives result (only_type words.entry) }
{
    let (Some(name), None) = (words.next(), words.next()) else {
        return Err(Or::Is(SessionCause::BadWord));
    };
    type_word(alloc, name)
}

/// Two words as a name and a path.
pub(crate) fn named_path(
    alloc: Global,
    name: &[u8],
    path: &[u8],
) -> Result<(Name, Path), Or<SessionCause>>
    ensures { Gives result (both (name_word name.now) (path_word path.now)) }
{
    let name = name_word(alloc, name)?;
    let path = path_word(alloc, path)?;
    Ok((name, path))
}

/// Two words as a name and a path below the root.
pub(crate) fn named_below(
    alloc: Global,
    name: &[u8],
    path: &[u8],
) -> Result<(Name, Path), Or<SessionCause>>
    ensures { Gives result (both (name_word name.now) (below_root path.now)) }
{
    let name = name_word(alloc, name)?;
    let path = below_root(alloc, path)?;
    Ok((name, path))
}

/// V P
pub(crate) fn view_path(
    alloc: Global,
    mut words: Words<'_>,
) -> Result<(Name, Path), Or<SessionCause>>
    ensures { Gives result (view_path words.entry) }
{
    let (Some(view), Some(path), None) = (words.next(), words.next(), words.next()) else {
        return Err(Or::Is(SessionCause::BadWord));
    };
    named_path(alloc, view, path)
}

/// V P, where P is not the root
pub(crate) fn view_below(
    alloc: Global,
    mut words: Words<'_>,
) -> Result<(Name, Path), Or<SessionCause>>
    ensures { Gives result (view_below words.entry) }
{
    let (Some(view), Some(path), None) = (words.next(), words.next(), words.next()) else {
        return Err(Or::Is(SessionCause::BadWord));
    };
    named_below(alloc, view, path)
}

/// P, or nothing
pub(crate) fn maybe_path(
    alloc: Global,
    mut words: Words<'_>,
) -> Result<Option<Path>, Or<SessionCause>>
    ensures { Gives result (maybe_path words.entry) }
{
    match (words.next(), words.next()) {
        (None, _) => Ok(None),
        (Some(path), None) => Ok(Some(path_word(alloc, path)?)),
        _ => Err(Or::Is(SessionCause::BadWord)),
    }
}

/// L P
pub(crate) fn type_path(
    alloc: Global,
    mut words: Words<'_>,
) -> Result<(Name, Path), Or<SessionCause>>
    ensures { Gives result (type_path words.entry) }
{
    let (Some(name), Some(path), None) = (words.next(), words.next(), words.next()) else {
        return Err(Or::Is(SessionCause::BadWord));
    };
    let name = type_word(alloc, name)?;
    let path = path_word(alloc, path)?;
    Ok((name, path))
}

/// P L
pub(crate) fn path_type(
    alloc: Global,
    mut words: Words<'_>,
) -> Result<(Path, Name), Or<SessionCause>>
    ensures { Gives result (path_type words.entry) }
{
    let (Some(path), Some(name), None) = (words.next(), words.next(), words.next()) else {
        return Err(Or::Is(SessionCause::BadWord));
    };
    let path = path_word(alloc, path)?;
    let name = type_word(alloc, name)?;
    Ok((path, name))
}

/// V flag P
pub(crate) fn flag_path(
    alloc: Global,
    flag: &[u8],
    mut words: Words<'_>,
) -> Result<(Name, bool, Path), Or<SessionCause>>
    ensures { Gives result (flag_path flag.now words.entry) }
{
    let Some(view) = words.next() else {
        return Err(Or::Is(SessionCause::BadWord));
    };
    let flagged = take_flag(&mut words, flag);
    let (Some(path), None) = (words.next(), words.next()) else {
        return Err(Or::Is(SessionCause::BadWord));
    };
    let (view, path) = named_path(alloc, view, path)?;
    Ok((view, flagged, path))
}

/// V flag P, where P is not the root
pub(crate) fn flag_below(
    alloc: Global,
    flag: &[u8],
    mut words: Words<'_>,
) -> Result<(Name, bool, Path), Or<SessionCause>>
    ensures { Gives result (flag_below flag.now words.entry) }
{
    let Some(view) = words.next() else {
        return Err(Or::Is(SessionCause::BadWord));
    };
    let flagged = take_flag(&mut words, flag);
    let (Some(path), None) = (words.next(), words.next()) else {
        return Err(Or::Is(SessionCause::BadWord));
    };
    let (view, path) = named_below(alloc, view, path)?;
    Ok((view, flagged, path))
}
