//! Selectors of config specs: which words spell them.

ghost use Rattle.std.specs.Prelude.{◌≡◌, IfOk, []};
ghost use Rattle.std.specs.Option.{option_copied};
ghost use Rattle.std.specs.List.{slice_split};
ghost use Rattle.cc_names.specs.Answers.{Gives};
ghost use Rattle.cc_names.specs.Paths.{is_at};
ghost use Rattle.cc_names.specs.TypeNames.{type_name_of};
ghost use Rattle.base_model.specs.ConfigSpecs.Selectors.{on_branch, behind_main, behind_dots, selector_of_parts, selector_of_word, of_object, object_of_parts, selector_of, branch_type_of};
ghost use Rattle.spec_text.specs.Parts.{parts_left};

use crate::parts::split_part;
use cc_names::lists::List;
use cc_names::memory::{NoMemory, Or};
use cc_names::names::{Name, type_name};
use cc_names::numbers::number;
use cc_names::paths::Path;
use cc_names::refusals::SpecCause;
use cc_names::selection::Selector;
use std::alloc::Global;

fn on_branch(names: Vec<Name>, end: &[u8]) -> Option<Selector>
    ensures { result ≡ on_branch names.items end.now }
{
    if end == b"LATEST".as_slice() {
        return Some(Selector::Latest(List::of(names)));
    }
    match number(end) {
        Some(number) => Some(Selector::Numbered(List::of(names), number)),
        None => None,
    }
}

/// The selector by what follows `/main/`.
fn behind_main(alloc: Global, parts: Option<&[u8]>) -> Result<Option<Selector>, NoMemory>
    ensures { IfOk result
        (λ selector. selector ≡ behind_main (parts_left 47 (option_copied parts.entry)) []) }
{
    let mut names = Vec::new(alloc);
    let mut left = parts;
    'parts: while let Some((part, rest)) = split_part(left, b'/') {
        let Some(_) = split_part(rest, b'/') else {
            return Ok(on_branch(names, part));
        };
        let Some(name) = type_name(alloc, part)? else {
            return Ok(None);
        };
        names.push(name)?;
        left = rest;
    }
    Ok(None)
}

/// The selector by what follows `.../`.
fn behind_dots(alloc: Global, parts: Option<&[u8]>) -> Result<Option<Selector>, NoMemory>
    ensures { IfOk result
        (λ selector. selector ≡ behind_dots (parts_left 47 (option_copied parts.entry))) }
{
    let Some((name, rest)) = split_part(parts, b'/') else {
        return Ok(None);
    };
    let Some((end, rest)) = split_part(rest, b'/') else {
        return Ok(None);
    };
    if split_part(rest, b'/').is_some() || end != b"LATEST".as_slice() {
        return Ok(None);
    }
    match type_name(alloc, name)? {
        Some(name) => Ok(Some(Selector::Wherever(name))),
        None => Ok(None),
    }
}

fn after_slash(alloc: Global, parts: Option<&[u8]>) -> Result<Option<Selector>, NoMemory>
    ensures { IfOk result
        (λ selector. selector ≡ selector_of_parts (parts_left 47 (option_copied parts.entry))) }
{
    let Some((first, rest)) = split_part(parts, b'/') else {
        return Ok(None);
    };
    if first == b"...".as_slice() {
        return behind_dots(alloc, rest);
    }
    let Some((second, rest)) = split_part(rest, b'/') else {
        return Ok(None);
    };
    if !first.is_empty() || second != b"main".as_slice() {
        return Ok(None);
    }
    behind_main(alloc, rest)
}

/// The selector that one word spells.
fn of_word(alloc: Global, word: &[u8]) -> Result<Option<Selector>, NoMemory>
    ensures { IfOk result (λ selector. selector ≡ selector_of_word word.now) }
{
    if word == b"CHECKEDOUT".as_slice() {
        return Ok(Some(Selector::CheckedOut));
    }
    if word == b"-none".as_slice() {
        return Ok(Some(Selector::Nothing));
    }
    match type_name(alloc, word)? {
        Some(name) => Ok(Some(Selector::Label(name))),
        None => after_slash(alloc, Some(word)),
    }
}

fn of_object(alloc: Global, path: &[u8], object: &[u8]) -> Result<Option<Selector>, NoMemory>
    ensures { IfOk result (λ selector. selector ≡ of_object path.now object.now) }
{
    let Some(row) = number(object) else {
        return Ok(None);
    };
    match Path::read(alloc, path) {
        Ok(target) => Ok(Some(Selector::Config(target, row))),
        Err(Or::NoMemory) => Err(NoMemory),
        Err(Or::Is(_)) => Ok(None),
    }
}

/// The selector that the word after `-config` spells.
fn of_object_word(alloc: Global, word: &[u8]) -> Result<Option<Selector>, NoMemory>
    ensures { IfOk result (λ selector. selector ≡ object_of_parts (slice_split is_at word.now)) }
{
    let Some((path, rest)) = split_part(Some(word), b'@') else {
        return Ok(None);
    };
    let Some((between, rest)) = split_part(rest, b'@') else {
        return Ok(None);
    };
    let Some((object, rest)) = split_part(rest, b'@') else {
        return Ok(None);
    };
    if !between.is_empty() || split_part(rest, b'@').is_some() {
        return Ok(None);
    }
    of_object(alloc, path, object)
}

/// Reads a word as a selector, where it stands after `-config` and where it does not, in time linear in its bytes.
pub(crate) fn read_selector(
    alloc: Global,
    behind_config: bool,
    word: &[u8],
) -> Result<Selector, Or<SpecCause>>
    ensures { Gives result (selector_of behind_config word.now) }
{
    let selector = if behind_config {
        of_object_word(alloc, word)?
    } else {
        of_word(alloc, word)?
    };
    match selector {
        Some(selector) => Ok(selector),
        None => Err(Or::Is(SpecCause::BadSelector)),
    }
}

/// Reads what follows `-mkbranch`, where it is there, as the name of a branch type.
pub(crate) fn read_branch_type(
    alloc: Global,
    word: Option<&[u8]>,
) -> Result<Option<Name>, Or<SpecCause>>
    ensures { Gives result (branch_type_of (option_copied word.entry)) }
{
    let Some(bytes) = word else {
        return Ok(None);
    };
    match type_name(alloc, bytes)? {
        Some(name) => Ok(Some(name)),
        None => Err(Or::Is(SpecCause::BadType)),
    }
}
