//! The targets of rule lines, special ones and others, and what special targets say.

ghost use Rattle.std.specs.Prelude.{◌≡◌, IfOk, OnOk, fold, filter, not};
ghost use Rattle.std.specs.List.{list_any};
ghost use Rattle.make_grammar.specs.Grammar.{first_suffixes};
ghost use Rattle.make_grammar.specs.Macros.{is_among};
ghost use Rattle.make_grammar.specs.WordPaths.{with_path_once};
ghost use Rattle.make_grammar.specs.Statements.{is_special, plain_targets};

use crate::rule_lines::is_special;
use crate::word_paths::{each_once, read_paths_below_root};
use crate::words::words;
use cc_names::lists::List;
use cc_names::memory::NoMemory;
use cc_names::paths::Path;
use indexmap::IndexSet;
use std::alloc::Global;
use std::hash::RandomState;

/// Puts those of the paths that are not there after others, in order.
pub(crate) fn put_paths(
    alloc: Global,
    set: &mut IndexSet<Path, RandomState>,
    paths: &[Path],
) -> Result<(), NoMemory>
    ensures { OnOk result (set.new.keys ≡ fold with_path_once set.old.keys paths.now) }
{
    for path in paths {
        if !set.contains(path) {
            set.insert(path.copy(alloc)?)?;
        }
    }
    Ok(())
}

/// The suffixes of a makefile that says nothing of them.
pub(crate) fn first_suffixes(alloc: Global) -> Result<Vec<Path>, NoMemory>
    ensures { IfOk result (λ suffixes. suffixes.items ≡ first_suffixes) }
{
    let words = words(alloc, b".o .c .h .s .txt")?;
    match read_paths_below_root(alloc, words.as_slice())? {
        Some(suffixes) => Ok(suffixes),
        None => unreachable!(),
    }
}

/// The targets that are not special.
fn not_special(alloc: Global, targets: &[Path]) -> Result<Vec<Path>, NoMemory>
    ensures { IfOk result
        (λ plain. plain.items ≡ filter (λ target. not (is_special target)) targets.now) }
{
    let mut plain = Vec::new(alloc);
    for target in targets {
        if !is_special(target.as_bytes()) {
            plain.push(target.copy(alloc)?)?;
        }
    }
    Ok(plain)
}

/// The targets of a rule line that are not special, those of a group each once.
pub(crate) fn plain_targets(
    alloc: Global,
    hashing: RandomState,
    is_group: bool,
    targets: List<Path>,
) -> Result<List<Path>, NoMemory>
    ensures { IfOk result (λ plain. plain ≡ plain_targets is_group targets) }
{
    if is_group {
        return Ok(each_once(alloc, hashing, targets.into_items())?);
    }
    Ok(List::of(not_special(alloc, targets.as_slice())?))
}

/// Whether a target is special.
pub(crate) fn has_special_target(targets: &[Path]) -> bool
    ensures { result ≡ list_any is_special targets.now }
{
    for target in targets {
        if is_special(target.as_bytes()) {
            return true;
        }
    }
    false
}

/// Whether a target has this name.
pub(crate) fn is_target_named(targets: &[Path], name: &[u8]) -> bool
    ensures { result ≡ is_among targets.now name.now }
{
    for target in targets {
        if name == target.as_bytes() {
            return true;
        }
    }
    false
}

/// Whether one of the paths is in a set.
pub(crate) fn has_some(set: &IndexSet<Path, RandomState>, paths: &[Path]) -> bool
    ensures { result ≡ list_any (is_among set.now.keys) paths.now }
{
    for path in paths {
        if set.contains(path) {
            return true;
        }
    }
    false
}
