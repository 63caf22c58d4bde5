//! Words as paths.

ghost use Rattle.std.specs.Prelude.{◌≡◌, IfOk, map, option_map};
ghost use Rattle.make_grammar.specs.WordPaths.{path_below_root, paths_below_root, each_once};

use cc_names::lists::List;
use cc_names::memory::{NoMemory, Or};
use cc_names::paths::Path;
use indexmap::IndexSet;
use std::alloc::{AllocError, Global};
use std::hash::RandomState;

/// A word as a path below the root, where it is one. Takes time linear in the word.
pub fn read_path_below_root(alloc: Global, word: &[u8]) -> Result<Option<Path>, NoMemory>
    ensures { IfOk result (λ read. read ≡ path_below_root word.now) }
{
    match Path::read(alloc, word) {
        Ok(path) if !path.is_root() => Ok(Some(path)),
        Ok(_) | Err(Or::Is(_)) => Ok(None),
        Err(Or::NoMemory) => Err(NoMemory),
    }
}

/// The words as paths below the root, where all of them are so.
pub(crate) fn read_paths_below_root(
    alloc: Global,
    words: &[&[u8]],
) -> Result<Option<Vec<Path>>, NoMemory>
    ensures { IfOk result
        (λ paths. option_map (λ v. v.items) paths ≡ paths_below_root (map (λ word. word.now) words.now)) }
{
    let mut paths = Vec::new(alloc);
    for word in words {
        let Some(path) = read_path_below_root(alloc, word)? else {
            return Ok(None);
        };
        paths.push(path)?;
    }
    Ok(Some(paths))
}

/// The paths, each of them once.
pub(crate) fn each_once(
    alloc: Global,
    hashing: RandomState,
    paths: Vec<Path>,
) -> Result<List<Path>, AllocError>
    ensures { IfOk result (λ once. once ≡ each_once paths.items) }
{
    let mut once = IndexSet::with_hasher(alloc, hashing);
    for path in paths {
        once.insert(path)?;
    }
    Ok(List::of(once.into_iter().collect(alloc)?))
}
